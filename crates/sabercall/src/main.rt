// Reads requests from standard input, a line each, and answers them.
#![tactic(auto)]

ghost use Rattle.std.specs.Prelude.{◌≡◌, ◌≢◌, ℕ, List, [], ◌+◌, ◌-◌, ◌++◌, ◌≤◌, length, take, drop, cond, nat_eq, codes, OnOk, OnErr};
ghost use Rattle.std.specs.List.{ends_with};
ghost use Rattle.std.specs.Io.KnownBytes.{Consumes, Keeps};

use call_arguments::Buffers;
use call_words::Text;
use std::io;
use std::io::{ErrorKind, Read, Write};
use std::marker::Model;
use streams::Failure;

// A block of the input, of which the bytes from `at` to `end` are not taken yet.
#[derive(Drop)]
struct Block {
    bytes: [u8; 65536],
    at: usize,
    end: usize,
}

impl Model for Block {
    ghost Value = { List ℕ };

    ghost view = { λ block. take (block.end - block.at) (drop block.at block.bytes) };

    ghost invariant = { λ block. (block.at ≤ block.end) × (block.end ≤ 65536) };
}

impl Block {
    fn new() -> Self
        ensures { result ≡ [] }
    {
        Block {
            bytes: [0; 65536],
            at: 0,
            end: 0,
        }
    }

    // Reads another block, where no byte is left of this one. At the end of the input none is read.
    fn refill<R: Read>(&mut self, input: &mut R) -> io::Result<()>
        ensures read { OnOk result (self.old ≡ [] → Consumes (R.remaining input.old) (R.remaining input.new) self.new) }
        ensures kept { (self.old ≢ []) → (self.new ≡ self.old) × Keeps (R.remaining input.old) (R.remaining input.new) }
        ensures failed { OnErr result (self.new ≡ self.old) }
    {
        if self.at == self.end {
            self.at = 0;
            self.end = 0;
            let bytes = &mut self.bytes;
            let count = input.read(bytes)?;
            self.end = count;
        }
        Ok(())
    }

    // The bytes that are not taken yet.
    fn rest(&self) -> &[u8]
        ensures { result.now ≡ self.now }
    {
        &self.bytes[self.at..self.end]
    }

    // Takes bytes off the front.
    fn take(&mut self, count: usize)
        requires { count ≤ length self.old }
        ensures { self.new ≡ drop count self.old }
    {
        self.at += count;
    }
}

// A line of 65,536 bytes, with a place more for a carriage return at its end, and one by which a longer line is known.
#[derive(Drop)]
struct Line {
    bytes: [u8; 65538],
    length: usize,
}

impl Model for Line {
    ghost Value = { List ℕ };

    ghost view = { λ line. take line.length line.bytes };

    ghost invariant = { λ line. line.length ≤ 65538 };
}

impl Line {
    fn new() -> Self
        ensures { result ≡ [] }
    {
        Line {
            bytes: [0; 65538],
            length: 0,
        }
    }

    fn clear(&mut self)
        ensures { self.new ≡ [] }
    {
        self.length = 0;
    }

    fn bytes(&self) -> &[u8]
        ensures { result.now ≡ self.now }
    {
        &self.bytes[..self.length]
    }

    // Adds bytes at the end, as many as find a place.
    fn keep(&mut self, bytes: &[u8])
        ensures { self.new ≡ take 65538 (self.old ++ bytes.now) }
    {
        let kept = bytes.len().min(65538 - self.length);
        let place = &mut self.bytes[self.length..self.length + kept];
        place.copy_from_slice(&bytes[..kept]);
        self.length += kept;
    }

    // Takes a carriage return off the end.
    fn trim(&mut self)
        ensures { self.new ≡ cond (ends_with nat_eq self.old (codes "\r")) (take (length self.old - 1) self.old) self.old }
    {
        if self.bytes().ends_with(b"\r") {
            self.length -= 1;
        }
    }
}

// Reads a line, of which no more is kept than finds a place, and says whether a newline ends it. A carriage return before the newline belongs
// to the end. A proved loop has to end, so it is over more turns than any run takes.
fn read_line<R: Read>(input: &mut R, block: &mut Block, line: &mut Line) -> io::Result<bool> {
    for _ in 0..u64::MAX {
        match block.refill(input) {
            Ok(()) => {}
            Err(error) if error.kind() == ErrorKind::Interrupted => continue,
            Err(error) => return Err(error),
        }
        let rest = block.rest();
        if rest.is_empty() {
            break;
        }
        let newline = rest.iter().position(|b| *b == b'\n');
        let end = newline.unwrap_or(rest.len());
        line.keep(&rest[..end]);
        match newline {
            Some(place) => {
                block.take(place + 1);
                line.trim();
                return Ok(true);
            }
            None => block.take(end),
        }
    }
    Ok(false)
}

// Answers the line that is read, of which `is_first_ended` says whether a newline ends it, and each behind it when it is read. Only this
// function has the buffers, so that an input without lines takes no memory for them.
#[inline(never)]
fn answer_from<R: Read, W: Write>(
    is_first_ended: bool,
    input: &mut R,
    output: &mut W,
    block: &mut Block,
    line: &mut Line,
) -> Result<(), Failure> {
    let mut buffers = Buffers {
        bytes: [0; 32768],
        numbers: [0; 16384],
        signed: [0; 32768],
    };
    let mut text: Text = [0; 163840];
    let mut is_ended = is_first_ended;
    'lines: for _ in 0..u64::MAX {
        let bytes = line.bytes();
        if is_ended || !bytes.is_empty() {
            call_replies::answer(output, bytes, &mut buffers, &mut text).map_err(Failure::Output)?;
        }
        if !is_ended {
            break;
        }
        line.clear();
        is_ended = read_line(input, block, line).map_err(Failure::Input)?;
    }
    Ok(())
}

// Answers each line of the input. An input that ends in the middle of a line ends the line. Where it fails, the line has no answer.
fn answer_lines<R: Read, W: Write>(input: &mut R, output: &mut W) -> Result<(), Failure> {
    let mut block = Block::new();
    let mut line = Line::new();
    let is_ended = read_line(input, &mut block, &mut line).map_err(Failure::Input)?;
    if is_ended || !line.bytes().is_empty() {
        answer_from(is_ended, input, output, &mut block, &mut line)?;
    }
    Ok(())
}

fn main(rt: HostRuntime) -> io::Result<()> {
    match answer_lines(&mut rt.stdin(), &mut rt.stdout()) {
        Ok(()) => Ok(()),
        Err(failure) => streams::report(&rt, "sabercall", &failure),
    }
}
