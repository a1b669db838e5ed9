// Standard input and output of the programs. A call that a signal interrupts is made again; any other that fails ends the work, and the
// program says why.
#![tactic(auto)]

ghost use Rattle.std.specs.Prelude.{◌≤◌, length, decimal, IfOk, OnOk};
ghost use Rattle.std.specs.Io.KnownBytes.{Appends};

use itoa::Buffer;
use std::io::{ErrorKind, Read, Write};
use std::{fmt, io};

// On which stream a call failed, and why.
#[derive(Debug, Drop)]
pub enum Failure {
    Input(io::Error),
    Output(io::Error),
}

impl fmt::Display for Failure {
    fn fmt<W: fmt::Write>(&self, f: &mut fmt::Formatter<W>) -> fmt::Result {
        match self {
            Failure::Input(error) => write!(f, "standard input: {error}"),
            Failure::Output(error) => write!(f, "standard output: {error}"),
        }
    }
}

// Whether a call that gave this was interrupted.
fn is_interrupted(error: &io::Error) -> bool {
    error.kind() == ErrorKind::Interrupted
}

// Reads until the buffer is full or the input ends, and says how many bytes stand at its front. A proved loop has to end, so it is over
// more turns than any run takes.
pub fn read_full<R: Read>(input: &mut R, buffer: &mut [u8]) -> io::Result<usize>
    ensures { IfOk result (λ count. count ≤ length buffer.new) }
{
    let mut at = 0;
    for _ in 0..u64::MAX {
        if at == buffer.len() {
            break;
        }
        match input.read(&mut buffer[at..]) {
            Ok(0) => break,
            Ok(count) => at += count,
            Err(error) if is_interrupted(&error) => {}
            Err(error) => return Err(error),
        }
    }
    Ok(at)
}

// Writes all of a text. A write that takes nothing fails.
pub fn write_all<W: Write>(output: &mut W, text: &[u8]) -> io::Result<()>
    ensures { OnOk result (Appends (W.contents output.old) (W.contents output.new) text.now) }
{
    let mut at = 0;
    for _ in 0..u64::MAX {
        if at == text.len() {
            return Ok(());
        }
        let rest = &text[at..];
        match output.write(rest) {
            Ok(0) => return Err(io::Error::from(ErrorKind::WriteZero)),
            Ok(taken) => at += taken,
            Err(error) if is_interrupted(&error) => {}
            Err(error) => return Err(error),
        }
    }
    Err(io::Error::from(ErrorKind::TimedOut))
}

// Writes a number in decimal.
pub fn print_decimal<W: Write>(output: &mut W, x: u64) -> io::Result<()>
    ensures { OnOk result (Appends (W.contents output.old) (W.contents output.new) (decimal x)) }
{
    let mut buffer = Buffer::new();
    write_all(output, buffer.format(x).as_bytes())
}

// The text of an error without the number that the system gives it.
fn reason(text: &str) -> &str {
    text.split_once(" (os error ")
        .map_or(text, |(reason, _)| reason)
}

// Says on standard error why a program stopped.
pub fn report(
    rt: &(impl Eprint + AllocGlobal),
    program: &str,
    failure: &Failure,
) -> io::Result<()> {
    let text = format!(in rt.alloc(); "{failure}")?;
    let reason = reason(text.as_str());
    eprintln!(rt; "{program}: {reason}")
}
