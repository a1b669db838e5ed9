// Reads a set's number and groups of seeds from standard input, and prints how near they come to a miss.
#![tactic(auto)]

ghost use Rattle.std.specs.Prelude.{◌<◌, ◌≤◌, length, IfOk};

use std::io;
use std::io::{Read, Write};
use streams::Failure;

// A set's number and 4096 groups of 96 bytes; what comes behind them is not read.
type Input = [u8; 393217];

fn input_buffer() -> Input {
    [0; 393217]
}

// Reads a byte, and where it is a set's number what follows, until the buffer is full. Says how many bytes were read.
fn fill<R: Read>(from: &mut R, input: &mut [u8]) -> io::Result<usize>
    requires { 0 < length input.old }
    ensures { IfOk result (λ count. count ≤ length input.new) }
{
    let first = streams::read_full(from, &mut input[..1])?;
    if first == 0 || !margin_text::is_set(input[0]) {
        return Ok(first);
    }
    let rest = streams::read_full(from, &mut input[1..])?;
    Ok(1 + rest)
}

// Prints the report of what is read.
fn print<W: Write>(to: &mut W, input: &[u8]) -> io::Result<()> {
    let mut text = [0; 64];
    let count = margin_text::report(input, &mut text);
    streams::write_all(to, &text[..count])
}

// Input that fails has no report.
fn run<R: Read, W: Write>(from: &mut R, input: &mut [u8], to: &mut W) -> Result<(), Failure>
    requires { 0 < length input.old }
{
    let count = fill(from, input).map_err(Failure::Input)?;
    print(to, &input[..count]).map_err(Failure::Output)
}

fn main(rt: HostRuntime) -> io::Result<()> {
    let mut input = input_buffer();
    match run(&mut rt.stdin(), &mut input, &mut rt.stdout()) {
        Ok(()) => Ok(()),
        Err(failure) => streams::report(&rt, "marginreport", &failure),
    }
}
