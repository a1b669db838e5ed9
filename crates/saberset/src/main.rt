// Prints the table of the parameter sets, by writes that need no heap. After one that fails nothing more is written.
#![tactic(auto)]

use std::io;
use std::io::Write;
use streams::Failure;

// Prints a number and a space.
fn print_column<W: Write>(output: &mut W, x: usize) -> io::Result<()> {
    streams::print_decimal(output, x as u64)?;
    streams::write_all(output, b" ")
}

// Prints a set's line.
fn print_set<W: Write>(output: &mut W, set: u32) -> io::Result<()> {
    let p = sets::set_params(set);
    print_column(output, set as usize)?;
    print_column(output, p.l)?;
    print_column(output, p.mu)?;
    print_column(output, p.t as usize)?;
    print_column(output, p.g as usize)?;
    print_column(output, p.pk)?;
    print_column(output, p.sk)?;
    print_column(output, p.ct)?;
    streams::print_decimal(output, p.margin as u64)?;
    streams::write_all(output, b"\n")
}

// Prints the table, a line for each set.
fn print_table<W: Write>(output: &mut W) -> io::Result<()> {
    streams::write_all(output, b"set l mu t g pk sk ct margin\n")?;
    for set in 1..=3 {
        print_set(output, set)?;
    }
    Ok(())
}

fn main(rt: HostRuntime) -> io::Result<()> {
    match print_table(&mut rt.stdout()) {
        Ok(()) => Ok(()),
        Err(error) => streams::report(&rt, "saberset", &Failure::Output(error)),
    }
}
