// The margin report: what is printed of what is read.
#![tactic(auto)]

ghost use Rattle.std.specs.Prelude.{true, cond, ◌≡◌, ◌%◌, ◌<◌, ◌≤◌, ltb, length, take, Some};
ghost use Rattle.decimals.specs.Ensures.{Appended};
ghost use Rattle.margin_text.specs.Report.{is_set, figures, refusal, report_of, report_text};

#[cfg(test)]
mod tests;

use margin_line::{Line, line_into, text_into};
use sets::set_params;
use std::fmt;

// How many bytes are left over, 0 after 4096 groups.
fn rest_of(cases: usize, bytes: usize) -> usize
    ensures { (result ≡ cond (ltb cases 4096) (bytes % 96) 0) × (result < 96) }
{
    if cases < 4096 { bytes % 96 } else { 0 }
}

// The header and the figures of the groups, under a set, from the front.
fn figures_into(set: u8, bytes: &[u8], text: &mut [u8]) -> usize
    requires { (is_set set ≡ true) × (54 ≤ length text.old) }
    ensures { Appended text.old 0 (figures set bytes.now) text.new result }
{
    let p = set_params(set as u32);
    let t = margin_total::totals_of(p, bytes);
    let rest = rest_of(t.cases, bytes.len());
    let at = text_into(b"set cases least wrong rest\n", 0, text);
    line_into(set, p, t.cases, t.norm, t.wrong, rest, at, text)
}

// The refusal, from the front.
fn refusal_into(text: &mut [u8]) -> usize
    requires { 10 ≤ length text.old }
    ensures { Appended text.old 0 refusal text.new result }
{
    text_into(b"refused 1\n", 0, text)
}

// Whether a byte is a set's own number.
pub fn is_set(byte: u8) -> bool
    ensures { result ≡ is_set byte }
{
    let p = set_params(byte as u32);
    (0 < byte) & (0 < p.l)
}

// Writes what is printed of all that is read, and says how long it is. Of the input no more than the set's number and 4096 groups is looked at.
pub fn report(input: &[u8], text: &mut [u8; 64]) -> usize
    ensures { (result ≤ length text.new) × (take result text.new ≡ report_of input.now) }
{
    let [set, bytes @ ..] = input else {
        return refusal_into(text);
    };
    if is_set(*set) {
        return figures_into(*set, bytes, text);
    }
    refusal_into(text)
}

// What is printed: the header and the line of figures, or the refusal where there is none.
#[derive(Clone, Copy)]
pub struct Printed(pub Option<Line>);

impl fmt::Display for Printed {
    ghost output = { λ printed. Some (report_text printed.0) };

    fn fmt<W: fmt::Write>(&self, f: &mut fmt::Formatter<W>) -> fmt::Result {
        match &self.0 {
            Some(line) => write!(f, "set cases least wrong rest\n{line}"),
            None => writeln!(f, "refused 1"),
        }
    }
}
