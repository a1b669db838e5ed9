// A line of the margin report, written.
#![tactic(auto)]

ghost use Rattle.std.specs.Prelude.{[], ◌∷◌, ◌++◌, ◌+◌, ◌<◌, ◌≤◌, ◌≡◌, pos, ◌-ℤ◌, length, Some};
ghost use Rattle.decimals.specs.Decimals.{decimal};
ghost use Rattle.decimals.specs.Signed.{number_text};
ghost use Rattle.decimals.specs.Ensures.{Appended};
ghost use Rattle.margin_noise.specs.Ensures.{least_of};
ghost use Rattle.margin_line.specs.Line.{held, least_text, line, line_text};
ghost use Rattle.margin_line.specs.Requires.{LineLengths};

#[cfg(test)]
mod tests;

use decimals_write::{decimal_into, put};
use sets::Params;
use std::fmt;

// Writes a text to a place, and says where the next one goes.
pub fn text_into(part: &[u8], at: usize, text: &mut [u8]) -> usize
    requires { at + length part.now ≤ length text.old }
    ensures { Appended text.old at part.now text.new result }
{
    byte_strings::copy_at(part, at, text);
    at + part.len()
}

// The digits of a number, and a byte behind them.
fn word_into(n: usize, end: u8, at: usize, text: &mut [u8]) -> usize
    requires { at + length (decimal n) + 1 ≤ length text.old }
    ensures { Appended text.old at (decimal n ++ end ∷ []) text.new result }
{
    let next = decimal_into(n, at, text);
    put(end, next, text)
}

// Two numbers with a space between, and a byte behind them.
fn words_into(m: usize, n: usize, end: u8, at: usize, text: &mut [u8]) -> usize
    requires { at + length (decimal m) + length (decimal n) + 2 ≤ length text.old }
    ensures { Appended text.old at ((decimal m ++ 32 ∷ []) ++ (decimal n ++ end ∷ [])) text.new result }
{
    let next = word_into(m, b' ', at, text);
    word_into(n, end, next, text)
}

// a - b with its sign.
fn difference_into(a: usize, b: usize, at: usize, text: &mut [u8]) -> usize
    requires { at + length (number_text (pos a -ℤ pos b)) ≤ length text.old }
    ensures { Appended text.old at (number_text (pos a -ℤ pos b)) text.new result }
{
    if a < b {
        let next = put(b'-', at, text);
        return decimal_into(b - a, next, text);
    }
    decimal_into(a - b, at, text)
}

// The smallest margin of a number of groups, by their largest norm, and `none` of no group.
#[tactic(auto, using(crate::proofs::Smallest::none_long, crate::proofs::Smallest::none_written, crate::proofs::Smallest::some_long, crate::proofs::Smallest::some_written))]
fn least_into(p: Params, cases: usize, norm: usize, at: usize, text: &mut [u8]) -> usize
    requires { at + length (least_text (least_of p cases norm)) ≤ length text.old }
    ensures { Appended text.old at (least_text (least_of p cases norm)) text.new result }
{
    if cases == 0 {
        return text_into(b"none", at, text);
    }
    difference_into(8 * (p.margin as usize), norm, at, text)
}

// The line of the figures.
pub fn line_into(
    set: u8,
    p: Params,
    cases: usize,
    norm: usize,
    wrong: usize,
    rest: usize,
    at: usize,
    text: &mut [u8],
) -> usize
    requires { LineLengths p.margin cases norm wrong rest at (length text.old) }
    ensures { Appended text.old at
        (line (decimal set ∷ decimal cases ∷ least_text (least_of p cases norm) ∷ decimal wrong ∷ decimal rest ∷ [])) text.new result }
{
    let a = words_into(set as usize, cases, b' ', at, text);
    let b = least_into(p, cases, norm, a, text);
    let c = put(b' ', b, text);
    words_into(wrong, rest, b'\n', c, text)
}

// The smallest margin of a number of groups, and none where there is no group.
#[derive(Clone, Copy)]
pub struct Least(pub Option<i32>);

impl Least {
    // The smallest margin of `cases` groups, from their largest norm.
    pub fn of(p: Params, cases: usize, norm: usize) -> Least
        requires { (p.margin ≤ 256) × (norm < 65536) }
        ensures { held result.0 ≡ least_of p cases norm }
    {
        let least = 8 * i32::from(p.margin) - norm as i32;
        Least((0 < cases).then_some(least))
    }
}

impl fmt::Display for Least {
    ghost output = { λ least. Some (least_text (held least.0)) };

    fn fmt<W: fmt::Write>(&self, f: &mut fmt::Formatter<W>) -> fmt::Result {
        match self.0 {
            Some(least) => write!(f, "{least}"),
            None => write!(f, "none"),
        }
    }
}

// The figures of a line.
#[derive(Clone, Copy)]
pub struct Line {
    pub set: u8,
    pub cases: usize,
    pub least: Least,
    pub wrong: usize,
    pub rest: usize,
}

impl fmt::Display for Line {
    ghost output = { λ line. Some (line_text line) };

    fn fmt<W: fmt::Write>(&self, f: &mut fmt::Formatter<W>) -> fmt::Result {
        let Line {
            set,
            cases,
            least,
            wrong,
            rest,
        } = *self;
        writeln!(f, "{set} {cases} {least} {wrong} {rest}")
    }
}
