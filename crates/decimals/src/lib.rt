// Decimal words: numbers up to a bound, and lists of signed numbers of eight bits. What is wrong with a word, and where a byte stands in a part
// of a string; definitions and laws are in specs/.
#![tactic(auto)]

ghost use Rattle.std.specs.Prelude.{◌≡◌, ◌+◌, ◌≤◌, length};
ghost use Rattle.decimals.specs.Places.{slice, index_of};

// What is wrong with a word.
#[derive(Clone, Copy, Debug, PartialEq, Eq)]
pub enum Fault {
    BadDigit,
    TooLarge,
}

// The first place of a byte from `at` on and before `end`, or else `end`.
pub fn find(s: &[u8], at: usize, end: usize, b: u8) -> usize
    requires low { at ≤ end }
    requires high { end ≤ length s.now }
    ensures place { result ≡ at + index_of b (slice at end s.now) }
    ensures within { result ≤ end }
{
    let part = &s[at..end];
    for (k, x) in part.iter().enumerate() {
        if *x == b {
            return at + k;
        }
    }
    end
}
