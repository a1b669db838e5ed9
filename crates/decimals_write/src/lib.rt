// Decimal words written: numbers, and lists of signed numbers of eight bits.
#![tactic(auto)]

ghost use Rattle.std.specs.Prelude.{◌≡◌, [], ◌∷◌, ◌+◌, ◌*◌, ◌≤◌, ◌<◌, length, take};
ghost use Rattle.decimals.specs.Decimals.{decimal};
ghost use Rattle.decimals.specs.Signed.{number_text, list_text};
ghost use Rattle.decimals.specs.Ensures.{Appended};

// Writes a byte, and says where the next one goes.
pub fn put(b: u8, at: usize, text: &mut [u8]) -> usize
    requires { at < length text.old }
    ensures { Appended text.old at (b ∷ []) text.new result }
{
    text[at] = b;
    at + 1
}

// The digits of a number: those of a tenth of it, and its last one.
#[tactic(auto, using(crate::proofs::Digit::one_long, crate::proofs::Digit::one_written))]
pub fn decimal_into(n: usize, at: usize, text: &mut [u8]) -> usize
    requires { at + length (decimal n) ≤ length text.old }
    ensures { Appended text.old at (decimal n) text.new result }
{
    if n < 10 {
        return put(b'0' + n as u8, at, text);
    }
    let last = decimal_into(n / 10, at, text);
    put(b'0' + (n % 10) as u8, last, text)
}

// The text of a number.
fn number_into(z: i8, at: usize, text: &mut [u8]) -> usize
    requires { at + 4 ≤ length text.old }
    ensures { Appended text.old at (number_text z) text.new result }
{
    let n = z.unsigned_abs() as usize;
    if z < 0 {
        let next = put(b'-', at, text);
        return decimal_into(n, next, text);
    }
    decimal_into(n, at, text)
}

// Writes signed numbers as a word, and says how long it is.
pub fn signed_into(list: &[i8], text: &mut [u8]) -> usize
    requires { (0 < length text.old) × (5 * length list.now ≤ length text.old) }
    ensures { (result ≤ length text.new) × (take result text.new ≡ list_text list.now) }
{
    if list.is_empty() {
        return put(b'-', 0, text);
    }
    let mut at = number_into(list[0], 0, text);
    for i in 1..list.len() {
        let next = put(b',', at, text);
        at = number_into(list[i], next, text);
    }
    at
}
