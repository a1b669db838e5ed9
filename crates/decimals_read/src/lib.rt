// Decimal words read: numbers up to a bound, and lists of signed numbers of eight bits.
#![tactic(auto)]

ghost use Rattle.std.specs.Prelude.{◌≡◌, ◌+◌, ◌*◌, ◌≤◌, true, leb, length, IfOk};
ghost use Rattle.decimals.specs.Decimals.{is_decimal, read_as, number_read};
ghost use Rattle.decimals.specs.Signed.{piece_read, list_read, read_to};

use decimals::Fault;

// A number with one digit more, too large above `most`.
fn append(number: usize, digit: u8, most: usize) -> Result<usize, Fault>
    ensures { result ≡ read_as true (leb (number * 10 + digit) most) (number * 10 + digit) }
{
    number
        .checked_mul(10)
        .and_then(|tens| tens.checked_add(digit as usize))
        .filter(|longer| *longer <= most)
        .ok_or(Fault::TooLarge)
}

// Whether a word is one digit or more.
#[tactic(auto, unfolding(decimals::specs::Decimals::is_decimal))]
fn is_decimal(word: &[u8]) -> bool
    ensures { result ≡ is_decimal word.now }
{
    !word.is_empty() && word.iter().all(|b| b.is_ascii_digit())
}

// A word as a number up to `most`.
#[tactic(auto, using(decimals::specs::Laws::Decimals::digit_least))]
pub fn decimal_of(word: &[u8], most: usize) -> Result<usize, Fault>
    ensures number { result ≡ number_read most word.now }
    ensures within { IfOk result (λ v. v ≤ most) }
{
    if !is_decimal(word) {
        return Err(Fault::BadDigit);
    }
    let mut number = 0;
    for b in word {
        number = append(number, *b - b'0', most)?;
    }
    Ok(number)
}

// What stands between two commas as a number.
fn piece_of(piece: &[u8]) -> Result<i8, Fault>
    ensures { result ≡ piece_read piece.now }
{
    match piece {
        [b'-', digits @ ..] => {
            let magnitude = decimal_of(digits, 128)?;
            Ok(-(magnitude as i16) as i8)
        }
        _ => {
            let number = decimal_of(piece, 127)?;
            Ok(number as i8)
        }
    }
}

// Reads a word as signed numbers, which go to the front of a list, and says how many they are. A number takes a byte and a comma, or is the
// last one, so that a list with half as many places is long enough.
pub fn signed_of(word: &[u8], list: &mut [i8]) -> Result<usize, Fault>
    requires { length word.now ≤ 2 * length list.old }
    ensures numbers { read_to list.new result ≡ list_read word.now }
    ensures within { IfOk result (λ n. n ≤ length list.new) }
{
    if word == b"-".as_slice() {
        return Ok(0);
    }
    let mut read = Ok(0);
    for piece in word.split(|b| *b == b',') {
        match piece_of(piece) {
            Ok(number) => {
                if let Ok(count) = read {
                    list[count] = number;
                    read = Ok(count + 1);
                }
            }
            Err(Fault::BadDigit) => return Err(Fault::BadDigit),
            Err(Fault::TooLarge) => read = Err(Fault::TooLarge),
        }
    }
    read
}
