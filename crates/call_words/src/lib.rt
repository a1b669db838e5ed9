// The words of requests and replies, with one space between: decimal numbers; bytes as hex pairs; signed numbers as decimals with commas
// between; `-` for an empty string or list and for a missing number. What decimals spell is promised in `decimals`, and what hex digits
// spell in the kit's `hex`.
#![tactic(auto)]

ghost use Rattle.std.specs.Prelude.{◌≡◌, ◌≢◌, [], ◌∷◌, ◌<◌, ◌≤◌, ◌*◌, ◌/◌, ◌%◌, Some, length, take, flat_map, cond, true, false, MatchResult, IfOk, IfErr, OnOk, ◌++◌, codes, decimal, Ok, Err, ◌⊎◌, drop};
ghost use Rattle.std.specs.Io.KnownBytes.{Appends};
ghost use Rattle.std.specs.Int.{to_be_bytes, w16};
ghost use Rattle.call_words.specs.Words.{words_of, words_left, first_length};
ghost use Rattle.decimals.specs.Signed.{list_text};
ghost use Rattle.call_words.specs.Replies.{fault_text, optional_text, bytes_text, numbers_text, written, has_word, AddsWord, WritesTo, SameWriter};
ghost use Rattle.call_words.specs.Reads.{wrong_decimal, decimal_word, optional_word, signed_word, wrong_hex, hex_word, first_read};
ghost use Rattle.call_words.specs.declared.Fault.TheVariants.{WrongCount, OutOfMemory};

#[cfg(test)]
mod tests;

use hex::FromHexError;
use std::alloc::{AllocError, AllocFailed};
use std::io::{ErrorKind, Write};
use std::{fmt, io};

// A line has at most 65,536 bytes. These hold what its words spell, and the text that spells as much: two digits a byte, and at most four
// bytes and a comma a signed number.
pub type Bytes = [u8; 32768];

pub type List = [u16; 16384];

pub type Signed = [i8; 32768];

pub type Text = [u8; 163840];

// Why a line is not answered.
#[derive(Clone, Copy, Debug, PartialEq, Eq)]
pub enum Fault {
    TooLong,
    UnknownCall,
    WrongCount,
    BadDigit,
    OddCount,
    TooLarge,
    OutOfMemory,
}

// What is written of a line that is not answered.
fn message(fault: Fault) -> &'static str
    ensures { result.now ≡ codes "error " ++ fault_text fault }
{
    match fault {
        Fault::TooLong => "error too long",
        Fault::UnknownCall => "error unknown call",
        Fault::WrongCount => "error wrong count",
        Fault::BadDigit => "error bad digit",
        Fault::OddCount => "error odd count",
        Fault::TooLarge => "error too large",
        Fault::OutOfMemory => "error out of memory",
    }
}

impl fmt::Display for Fault {
    ghost output = { λ fault. Some (fault_text fault) };

    fn fmt<W: fmt::Write>(&self, f: &mut fmt::Formatter<W>) -> fmt::Result {
        f.write_str(&message(*self)[6..])
    }
}

impl From<decimals::Fault> for Fault {
    ghost from_gives = { λ fault result. result ≡ wrong_decimal fault };

    fn from(fault: decimals::Fault) -> Fault {
        match fault {
            decimals::Fault::BadDigit => Fault::BadDigit,
            decimals::Fault::TooLarge => Fault::TooLarge,
        }
    }
}

impl From<FromHexError> for Fault {
    ghost from_gives = { λ error result. result ≡ wrong_hex error };

    fn from(error: FromHexError) -> Fault {
        match error {
            FromHexError::InvalidHexCharacter { .. } => Fault::BadDigit,
            FromHexError::OddLength | FromHexError::InvalidStringLength => Fault::OddCount,
            FromHexError::OutOfMemory => Fault::OutOfMemory,
        }
    }
}

impl From<AllocError> for Fault {
    ghost from_gives = { λ _ result. result ≡ OutOfMemory };

    fn from(_error: AllocError) -> Fault {
        Fault::OutOfMemory
    }
}

impl<T: Drop> From<AllocFailed<T>> for Fault {
    ghost from_gives = { λ _ result. result ≡ OutOfMemory };

    fn from(_error: AllocFailed<T>) -> Fault {
        Fault::OutOfMemory
    }
}

// The words of a line that are not read yet: those of what is left of it, none past its end.
#[derive(Clone, Copy)]
pub struct Words<'a> {
    rest: Option<&'a [u8]>,
}

impl<'a> Words<'a> {
    pub fn new(line: &'a [u8]) -> Self
        ensures { words_left result ≡ words_of line.now }
    {
        Words { rest: Some(line) }
    }

    // The next word, up to a space or the line's end.
    pub fn word(&mut self) -> Result<&'a [u8], Fault>
        ensures { MatchResult result (λ word. words_left self.old ≡ word.now ∷ words_left self.new)
            (λ fault. (fault ≡ WrongCount) × (words_left self.old ≡ []) × (words_left self.new ≡ [])) }
    {
        let Some(rest) = self.rest else {
            return Err(Fault::WrongCount);
        };
        let end = decimals::find(rest, 0, rest.len(), b' ');
        let (word, after) = rest.split_at(end);
        self.rest = match after {
            [] => None,
            [_, rest @ ..] => Some(rest),
        };
        Ok(word)
    }

    // The next word as a number.
    pub fn number(&mut self) -> Result<usize, Fault>
        ensures number { result ≡ first_read decimal_word (words_left self.old) }
        ensures left { words_left self.new ≡ drop 1 (words_left self.old) }
    {
        Ok(decimals_read::decimal_of(self.word()?, usize::MAX)?)
    }

    // The next word as a number that may be missing.
    pub fn optional(&mut self) -> Result<Option<usize>, Fault>
        ensures number { result ≡ first_read optional_word (words_left self.old) }
        ensures left { words_left self.new ≡ drop 1 (words_left self.old) }
    {
        let word = self.word()?;
        if word == b"-".as_slice() {
            return Ok(None);
        }
        Ok(Some(decimals_read::decimal_of(word, usize::MAX)?))
    }

    // Reads the next word as bytes, whose elements have `digits` hex digits each, to the front of a buffer, and says how many bytes they are.
    pub fn bytes(&mut self, digits: usize, buffer: &mut [u8]) -> Result<usize, Fault>
        requires { 0 < digits }
        ensures ok { IfOk result (λ count. first_read (hex_word digits) (words_left self.old) ≡ Ok (take count buffer.new)) }
        ensures err { IfErr result (λ fault. ((fault ≡ OutOfMemory) × (length buffer.new < first_length (words_left self.old) / 2))
            ⊎ (first_read (hex_word digits) (words_left self.old) ≡ Err fault)) }
        ensures within { IfOk result (λ count. (count ≤ length buffer.new) × (2 * count % digits ≡ 0)
            × (count ≤ first_length (words_left self.old) / 2)) }
        ensures left { words_left self.new ≡ drop 1 (words_left self.old) }
    {
        let word = self.word()?;
        if word == b"-".as_slice() {
            return Ok(0);
        }
        if word.is_empty() {
            return Err(Fault::BadDigit);
        }
        if word.len() % digits != 0 {
            return Err(Fault::OddCount);
        }
        let count = word.len() / 2;
        if buffer.len() < count {
            return Err(Fault::OutOfMemory);
        }
        hex::decode_to_slice(word, &mut buffer[..count])?;
        Ok(count)
    }

    // Reads the next word as signed numbers to the front of a list, and says how many they are. Each takes a byte and a comma, or is the last
    // one.
    pub fn signed(&mut self, list: &mut [i8]) -> Result<usize, Fault>
        ensures ok { IfOk result (λ count. first_read signed_word (words_left self.old) ≡ Ok (take count list.new)) }
        ensures err { IfErr result (λ fault. ((fault ≡ OutOfMemory) × (length list.new ≤ first_length (words_left self.old) / 2))
            ⊎ (first_read signed_word (words_left self.old) ≡ Err fault)) }
        ensures within { IfOk result (λ count. count ≤ length list.new) }
        ensures left { words_left self.new ≡ drop 1 (words_left self.old) }
    {
        let word = self.word()?;
        if list.len() <= word.len() / 2 {
            return Err(Fault::OutOfMemory);
        }
        Ok(decimals_read::signed_of(word, list)?)
    }

    // Whether no word is left.
    pub fn finish(&self) -> Result<(), Fault>
        ensures { MatchResult result (λ _. words_left self.now ≡ [])
            (λ fault. (fault ≡ WrongCount) × (words_left self.now ≢ [])) }
    {
        match self.rest {
            None => Ok(()),
            Some(_) => Err(Fault::WrongCount),
        }
    }
}

// Writes numbers of 16 bits as bytes, high byte first.
fn pairs_into(list: &[u16], bytes: &mut [u8])
    requires { length bytes.old ≡ 2 * length list.now }
    ensures { bytes.new ≡ flat_map (λ x. to_be_bytes w16 x) list.now }
{
    for i in 0..list.len() {
        let [high, low] = list[i].to_be_bytes();
        bytes[2 * i] = high;
        bytes[2 * i + 1] = low;
    }
}

// An error of a text that is too short for a word.
fn too_short() -> io::Error {
    io::Error::from(ErrorKind::OutOfMemory)
}

// Writes bytes as a word, which is made in the text before.
fn write_bytes<W: Write>(to: &mut W, bytes: &[u8], text: &mut [u8]) -> io::Result<()>
    ensures { OnOk result (Appends (W.contents to.old) (W.contents to.new) (bytes_text bytes.now)) }
{
    if bytes.is_empty() {
        return streams::write_all(to, b"-");
    }
    if text.len() / 2 < bytes.len() {
        return Err(too_short());
    }
    let word = &mut text[..2 * bytes.len()];
    hex::encode_to_slice(bytes, word).map_err(|_| too_short())?;
    streams::write_all(to, word)
}

// Writes numbers of 16 bits as a word, by way of their bytes.
fn write_list<W: Write>(to: &mut W, list: &[u16], text: &mut [u8]) -> io::Result<()>
    ensures { OnOk result (Appends (W.contents to.old) (W.contents to.new) (numbers_text list.now)) }
{
    if text.len() / 2 < list.len() {
        return Err(too_short());
    }
    let (bytes, text) = text.split_at_mut(2 * list.len());
    pairs_into(list, bytes);
    write_bytes(to, bytes, text)
}

// Writes signed numbers as a word.
fn write_signed<W: Write>(to: &mut W, list: &[i8], text: &mut [u8]) -> io::Result<()>
    ensures { OnOk result (Appends (W.contents to.old) (W.contents to.new) (list_text list.now)) }
{
    if text.is_empty() || text.len() / 5 < list.len() {
        return Err(too_short());
    }
    let count = decimals_write::signed_into(list, text);
    streams::write_all(to, &text[..count])
}

// The words of a reply, each written as it comes, behind a space but for the first. A word of bytes or numbers is made in the text before.
#[derive(Drop)]
pub struct Reply<'a, W> {
    to: &'a mut W,
    text: &'a mut [u8],
    is_begun: bool,
}

impl<'a, W: Write> Reply<'a, W> {
    pub fn new(to: &'a mut W, text: &'a mut [u8]) -> Self
        ensures begun { (written W.contents result ≡ W.contents to.old) × (has_word result ≡ false) }
        ensures same_writer { WritesTo result to.entry }
    {
        Reply {
            to,
            text,
            is_begun: false,
        }
    }

    // Writes a text whose first byte is a space, which is left out before the first word.
    fn behind_space(&mut self, text: &[u8]) -> io::Result<()>
        requires { 0 < length text.now }
        ensures word { OnOk result (Appends (written W.contents self.old) (written W.contents self.new)
            (cond (has_word self.old) text.now (drop 1 text.now)) × (has_word self.new ≡ true)) }
        ensures same_writer { SameWriter self.old self.new }
    {
        let text = if self.is_begun { text } else { &text[1..] };
        self.is_begun = true;
        streams::write_all(self.to, text)
    }

    pub fn error(&mut self, fault: Fault) -> io::Result<()>
        ensures word { OnOk result (AddsWord W.contents (codes "error " ++ fault_text fault) self.old self.new) }
        ensures same_writer { SameWriter self.old self.new }
    {
        self.behind_space(b" ")?;
        streams::write_all(self.to, message(fault).as_bytes())
    }

    pub fn number(&mut self, x: u64) -> io::Result<()>
        ensures word { OnOk result (AddsWord W.contents (decimal x) self.old self.new) }
        ensures same_writer { SameWriter self.old self.new }
    {
        self.behind_space(b" ")?;
        streams::print_decimal(self.to, x)
    }

    pub fn optional(&mut self, x: Option<u64>) -> io::Result<()>
        ensures word { OnOk result (AddsWord W.contents (optional_text x) self.old self.new) }
        ensures same_writer { SameWriter self.old self.new }
    {
        match x {
            Some(x) => self.number(x),
            None => self.behind_space(b" -"),
        }
    }

    // Three numbers that are missing, at once.
    pub fn three_missing(&mut self) -> io::Result<()>
        ensures word { OnOk result (AddsWord W.contents (codes "- - -") self.old self.new) }
        ensures same_writer { SameWriter self.old self.new }
    {
        self.behind_space(b" - - -")
    }

    pub fn bytes(&mut self, bytes: &[u8]) -> io::Result<()>
        ensures word { OnOk result (AddsWord W.contents (bytes_text bytes.now) self.old self.new) }
        ensures same_writer { SameWriter self.old self.new }
    {
        self.behind_space(b" ")?;
        write_bytes(self.to, bytes, self.text)
    }

    // Numbers of 16 bits, four digits each.
    pub fn list(&mut self, list: &[u16]) -> io::Result<()>
        ensures word { OnOk result (AddsWord W.contents (numbers_text list.now) self.old self.new) }
        ensures same_writer { SameWriter self.old self.new }
    {
        self.behind_space(b" ")?;
        write_list(self.to, list, self.text)
    }

    // Signed numbers, with commas between.
    pub fn signed(&mut self, list: &[i8]) -> io::Result<()>
        ensures word { OnOk result (AddsWord W.contents (list_text list.now) self.old self.new) }
        ensures same_writer { SameWriter self.old self.new }
    {
        self.behind_space(b" ")?;
        write_signed(self.to, list, self.text)
    }

    // The whole reply to a line that is too long, at once.
    pub fn too_long(self) -> io::Result<()>
        ensures { OnOk result (Appends (written W.contents self.entry) (W.contents self.exit.0.now) (codes "error too long\n")) }
    {
        let Reply {
            to,
            text: _,
            is_begun: _,
        } = self;
        streams::write_all(to, b"error too long\n")
    }

    // The end of the line.
    pub fn finish(self) -> io::Result<()>
        ensures { OnOk result (Appends (written W.contents self.entry) (W.contents self.exit.0.now) (codes "\n")) }
    {
        let Reply {
            to,
            text: _,
            is_begun: _,
        } = self;
        streams::write_all(to, b"\n")
    }
}
