// The arguments of a request, read in the order in which they stand in its line.
#![tactic(auto)]

ghost use Rattle.std.specs.Prelude.{◌≡◌, ◌≢◌, ◌+◌, ◌-◌, ◌*◌, ◌/◌, ◌<◌, ◌≤◌, [], drop, take, flat_map, length, min, MatchResult, IfOk, IfErr, OnErr, Ok, Err, ◌⊎◌};
ghost use Rattle.std.specs.Int.{to_be_bytes, w16};
ghost use Rattle.call_words.specs.Words.{words_left, first_length};
ghost use Rattle.call_words.specs.Reads.{first_read, optional_word, hex_word, signed_word};
ghost use Rattle.call_words.specs.declared.Fault.TheVariants.{WrongCount, OutOfMemory};
ghost use Rattle.call_arguments.specs.Arguments.{narrowed, number_word, door_word, arguments_left, HasRead, SamePlace, KeepsArguments};

#[cfg(test)]
mod tests;

use call_words::{Bytes, Fault, List, Signed, Words};

// What the arguments of a request spell: bytes, numbers of 16 bits and signed numbers, those of an argument behind those of the one before.
#[derive(Drop)]
pub struct Buffers {
    pub bytes: Bytes,
    pub numbers: List,
    pub signed: Signed,
}

// The arguments of a line that are not read yet, and how many elements of each buffer those that are read take.
#[derive(Clone, Copy)]
pub struct Arguments<'a> {
    words: Words<'a>,
    bytes_read: usize,
    numbers_read: usize,
    signed_read: usize,
}

// A number of 32 bits.
fn narrow(x: usize) -> Result<u32, Fault>
    ensures { result ≡ narrowed x }
{
    u32::try_from(x).map_err(|_| Fault::TooLarge)
}

// Numbers from their bytes, high byte first.
fn numbers_into(bytes: &[u8], numbers: &mut [u16])
    requires { length bytes.now ≡ 2 * length numbers.old }
    ensures { flat_map (λ x. to_be_bytes w16 x) numbers.new ≡ bytes.now }
{
    for i in 0..numbers.len() {
        numbers[i] = u16::from_be_bytes([bytes[2 * i], bytes[2 * i + 1]]);
    }
}

// Reads the next word as numbers of 16 bits, by way of bytes, to the front of a list, and says how many they are.
fn read_list(words: &mut Words<'_>, bytes: &mut [u8], numbers: &mut [u16]) -> Result<usize, Fault>
    ensures ok { IfOk result (λ count. first_read (hex_word 4) (words_left words.old)
        ≡ Ok (flat_map (λ x. to_be_bytes w16 x) (take count numbers.new))) }
    ensures err { IfErr result (λ fault. ((fault ≡ OutOfMemory)
        × ((length bytes.new < first_length (words_left words.old) / 2) ⊎ (length numbers.new < first_length (words_left words.old) / 4)))
        ⊎ (first_read (hex_word 4) (words_left words.old) ≡ Err fault)) }
    ensures within { IfOk result (λ count. count ≤ length numbers.new) }
    ensures left { words_left words.new ≡ drop 1 (words_left words.old) }
{
    let length = words.bytes(4, bytes)?;
    let count = length / 2;
    if numbers.len() < count {
        return Err(Fault::OutOfMemory);
    }
    numbers_into(&bytes[..length], &mut numbers[..count]);
    Ok(count)
}

impl<'a> Arguments<'a> {
    pub fn new(words: Words<'a>) -> Self
        ensures left { arguments_left result ≡ words_left words.entry }
        ensures place { HasRead 0 0 0 result }
    {
        Arguments {
            words,
            bytes_read: 0,
            numbers_read: 0,
            signed_read: 0,
        }
    }

    // The words that are not read yet. With a buffer of its own a caller reads from them what `Buffers` has no room for.
    pub fn words(&self) -> Words<'a>
        ensures { words_left result ≡ arguments_left self.now }
    {
        let Arguments { words, .. } = *self;
        words
    }

    // A set, a width or a modulus.
    pub fn number(&mut self) -> Result<u32, Fault>
        ensures number { result ≡ first_read number_word (arguments_left self.old) }
        ensures left { arguments_left self.new ≡ drop 1 (arguments_left self.old) }
        ensures place { SamePlace self.old self.new }
    {
        narrow(self.words.number()?)
    }

    pub fn door(&mut self) -> Result<Option<u32>, Fault>
        ensures number { result ≡ first_read door_word (arguments_left self.old) }
        ensures left { arguments_left self.new ≡ drop 1 (arguments_left self.old) }
        ensures place { SamePlace self.old self.new }
    {
        match self.words.optional()? {
            Some(x) => Ok(Some(narrow(x)?)),
            None => Ok(None),
        }
    }

    pub fn time(&mut self) -> Result<Option<u64>, Fault>
        ensures number { result ≡ first_read optional_word (arguments_left self.old) }
        ensures left { arguments_left self.new ≡ drop 1 (arguments_left self.old) }
        ensures place { SamePlace self.old self.new }
    {
        match self.words.optional()? {
            Some(x) => Ok(Some(x as u64)),
            None => Ok(None),
        }
    }

    // Reads bytes, and says how many they are.
    #[inline(never)]
    pub fn bytes(&mut self, buffers: &mut Buffers) -> Result<usize, Fault>
        ensures ok { IfOk result (λ count. first_read (hex_word 2) (arguments_left self.old) ≡ Ok (take count (drop self.old.bytes_read buffers.new.bytes))) }
        ensures err { IfErr result (λ fault. ((fault ≡ OutOfMemory) × (32768 < self.old.bytes_read + first_length (arguments_left self.old) / 2))
            ⊎ (first_read (hex_word 2) (arguments_left self.old) ≡ Err fault)) }
        ensures left { arguments_left self.new ≡ drop 1 (arguments_left self.old) }
        ensures place { IfOk result (λ count. HasRead (min self.old.bytes_read 32768 + count) self.old.numbers_read self.old.signed_read self.new) }
        ensures within { IfOk result (λ count. count ≤ 32768 - self.old.bytes_read) }
        ensures stays { OnErr result (SamePlace self.old self.new) }
        ensures before { KeepsArguments self.old buffers.old buffers.new }
    {
        let bytes = &mut buffers.bytes;
        let at = self.bytes_read.min(bytes.len());
        let count = self.words.bytes(2, &mut bytes[at..])?;
        self.bytes_read = at + count;
        Ok(count)
    }

    // Reads numbers of 16 bits, high byte first, by way of bytes that no argument takes.
    #[inline(never)]
    pub fn list(&mut self, buffers: &mut Buffers) -> Result<usize, Fault>
        ensures ok { IfOk result (λ count. first_read (hex_word 4) (arguments_left self.old)
            ≡ Ok (flat_map (λ x. to_be_bytes w16 x) (take count (drop self.old.numbers_read buffers.new.numbers)))) }
        ensures err { IfErr result (λ fault. ((fault ≡ OutOfMemory)
            × ((32768 < self.old.bytes_read + first_length (arguments_left self.old) / 2)
            ⊎ (16384 < self.old.numbers_read + first_length (arguments_left self.old) / 4)))
            ⊎ (first_read (hex_word 4) (arguments_left self.old) ≡ Err fault)) }
        ensures left { arguments_left self.new ≡ drop 1 (arguments_left self.old) }
        ensures place { IfOk result (λ count. HasRead self.old.bytes_read (min self.old.numbers_read 16384 + count) self.old.signed_read self.new) }
        ensures within { IfOk result (λ count. count ≤ 16384 - self.old.numbers_read) }
        ensures stays { OnErr result (SamePlace self.old self.new) }
        ensures before { KeepsArguments self.old buffers.old buffers.new }
    {
        let bytes = &mut buffers.bytes;
        let from = self.bytes_read.min(bytes.len());
        let numbers = &mut buffers.numbers;
        let at = self.numbers_read.min(numbers.len());
        let count = read_list(&mut self.words, &mut bytes[from..], &mut numbers[at..])?;
        self.numbers_read = at + count;
        Ok(count)
    }

    // Reads signed numbers, and says how many they are.
    pub fn signed(&mut self, buffers: &mut Buffers) -> Result<usize, Fault>
        ensures ok { IfOk result (λ count. first_read signed_word (arguments_left self.old) ≡ Ok (take count (drop self.old.signed_read buffers.new.signed))) }
        ensures err { IfErr result (λ fault. ((fault ≡ OutOfMemory) × (32768 ≤ self.old.signed_read + first_length (arguments_left self.old) / 2))
            ⊎ (first_read signed_word (arguments_left self.old) ≡ Err fault)) }
        ensures left { arguments_left self.new ≡ drop 1 (arguments_left self.old) }
        ensures place { IfOk result (λ count. HasRead self.old.bytes_read self.old.numbers_read (min self.old.signed_read 32768 + count) self.new) }
        ensures within { IfOk result (λ count. count ≤ 32768 - self.old.signed_read) }
        ensures stays { OnErr result (SamePlace self.old self.new) }
        ensures before { KeepsArguments self.old buffers.old buffers.new }
    {
        let signed = &mut buffers.signed;
        let at = self.signed_read.min(signed.len());
        let count = self.words.signed(&mut signed[at..])?;
        self.signed_read = at + count;
        Ok(count)
    }

    // Whether every argument is read.
    pub fn finish(&self) -> Result<(), Fault>
        ensures { MatchResult result (λ _. arguments_left self.now ≡ [])
            (λ fault. (fault ≡ WrongCount) × (arguments_left self.now ≢ [])) }
    {
        self.words.finish()
    }
}
