// Calls in numbers alone, for callers in C and Rust: the lookup as an offset and a length, since no part of a slice can be handed back to them,
// a flag for each number that may be missing, and an answer for each refusal, since they pass no enum.
#![tactic(auto)]

ghost use Rattle.std.specs.Prelude.{◌≡◌};
ghost use Rattle.record_format.specs.Promises.{Recorded};
ghost use Rattle.saber_numbers.specs.Lookup.{key_offset, key_length};
ghost use Rattle.saber_numbers.specs.Numbers.{flagged, flag_of, or_old};
ghost use Rattle.saber_numbers.specs.Promises.{ReadInto};

use keys::lookup_answer;
use questions::answer;

// Where the public key starts in a secret key of `secret_key` bytes, 0 where Q1 or Q5 says no.
pub fn public_key_offset(set: u32, secret_key: usize) -> usize
    ensures { result ≡ key_offset set secret_key }
{
    match lookup_answer(set, secret_key) {
        Ok(p) => 416 * p.l,
        Err(_) => 0,
    }
}

// How many bytes the public key has in it, 0 where Q1 or Q5 says no.
pub fn public_key_length(set: u32, secret_key: usize) -> usize
    ensures { result ≡ key_length set secret_key }
{
    match lookup_answer(set, secret_key) {
        Ok(p) => p.pk,
        Err(_) => 0,
    }
}

// The number that a flag and a number mean.
fn flagged<T: Copy>(flag: u8, number: T) -> Option<T>
    ensures { result ≡ flagged flag number }
{
    if flag == 0 { None } else { Some(number) }
}

// Hands out a number that may be missing: the flag, and the number where there is one.
fn give<T: Copy>(given: Option<T>, flag: &mut u8, number: &mut T)
    ensures flag { flag.new ≡ flag_of given }
    ensures number { number.new ≡ or_old given number.old }
{
    match given {
        None => {
            *flag = 0;
        }
        Some(x) => {
            *flag = 1;
            *number = x;
        }
    }
}

// Writes the record of an entry: Q1, Q6, Q9. A door or a time whose flag is 0 is missing.
pub fn write_record(
    has_door: u8,
    door: u32,
    has_time: u8,
    time: u64,
    set: u32,
    ciphertext: &[u8],
    record: &mut [u8],
) -> u8
    ensures { Recorded (flagged has_door door) (flagged has_time time) set ciphertext.now
        «record».old result «record».new }
{
    let door = flagged(has_door, door);
    let time = flagged(has_time, time);
    answer(record_writer::write_record(door, time, set, ciphertext, record))
}

// Reads a record: 10, 11, 1, 11, 12, 9. The caller lends a variable for each number of the entry; a missing number leaves its variable alone.
pub fn read_record(
    record: &[u8],
    has_door: &mut u8,
    door: &mut u32,
    has_time: &mut u8,
    time: &mut u64,
    set: &mut u32,
    ciphertext: &mut [u8],
) -> u8
    ensures { ReadInto «record».now has_door.old door.old has_time.old
        time.old set.old ciphertext.old result has_door.new door.new
        has_time.new time.new set.new ciphertext.new }
{
    match record_reader::read_record(record, ciphertext) {
        Ok(head) => {
            give(head.door, has_door, door);
            give(head.time, has_time, time);
            *set = head.set;
            0
        }
        Err(refusal) => refusal.into(),
    }
}
