// Writes the record of a sealed entry.
#![tactic(auto)]

ghost use Rattle.std.specs.Prelude.{[], ◌∷◌, ◌++◌, ◌≡◌, ◌≤◌, length};
ghost use Rattle.lists.specs.Numbers.{digits};
ghost use Rattle.questions.specs.Refusals.{answer_of};
ghost use Rattle.record_format.specs.Records.{short_door, wide_door};
ghost use Rattle.record_format.specs.Promises.{Recorded};
ghost use Rattle.record_writer.specs.Requires.{WriteLengths};
ghost use Rattle.record_writer.specs.Ensures.{Lays};

use questions::{Refusal, ask};
use sets::known_params;

// A number as it is written: its bit of the map, its bytes and itself.
#[derive(Clone, Copy)]
struct Part {
    bit: u8,
    size: usize,
    number: u64,
}

// How a number is written in the field with this bit and this size. A missing one has no bit and no bytes.
fn number_part(number: Option<u64>, bit: u32, size: usize) -> Part
    requires { (bit ≤ 4) × (size ≤ 8) }
    ensures { Lays ((bit, size) ∷ []) (number ∷ []) result }
{
    match number {
        Some(number) => Part {
            bit: 1 << bit,
            size,
            number,
        },
        None => Part {
            bit: 0,
            size: 0,
            number: 0,
        },
    }
}

// How a door is written, short up to 65535 and wide above: `wide` is 0 or 1 and follows from the upper half, so that no jump depends on the
// lower one.
fn door_part(door: Option<u32>) -> Part
    ensures { Lays ((0, 2) ∷ (4, 4) ∷ []) (short_door door ∷ wide_door door ∷ []) result }
{
    let wide = (door.unwrap_or(0) / 65536 + 65535) / 65536;
    number_part(door.map(u64::from), 4 * wide, (2 + 2 * wide) as usize)
}

// Writes the map, the numbers and the ciphertext, one behind the other.
fn write_into(map: u8, door: Part, time: Part, set: u32, ciphertext: &[u8], record: &mut [u8])
    requires { WriteLengths door.size time.size (length ciphertext.now) (length «record».old) }
    ensures { «record».new ≡ digits 256 1 map ++ (digits 256 door.size door.number
        ++ (digits 256 time.size time.number ++ (digits 256 1 set ++ ciphertext.now))) }
{
    let t = 1 + door.size;
    let s = t + time.size;
    little_endian::store_at(map as u64, 0, 1, record);
    little_endian::store_at(door.number, 1, door.size, record);
    little_endian::store_at(time.number, t, time.size, record);
    little_endian::store_at(set as u64, s, 1, record);
    byte_strings::copy_at(ciphertext, s + 1, record);
}

// Writes the record of an entry: Q1, Q6, Q9. The map and the set have a byte each.
#[tactic(auto, using(crate::specs::Laws::Calls::head_is, crate::specs::Laws::Calls::record_is), unfolding(questions::specs::Answers::earliest))]
pub fn write_record(
    door: Option<u32>,
    time: Option<u64>,
    set: u32,
    ciphertext: &[u8],
    record: &mut [u8],
) -> Result<(), Refusal>
    ensures { Recorded door time set ciphertext.now «record».old (answer_of result) «record».new }
{
    let d = door_part(door);
    let t = number_part(time, 1, 8);
    let map = d.bit + t.bit + 12;
    let head = 2 + d.size + t.size;
    let p = known_params(set).ok_or(Refusal::UnknownSet)?;
    ask(ciphertext.len() == p.ct, Refusal::CiphertextLength)?;
    ask(record.len() == head + p.ct, Refusal::OutputLength)?;
    write_into(map, d, t, p.number, ciphertext, record);
    Ok(())
}
