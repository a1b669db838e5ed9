// Reads the record of a sealed entry.
#![tactic(auto)]

ghost use Rattle.std.specs.Prelude.{◌≡◌, ◌^◌, ◌<◌, ◌≤◌, not, ◌&&◌, ltb, IfSome, unwrap_or, take, drop};
ghost use Rattle.std.specs.Bool.{then_some};
ghost use Rattle.lists.specs.Numbers.{number, digit};
ghost use Rattle.record_format.specs.Records.{fields, taken, taken_by, head_length, stands, numbers_in, head_of, is_map, wide_from};
ghost use Rattle.record_format.specs.Promises.{Retrieved};

use questions::{Refusal, ask};
use record_format::Head;
use sets::known_params;

// A bit of a map, 0 or 1.
fn bit(map: u8, k: u32) -> usize
    requires { k < 8 }
    ensures { result ≡ digit 2 map k }
{
    ((map >> k) % 2) as usize
}

// How many bytes come before the ciphertext.
#[tactic(auto, unfolding(record_format::specs::Records::fields, record_format::specs::Records::taken_by))]
fn head_length(map: u8) -> usize
    ensures { result ≡ head_length map }
{
    1 + bit(map, 0) * 2 + bit(map, 4) * 4 + bit(map, 1) * 8 + bit(map, 2)
}

// Whether a byte is a map.
fn is_map(map: u8) -> bool
    ensures { result ≡ is_map map }
{
    let both = (bit(map, 0) == 1) & (bit(map, 4) == 1);
    (map < 32) & !both & (bit(map, 2) == 1) & (bit(map, 3) == 1)
}

// Whether a door that was read in the wide field is a wide one. That follows from its upper half, so that no jump depends on the lower one.
#[tactic(auto, using(record_format::proofs::Laws::Doors::upper_half))]
fn is_wide(map: u8, door: Option<u32>) -> bool
    ensures { result ≡ not (stands map 4 && ltb (unwrap_or door 0) wide_from) }
{
    bit(map, 4) <= door.unwrap_or(0) as usize / 65536
}

// The number in the field with this bit and this size, at the front of what is left of a record, and what comes after it. Where its bit does not
// stand there is none, and where the record ends within it, it is that of the bytes that are there.
fn field(rest: &[u8], map: u8, k: u32, size: usize) -> (Option<u64>, &[u8])
    requires { (k < 8) × (size ≤ 8) }
    ensures number { result.0 ≡ then_some (stands map k) (number 256 (take size rest.now)) }
    ensures few { IfSome result.0 (λ x. x < 256 ^ size) }
    ensures after { result.1.now ≡ drop (taken map (k, size)) rest.now }
{
    if bit(map, k) == 0 {
        return (None, rest);
    }
    let (bytes, after) = rest.split_at(size.min(rest.len()));
    (Some(little_endian::load(bytes)), after)
}

// The numbers of the entry in a record, by its map and what comes after that, and the bytes behind them.
#[tactic(auto, unfolding(record_format::specs::Records::fields, record_format::specs::Records::taken_by, record_format::specs::Records::numbers_in))]
fn head_in(map: u8, rest: &[u8]) -> (Head, &[u8])
    ensures head { result.0 ≡ head_of (numbers_in map fields rest.now) }
    ensures after { result.1.now ≡ drop (taken_by map fields) rest.now }
{
    let (short, rest) = field(rest, map, 0, 2);
    let (wide, rest) = field(rest, map, 4, 4);
    let (time, rest) = field(rest, map, 1, 8);
    let (set, rest) = field(rest, map, 2, 1);
    let door = match short.or(wide) {
        Some(x) => Some(x as u32),
        None => None,
    };
    let head = Head {
        door,
        time,
        set: set.unwrap_or(0) as u32,
    };
    (head, rest)
}

// Reads a record: 10, 11, 1, 11, 12, 9. The ciphertext is copied out.
#[tactic(auto, using(sets::specs::Laws::Sets::few_bytes, record_format::proofs::Laws::Fields::head_few), unfolding(questions::specs::Answers::earliest, record_format::specs::Records::head_in))]
pub fn read_record(record: &[u8], ciphertext: &mut [u8]) -> Result<Head, Refusal>
    ensures { Retrieved «record».now ciphertext.old result ciphertext.new }
{
    let (map, rest) = record.split_first().ok_or(Refusal::RecordMap)?;
    let map = *map;
    ask(is_map(map), Refusal::RecordMap)?;
    let start = head_length(map);
    ask(start <= record.len(), Refusal::RecordLength)?;
    let (head, after) = head_in(map, rest);
    ask(0 < head.set, Refusal::UnknownSet)?;
    let p = known_params(head.set).ok_or(Refusal::UnknownSet)?;
    ask(record.len() == start + p.ct, Refusal::RecordLength)?;
    ask(is_wide(map, head.door), Refusal::RecordDoor)?;
    ask(ciphertext.len() == p.ct, Refusal::OutputLength)?;
    byte_strings::copy_at(after, 0, ciphertext);
    Ok(head)
}
