// Strings of bytes read and written as numbers, lowest byte first.
#![tactic(auto)]

ghost use Rattle.std.specs.Prelude.{◌≡◌, ◌+◌, ◌^◌, ◌<◌, ◌≤◌, length, take, drop};
ghost use Rattle.lists.specs.Numbers.{number, digits};
ghost use Rattle.lists.specs.Strings.{placed};

// The number of up to eight bytes.
pub fn load(bytes: &[u8]) -> u64
    requires { length bytes.now ≤ 8 }
    ensures { (result ≡ number 256 bytes.now) × (result < 256 ^ length bytes.now) }
{
    let mut all = [0u8; 8];
    for i in 0..bytes.len() {
        all[i] = bytes[i];
    }
    u64::from_le_bytes(all)
}

// The number of four bytes from a place on.
pub fn load32(bytes: &[u8], at: usize) -> u64
    requires { at + 4 ≤ length bytes.now }
    ensures { (result ≡ number 256 (take 4 (drop at bytes.now))) × (result < 2 ^ 32) }
{
    u32::from_le_bytes([bytes[at], bytes[at + 1], bytes[at + 2], bytes[at + 3]]) as u64
}

// The number of eight bytes from a place on.
pub fn load64(bytes: &[u8], at: usize) -> u64
    requires { at + 8 ≤ length bytes.now }
    ensures { result ≡ number 256 (take 8 (drop at bytes.now)) }
{
    load(&bytes[at..at + 8])
}

// Fills up to eight bytes with the lowest bytes of a number.
pub fn store(x: u64, bytes: &mut [u8])
    requires { length bytes.old ≤ 8 }
    ensures { bytes.new ≡ digits 256 (length bytes.old) x }
{
    let all = x.to_le_bytes();
    for k in 0..bytes.len() {
        bytes[k] = all[k];
    }
}

// Writes the n lowest bytes of a number to a place, up to eight.
#[tactic(auto, using(lists::proofs::Laws::Numbers::length_digits), unfolding(lists::specs::Strings::placed))]
pub fn store_at(x: u64, at: usize, n: usize, bytes: &mut [u8])
    requires { (at + n ≤ length bytes.old) × (n ≤ 8) }
    ensures { bytes.new ≡ placed at (digits 256 n x) bytes.old }
{
    store(x, &mut bytes[at..at + n]);
}

// Writes the four lowest bytes of a number to a place.
pub fn store32(x: u64, at: usize, bytes: &mut [u8])
    requires { at + 4 ≤ length bytes.old }
    ensures { bytes.new ≡ placed at (digits 256 4 x) bytes.old }
{
    store_at(x, at, 4, bytes);
}
