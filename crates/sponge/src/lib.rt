// The sponge of FIPS 202 on bytes, at any rate.
#![tactic(auto)]

ghost use Rattle.std.specs.Prelude.{◌≡◌, ◌++◌, ◌<◌, ◌≤◌, ◌-◌, length, replicate};
ghost use Rattle.lists.specs.Lists.{from};
ghost use Rattle.keccak.specs.Keccak.{five, state, keccak_f};
ghost use Rattle.sponge.specs.Sponge.{mix_at, byte_at, padding, absorb, squeezed, sponge};

// The lane [x, y] of `mix`.
fn mix_at(a: [[u64; 5]; 5], block: &[u8; 200], x: usize, y: usize) -> u64
    requires { (x < 5) × (y < 5) }
    ensures { result ≡ mix_at a block.now x y }
{
    a[x][y] ^ little_endian::load64(block, 8 * (x + 5 * y))
}

fn mix_sheet(a: [[u64; 5]; 5], block: &[u8; 200], x: usize) -> [u64; 5]
    requires { x < 5 }
    ensures { result ≡ five (mix_at a block.now x) }
{
    [
        mix_at(a, block, x, 0),
        mix_at(a, block, x, 1),
        mix_at(a, block, x, 2),
        mix_at(a, block, x, 3),
        mix_at(a, block, x, 4),
    ]
}

// A block xored into a state.
fn mix(a: [[u64; 5]; 5], block: &[u8; 200]) -> [[u64; 5]; 5]
    ensures { result ≡ state (mix_at a block.now) }
{
    [
        mix_sheet(a, block, 0),
        mix_sheet(a, block, 1),
        mix_sheet(a, block, 2),
        mix_sheet(a, block, 3),
        mix_sheet(a, block, 4),
    ]
}

// The bytes of s, followed by zeros.
fn block_of(s: &[u8]) -> [u8; 200]
    requires { length s.now ≤ 200 }
    ensures { result ≡ s.now ++ replicate (200 - length s.now) 0 }
{
    let mut block = [0u8; 200];
    byte_strings::copy_at(s, 0, &mut block);
    block
}

// The last block of a message that ends with the bytes of s.
fn last_block(s: &[u8], rate: usize, domain: u8) -> [u8; 200]
    requires { (length s.now < rate) × (rate < 200) × (domain < 128) }
    ensures { result ≡ s.now ++ (padding (rate - length s.now) domain ++ replicate (200 - rate) 0) }
{
    let n = s.len();
    let mut block = block_of(s);
    if n + 1 == rate {
        block[n] = domain + 128;
    } else {
        block[n] = domain;
        block[rate - 1] = 128;
    }
    block
}

// The state that holds the whole message, but for the permutation that ends absorbing: an output of no bytes needs none.
fn absorb(message: &[u8], rate: usize, domain: u8) -> [[u64; 5]; 5]
    requires { (0 < rate) × (rate < 200) × (domain < 128) }
    ensures { keccak_f result ≡ absorb rate domain message.now }
{
    let mut a = [[0u64; 5]; 5];
    let mut rest = message;
    while rest.len() >= rate {
        let (block, behind) = rest.split_at(rate);
        a = keccak::permute(mix(a, &block_of(block)));
        rest = behind;
    }
    mix(a, &last_block(rest, rate, domain))
}

// The first bytes of a state: whole lanes, and what is left of one.
fn state_into(a: [[u64; 5]; 5], output: &mut [u8])
    requires { length output.old < 200 }
    ensures { output.new ≡ from (length output.old) (byte_at a) }
{
    let lanes = output.len() / 8;
    for k in 0..lanes {
        little_endian::store(a[k % 5][k / 5], &mut output[8 * k..8 * k + 8]);
    }
    little_endian::store(a[lanes % 5][lanes / 5], &mut output[8 * lanes..]);
}

// The output, from a state as `absorb` leaves it.
fn squeeze(start: [[u64; 5]; 5], rate: usize, output: &mut [u8])
    requires { (0 < rate) × (rate < 200) }
    ensures { output.new ≡ from (length output.old) (squeezed rate (keccak_f start)) }
{
    let mut a = start;
    let mut at = 0;
    while at < output.len() {
        let next = keccak::permute(a);
        a = next;
        let end = at + rate.min(output.len() - at);
        state_into(a, &mut output[at..end]);
        at = end;
    }
}

// The output for a message.
pub fn sponge(message: &[u8], rate: usize, domain: u8, output: &mut [u8])
    requires { (0 < rate) × (rate < 200) × (domain < 128) }
    ensures { output.new ≡ sponge rate domain message.now (length output.old) }
{
    squeeze(absorb(message, rate, domain), rate, output);
}
