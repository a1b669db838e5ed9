// Weights: what a coefficient of a secret is, from a number of bits in two pieces; and signed numbers modulo 8192 and 65536.
#![tactic(auto)]

ghost use Rattle.std.specs.Prelude.{map, ◌≡◌, ◌≤◌, length};
ghost use Rattle.algebra.specs.Integers.{modℤ};
ghost use Rattle.algebra.specs.Ring.{residues};
ghost use Rattle.binomial.specs.Binomial.{weighed};

use ring::reduce;
use table::WEIGHTS;

mod table;

// Weighs bytes by the table. It is bound once: read inside the loop it would be laid on the stack in each turn.
pub fn weigh_bytes(bytes: &[u8], output: &mut [i8])
    requires { length output.old ≡ length bytes.now }
    ensures { output.new ≡ map (weighed 4) bytes.now }
{
    let table = WEIGHTS;
    for i in 0..output.len() {
        output[i] = table[bytes[i] as usize];
    }
}

// The ones of the low piece of a number, the first one, less those of the piece above it.
fn weigh(half: u32, x: u16) -> i8
    requires { half ≤ 8 }
    ensures { result ≡ weighed half x }
{
    let low = (x % (1u16 << half)).count_ones();
    let high = (x >> half).count_ones();
    (low as i8) - (high as i8)
}

// Weighs numbers of two pieces of `half` bits by counting.
pub fn weigh_numbers(half: u32, numbers: &[u16], output: &mut [i8])
    requires { (half ≤ 8) × (length output.old ≡ length numbers.now) }
    ensures { output.new ≡ map (weighed half) numbers.now }
{
    for i in 0..output.len() {
        output[i] = weigh(half, numbers[i]);
    }
}

// A signed number modulo 65536, with no branch on its sign.
fn word(z: i8) -> u16
    ensures { result ≡ modℤ z 65536 }
{
    ((z as i32 + 65536) as u32 % 65536) as u16
}

// Signed numbers modulo 65536, as they are added.
pub fn words_into(signed: &[i8], output: &mut [u16])
    requires { length output.old ≡ length signed.now }
    ensures { output.new ≡ residues 65536 signed.now }
{
    for i in 0..output.len() {
        output[i] = word(signed[i]);
    }
}

// Signed numbers modulo 8192, as they are packed and multiplied.
#[tactic(auto, using(ring::specs::Laws::Products::reduced))]
pub fn residues_into(signed: &[i8], output: &mut [u16])
    requires { length output.old ≡ length signed.now }
    ensures { output.new ≡ residues 8192 signed.now }
{
    words_into(signed, output);
    reduce(8192, output);
}
