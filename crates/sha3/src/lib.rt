// The three hashes of FIPS 202 that Saber uses. The domain byte holds the domain's bits and the padding's first 1: 0x1f of SHAKE, 0x06 of SHA-3.
#![tactic(auto)]

ghost use Rattle.std.specs.Prelude.{◌≡◌, ◌-◌, ◌*◌, ◌<◌, length};
ghost use Rattle.questions.specs.Refusals.{answer_of};
ghost use Rattle.sponge.specs.Sponge.{sponge};
ghost use Rattle.sha3.specs.Hashes.{shake128, sha3_256, sha3_512};
ghost use Rattle.sha3.specs.Promises.{Hashed};

use questions::{Refusal, ask};
use sponge::sponge;

// Fills an output of any length.
pub fn shake128(input: &[u8], output: &mut [u8])
    ensures { output.new ≡ shake128 input.now (length output.old) }
{
    sponge(input, 168, 0x1f, output);
}

// A SHA-3 hash of n bytes: its rate is what 2 n bytes leave of the state's 200.
fn hash<const N: usize>(input: &[u8]) -> [u8; N]
    requires { (0 < N) × (N < 100) }
    ensures { result ≡ sponge (200 - 2 * N) 0x06 input.now N }
{
    let mut digest = [0u8; N];
    sponge(input, 200 - 2 * N, 0x06, &mut digest);
    digest
}

pub fn hash256(input: &[u8]) -> [u8; 32]
    ensures { result ≡ sha3_256 input.now }
{
    hash(input)
}

pub fn hash512(input: &[u8]) -> [u8; 64]
    ensures { result ≡ sha3_512 input.now }
{
    hash(input)
}

// A SHA-3 hash of n bytes into an output of as many: Q9.
#[tactic(auto, unfolding(questions::specs::Answers::earliest))]
fn sha3<const N: usize>(input: &[u8], digest: &mut [u8]) -> Result<(), Refusal>
    requires { (0 < N) × (N < 100) }
    ensures { Hashed N (sponge (200 - 2 * N) 0x06 input.now N) digest.old (answer_of result) digest.new }
{
    ask(digest.len() == N, Refusal::OutputLength)?;
    digest.copy_from_slice(&hash::<N>(input));
    Ok(())
}

pub fn sha3_256(input: &[u8], digest: &mut [u8]) -> Result<(), Refusal>
    ensures { Hashed 32 (sha3_256 input.now) digest.old (answer_of result) digest.new }
{
    sha3::<32>(input, digest)
}

pub fn sha3_512(input: &[u8], digest: &mut [u8]) -> Result<(), Refusal>
    ensures { Hashed 64 (sha3_512 input.now) digest.old (answer_of result) digest.new }
{
    sha3::<64>(input, digest)
}
