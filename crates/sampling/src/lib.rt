// Sampling: the matrix and the secret from their seeds.
#![tactic(auto)]

ghost use Rattle.std.specs.Prelude.{◌≡◌, ◌*◌, length};
ghost use Rattle.questions.specs.Refusals.{answer_of};
ghost use Rattle.algebra.specs.Ring.{residues};
ghost use Rattle.packing.specs.Packing.{unpacked};
ghost use Rattle.sampling.specs.Sampling.{matrix, secret_of, secret};
ghost use Rattle.sampling.specs.Promises.{GenMatrix, GenSecret};
ghost use Rattle.sampling.specs.Requires.{MatrixLengths, SampleLengths, SecretLengths};

use questions::{Refusal, ask};
use sets::known_params;

// The bytes of the largest packed matrix, of four rows and columns.
pub const MATRIX_BYTES: usize = 416 * 4 * 4;

// The matrix of l rows of l polynomials, packed in 13 bits a coefficient, as SHAKE-128 gives it.
#[tactic(auto, using(crate::specs::Laws::Sampling::matrix_cut))]
pub fn packed_matrix_into(l: usize, seed: &[u8], bytes: &mut [u8])
    requires { length bytes.old ≡ 416 * l * l }
    ensures { unpacked 13 bytes.new ≡ matrix l seed.now }
{
    sha3::shake128(seed, bytes);
}

// The same as one flat list.
fn matrix_into(l: usize, seed: &[u8], output: &mut [u16])
    requires { MatrixLengths l (length output.old) }
    ensures { output.new ≡ matrix l seed.now }
{
    let mut bytes = [0u8; MATRIX_BYTES];
    let bytes = &mut bytes[..416 * l * l];
    packed_matrix_into(l, seed, bytes);
    packing::unpack_into(13, bytes, output);
}

// The coefficients that bytes give: a number of mu bits has the two pieces of one. A number of 8 bits is a byte, which the table weighs.
#[tactic(auto, using(crate::specs::Laws::Halves::secret_bytes, crate::specs::Laws::Halves::secret_weighed))]
fn sample_into(mu: u32, bytes: &[u8], output: &mut [i8])
    requires { SampleLengths mu (length bytes.now) (length output.old) }
    ensures { output.new ≡ secret_of mu bytes.now }
{
    if mu == 8 {
        binomial::weigh_bytes(bytes, output);
        return;
    }
    let mut numbers = [0u16; 1024];
    let numbers = &mut numbers[..output.len()];
    packing::unpack_into(mu, bytes, numbers);
    binomial::weigh_numbers(mu / 2, numbers, output);
}

// The secret of l polynomials, as one flat list of signed numbers.
pub fn secret_into(l: usize, mu: usize, seed: &[u8], output: &mut [i8])
    requires { SecretLengths l mu (length output.old) }
    ensures { output.new ≡ secret l mu seed.now }
{
    let mut bytes = [0u8; 768];
    let bytes = &mut bytes[..32 * l * mu];
    sha3::shake128(seed, bytes);
    sample_into(mu as u32, bytes, output);
}

// The same secret modulo 8192, as it is packed and multiplied.
pub fn secret_residues_into(l: usize, mu: usize, seed: &[u8], output: &mut [u16])
    requires { SecretLengths l mu (length output.old) }
    ensures { output.new ≡ residues 8192 (secret l mu seed.now) }
{
    let mut signed = [0i8; 1024];
    let signed = &mut signed[..256 * l];
    secret_into(l, mu, seed, signed);
    binomial::residues_into(signed, output);
}

// The matrix from its seed: Q1, Q3, Q9.
#[tactic(auto, using(sets::specs::Laws::Sets::few_polynomials), unfolding(questions::specs::Answers::earliest))]
pub fn gen_matrix(set: u32, seed: &[u8], matrix: &mut [u16]) -> Result<(), Refusal>
    ensures { GenMatrix set seed.now matrix.old (answer_of result) matrix.new }
{
    let p = known_params(set).ok_or(Refusal::UnknownSet)?;
    ask(seed.len() == 32, Refusal::SeedLength)?;
    ask(matrix.len() == 256 * p.l * p.l, Refusal::OutputLength)?;
    matrix_into(p.l, seed, matrix);
    Ok(())
}

// The secret from its seed, signed: Q1, Q3, Q9.
#[tactic(auto, using(sets::specs::Laws::Sets::few_polynomials, sets::specs::Laws::Sets::is_set_lem), unfolding(questions::specs::Answers::earliest))]
pub fn gen_secret(set: u32, seed: &[u8], secret: &mut [i8]) -> Result<(), Refusal>
    ensures { GenSecret set seed.now secret.old (answer_of result) secret.new }
{
    let p = known_params(set).ok_or(Refusal::UnknownSet)?;
    ask(seed.len() == 32, Refusal::SeedLength)?;
    ask(secret.len() == 256 * p.l, Refusal::OutputLength)?;
    secret_into(p.l, p.mu, seed, secret);
    Ok(())
}
