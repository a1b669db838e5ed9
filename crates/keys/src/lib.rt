// Making keys, their layout, and the public key inside a secret key.
#![tactic(auto)]

ghost use Rattle.std.specs.Prelude.{true, ◌++◌, ◌≡◌, length, IfOk};
ghost use Rattle.questions.specs.Answers.{earliest};
ghost use Rattle.questions.specs.Refusals.{answer_of};
ghost use Rattle.sets.specs.Sets.{params_of};
ghost use Rattle.algebra.specs.Ring.{nat};
ghost use Rattle.packing.specs.Packing.{packed};
ghost use Rattle.sha3.specs.Hashes.{sha3_256, shake128};
ghost use Rattle.lwr.specs.Lwr.{rounded_vector};
ghost use Rattle.keys.specs.Keys.{lookup_questions, public_key_of};
ghost use Rattle.keys.specs.Promises.{Generated};
ghost use Rattle.keys.specs.Requires.{PublicLengths, SecretLengths, KeygenScratch, Found};
ghost use Rattle.keys.specs.Ensures.{KeyPair};

use questions::{Refusal, ask};
use sets::{Params, known_params};

// The public key: b, then the stored matrix seed, from which the matrix comes.
fn public_key_into(l: usize, matrix_seed: &[u8], secret: &[u16], public_key: &mut [u8])
    requires { PublicLengths l (length secret.now) (length public_key.old) }
    ensures { public_key.new
        ≡ packed 10 (rounded_vector true l (shake128 matrix_seed.now 32) (nat secret.now))
        ++ shake128 matrix_seed.now 32 }
{
    let mut stored = [0u8; 32];
    sha3::shake128(matrix_seed, &mut stored);
    let e = 320 * l;
    lwr::vector_into(true, l, &stored, secret, public_key);
    byte_strings::copy_at(&stored, e, public_key);
}

// The secret key: the plain secret, of 13 bits a coefficient, the public key, its hash and z.
fn secret_key_into(l: usize, secret: &[u16], public_key: &[u8], z: &[u8], secret_key: &mut [u8])
    requires { SecretLengths l secret.now (length public_key.now) (length z.now) (length secret_key.old) }
    ensures { secret_key.new
        ≡ packed 13 secret.now ++ (public_key.now ++ (sha3_256 public_key.now ++ z.now)) }
{
    let e = 416 * l;
    let h = e + public_key.len();
    let f = h + 32;
    packing_vector::pack_at(13, secret, 0, secret_key);
    byte_strings::copy_at(public_key, e, secret_key);
    let hash = sha3::hash256(public_key);
    byte_strings::copy_at(&hash, h, secret_key);
    byte_strings::copy_at(z, f, secret_key);
}

// Makes keys at arguments of the set's lengths; the caller lends scratch for the secret.
pub fn keygen_with(
    p: Params,
    matrix_seed: &[u8],
    secret_seed: &[u8],
    z: &[u8],
    secret: &mut [u16],
    public_key: &mut [u8],
    secret_key: &mut [u8],
)
    requires { KeygenScratch p (length z.now) (length secret.old) (length public_key.old) (length secret_key.old) }
    ensures { KeyPair p matrix_seed.now secret_seed.now z.now
        public_key.new secret_key.new }
{
    sampling::secret_residues_into(p.l, p.mu, secret_seed, secret);
    public_key_into(p.l, matrix_seed, secret, public_key);
    secret_key_into(p.l, secret, public_key, z, secret_key);
}

// Making keys: Q1, Q3, Q9.
pub fn keygen(
    set: u32,
    matrix_seed: &[u8],
    secret_seed: &[u8],
    z: &[u8],
    public_key: &mut [u8],
    secret_key: &mut [u8],
) -> Result<(), Refusal>
    ensures { Generated set matrix_seed.now secret_seed.now z.now public_key.old
        secret_key.old (answer_of result) public_key.new secret_key.new }
{
    let p = scheme_questions::keygen_answer(
        set,
        matrix_seed.len(),
        secret_seed.len(),
        z.len(),
        public_key.len(),
        secret_key.len(),
    )?;
    let mut secret = [0u16; 1024];
    let n = 256 * p.l;
    keygen_with(
        p,
        matrix_seed,
        secret_seed,
        z,
        &mut secret[..n],
        public_key,
        secret_key,
    );
    Ok(())
}

// What a lookup answers: Q1, Q5, else the parameters of the set.
#[tactic(auto, using(sets::specs::Laws::Sets::is_set_lem), unfolding(questions::specs::Answers::earliest))]
pub fn lookup_answer(set: u32, secret_key: usize) -> Result<Params, Refusal>
    ensures answer { answer_of result ≡ earliest (lookup_questions set secret_key) }
    ensures params { IfOk result (λ p. p ≡ params_of set) }
    ensures found { IfOk result (λ p. Found p secret_key) }
{
    let p = known_params(set).ok_or(Refusal::UnknownSet)?;
    ask(secret_key == p.sk, Refusal::SecretKeyLength)?;
    Ok(p)
}

// The public key inside a secret key, as a part of it; an empty part where the set is unknown or the length is not the set's.
pub fn public_key_of(set: u32, secret_key: &[u8]) -> &[u8]
    ensures { result.now ≡ public_key_of set secret_key.now }
{
    match lookup_answer(set, secret_key.len()) {
        Ok(p) => {
            let a = 416 * p.l;
            let e = a + p.pk;
            &secret_key[a..e]
        }
        Err(_) => &secret_key[..0],
    }
}
