// Encapsulation and decapsulation: document 01's sealing and unsealing, with the capsule as the ciphertext.
#![tactic(auto)]

ghost use Rattle.std.specs.Prelude.{◌≡◌, length};
ghost use Rattle.questions.specs.Refusals.{answer_of};
ghost use Rattle.kem.specs.Promises.{Encapsulated, Decapsulated};
ghost use Rattle.kem.specs.Requires.{AgainScratch};
ghost use Rattle.kem.specs.Ensures.{MadeAgain};

use questions::Refusal;
use sets::Params;

// Decrypts a ciphertext and encrypts the message again, with the stored hash and public key: the ciphertext made again, and k and r.
// The secret's scratch serves decryption and then encryption; both write all of it.
fn again_with(
    p: Params,
    secret_key: &[u8],
    ciphertext: &[u8],
    secret: &mut [u16],
    again: &mut [u8],
) -> [u8; 64]
    requires { AgainScratch p (length secret_key.now) (length ciphertext.now) (length secret.old) (length again.old) }
    ensures { MadeAgain p secret_key.now ciphertext.now result again.new }
{
    let a = 416 * p.l;
    let b = a + p.pk;
    let c = b + 32;
    let mut message = [0u8; 32];
    pke::decrypt_with(p, &secret_key[0..a], ciphertext, secret, &mut message);
    let kr = kdf::key_and_coins(&message, &secret_key[b..c]);
    pke::encrypt_with(p, &secret_key[a..b], &message, &kr[32..64], secret, again);
    kr
}

// Encapsulation: Q1, Q3, Q4, Q9.
pub fn encaps(
    set: u32,
    public_key: &[u8],
    seed: &[u8],
    ciphertext: &mut [u8],
    shared_secret: &mut [u8],
) -> Result<(), Refusal>
    ensures { Encapsulated set public_key.now seed.now ciphertext.old
        shared_secret.old (answer_of result) ciphertext.new shared_secret.new }
{
    let p = scheme_questions::encaps_answer(
        set,
        public_key.len(),
        seed.len(),
        ciphertext.len(),
        shared_secret.len(),
    )?;
    let mut secret = [0u16; 1024];
    let n = 256 * p.l;
    let message = sha3::hash256(seed);
    let hash = sha3::hash256(public_key);
    let kr = kdf::key_and_coins(&message, &hash);
    pke::encrypt_with(
        p,
        public_key,
        &message,
        &kr[32..64],
        &mut secret[..n],
        ciphertext,
    );
    let shared = kdf::secret_under(&kr[0..32], ciphertext);
    byte_strings::copy_at(&shared, 0, shared_secret);
    Ok(())
}

// Decapsulation: Q1, Q5, Q6, Q9. A ciphertext that fails the comparison is answered 0 as well, and gives the rejected secret.
pub fn decaps(
    set: u32,
    secret_key: &[u8],
    ciphertext: &[u8],
    shared_secret: &mut [u8],
) -> Result<(), Refusal>
    ensures { Decapsulated set secret_key.now ciphertext.now shared_secret.old
        (answer_of result) shared_secret.new }
{
    let p = scheme_questions::decaps_answer(
        set,
        secret_key.len(),
        ciphertext.len(),
        shared_secret.len(),
    )?;
    let mut secret = [0u16; 1024];
    let mut again = [0u8; 1472];
    let n = 256 * p.l;
    let m = p.ct;
    let again = &mut again[..m];
    let kr = again_with(p, secret_key, ciphertext, &mut secret[..n], again);
    let z = 416 * p.l + p.pk + 32;
    let chosen = kdf::chosen_secret(&kr[0..32], &secret_key[z..], again, ciphertext);
    byte_strings::copy_at(&chosen, 0, shared_secret);
    Ok(())
}
