// What the scheme's five calls answer, from the set number and the lengths alone: why a call is refused, else the parameters of its set.
#![tactic(auto, using(sets::specs::Laws::Sets::is_set_lem), unfolding(questions::specs::Answers::earliest))]

ghost use Rattle.std.specs.Prelude.{◌≡◌, IfOk};
ghost use Rattle.questions.specs.Answers.{earliest};
ghost use Rattle.questions.specs.Refusals.{answer_of};
ghost use Rattle.sets.specs.Sets.{params_of};
ghost use Rattle.scheme_questions.specs.Requires.{KeygenLengths, EncapsLengths, DecapsLengths, EncryptLengths, DecryptLengths};
ghost use Rattle.scheme_questions.specs.Questions.{keygen_questions, encaps_questions, decaps_questions, encrypt_questions, decrypt_questions};

use questions::{Refusal, ask};
use sets::{Params, known_params};

// Making keys: Q1, Q3, Q9.
pub fn keygen_answer(
    set: u32,
    matrix_seed: usize,
    secret_seed: usize,
    z: usize,
    public_key: usize,
    secret_key: usize,
) -> Result<Params, Refusal>
    ensures answer { answer_of result ≡ earliest (keygen_questions set matrix_seed secret_seed z public_key secret_key) }
    ensures params { IfOk result (λ p. p ≡ params_of set) }
    ensures fits { IfOk result (λ p. KeygenLengths p z public_key secret_key) }
{
    let p = known_params(set).ok_or(Refusal::UnknownSet)?;
    ask(matrix_seed == 32, Refusal::SeedLength)?;
    ask(secret_seed == 32, Refusal::SeedLength)?;
    ask(z == 32, Refusal::SeedLength)?;
    let keys_fit = (public_key == p.pk) & (secret_key == p.sk);
    ask(keys_fit, Refusal::OutputLength)?;
    Ok(p)
}

// Encapsulation: Q1, Q3, Q4, Q9.
pub fn encaps_answer(
    set: u32,
    public_key: usize,
    seed: usize,
    ciphertext: usize,
    shared_secret: usize,
) -> Result<Params, Refusal>
    ensures answer { answer_of result ≡ earliest (encaps_questions set public_key seed ciphertext shared_secret) }
    ensures params { IfOk result (λ p. p ≡ params_of set) }
    ensures fits { IfOk result (λ p. EncapsLengths p public_key ciphertext shared_secret) }
{
    let p = known_params(set).ok_or(Refusal::UnknownSet)?;
    ask(seed == 32, Refusal::SeedLength)?;
    ask(public_key == p.pk, Refusal::PublicKeyLength)?;
    let outputs_fit = (ciphertext == p.ct) & (shared_secret == 32);
    ask(outputs_fit, Refusal::OutputLength)?;
    Ok(p)
}

// Decapsulation: Q1, Q5, Q6, Q9.
pub fn decaps_answer(
    set: u32,
    secret_key: usize,
    ciphertext: usize,
    shared_secret: usize,
) -> Result<Params, Refusal>
    ensures answer { answer_of result ≡ earliest (decaps_questions set secret_key ciphertext shared_secret) }
    ensures params { IfOk result (λ p. p ≡ params_of set) }
    ensures fits { IfOk result (λ p. DecapsLengths p secret_key ciphertext shared_secret) }
{
    let p = known_params(set).ok_or(Refusal::UnknownSet)?;
    ask(secret_key == p.sk, Refusal::SecretKeyLength)?;
    ask(ciphertext == p.ct, Refusal::CiphertextLength)?;
    ask(shared_secret == 32, Refusal::OutputLength)?;
    Ok(p)
}

// Encryption: Q1, Q3, Q4, Q9.
pub fn encrypt_answer(
    set: u32,
    public_key: usize,
    message: usize,
    seed: usize,
    ciphertext: usize,
) -> Result<Params, Refusal>
    ensures answer { answer_of result ≡ earliest (encrypt_questions set public_key message seed ciphertext) }
    ensures params { IfOk result (λ p. p ≡ params_of set) }
    ensures fits { IfOk result (λ p. EncryptLengths p public_key message ciphertext) }
{
    let p = known_params(set).ok_or(Refusal::UnknownSet)?;
    ask(message == 32, Refusal::SeedLength)?;
    ask(seed == 32, Refusal::SeedLength)?;
    ask(public_key == p.pk, Refusal::PublicKeyLength)?;
    ask(ciphertext == p.ct, Refusal::OutputLength)?;
    Ok(p)
}

// Decryption: Q1, Q5, Q6, Q9.
pub fn decrypt_answer(
    set: u32,
    plain_secret: usize,
    ciphertext: usize,
    message: usize,
) -> Result<Params, Refusal>
    ensures answer { answer_of result ≡ earliest (decrypt_questions set plain_secret ciphertext message) }
    ensures params { IfOk result (λ p. p ≡ params_of set) }
    ensures fits { IfOk result (λ p. DecryptLengths p plain_secret ciphertext message) }
{
    let p = known_params(set).ok_or(Refusal::UnknownSet)?;
    ask(plain_secret == 416 * p.l, Refusal::SecretKeyLength)?;
    ask(ciphertext == p.ct, Refusal::CiphertextLength)?;
    ask(message == 32, Refusal::OutputLength)?;
    Ok(p)
}
