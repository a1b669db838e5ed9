// The four calls in turn: what is encapsulated to a generated key comes back, where the noise is within its bounds.
#![tactic(auto)]

ghost use Rattle.std.specs.Prelude.{◌≡◌, ◌*◌, take};
ghost use Rattle.questions.specs.Answers.{earliest};
ghost use Rattle.questions.specs.Refusals.{answer_of};
ghost use Rattle.sets.specs.Sets.{params_of};
ghost use Rattle.correctness.specs.Promises.{refusals, RoundTrip};

use correctness::SetNumbers;
use questions::Refusal;
use sets::set_params;

// The first 416 l bytes of a secret key, or all of a shorter one.
fn plain_secret_of(set: u32, secret_key: &[u8]) -> &[u8]
    ensures { result.now ≡ take (416 * (params_of set).l) secret_key.now }
{
    let p = set_params(set);
    let n = 416 * p.l;
    if n <= secret_key.len() {
        &secret_key[0..n]
    } else {
        secret_key
    }
}

// Generates keys, encapsulates, decrypts and decapsulates, each with what the calls before it wrote. Answers the earliest refusal.
pub fn round_trip(
    sets: SetNumbers,
    matrix_seed: &[u8],
    secret_seed: &[u8],
    z: &[u8],
    seed: &[u8],
    public_key: &mut [u8],
    secret_key: &mut [u8],
    ciphertext: &mut [u8],
    shared_secret: &mut [u8],
    message: &mut [u8],
    decaps_secret: &mut [u8],
) -> Result<(), Refusal>
    ensures { RoundTrip sets matrix_seed.now secret_seed.now z.now seed.now
        public_key.old secret_key.old ciphertext.old shared_secret.old
        message.old decaps_secret.old (answer_of result)
        public_key.new secret_key.new ciphertext.new shared_secret.new
        message.new decaps_secret.new }
{
    let r1 = keys::keygen(
        sets.keygen,
        matrix_seed,
        secret_seed,
        z,
        public_key,
        secret_key,
    );
    let r2 = kem::encaps(sets.encaps, public_key, seed, ciphertext, shared_secret);
    let r3 = pke::decrypt(
        sets.decrypt,
        plain_secret_of(sets.decrypt, secret_key),
        ciphertext,
        message,
    );
    let r4 = kem::decaps(sets.decaps, secret_key, ciphertext, decaps_secret);
    r1.and(r2).and(r3).and(r4)
}
