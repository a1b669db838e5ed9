// Encryption and decryption, beneath the key encapsulation.
#![tactic(auto)]

ghost use Rattle.std.specs.Prelude.{◌≡◌, length};
ghost use Rattle.lists.specs.Strings.{placed};
ghost use Rattle.questions.specs.Refusals.{answer_of};
ghost use Rattle.sets.specs.Sets.{added};
ghost use Rattle.packing.specs.Packing.{packed, unpacked};
ghost use Rattle.reconciliation.specs.Reconciliation.{masked_poly, recon_data, recovered};
ghost use Rattle.pke.specs.Pke.{encrypted, decrypted};
ghost use Rattle.pke.specs.Promises.{Encrypted, Decrypted};
ghost use Rattle.pke.specs.Requires.{DataLengths, MessageLengths, EncryptScratch, DecryptScratch};

use questions::Refusal;
use sets::Params;

// The reconciliation data of a message, from v', at a place of the ciphertext. One array holds the message's bits and then the data.
fn data_at(p: Params, v: &[u16; 256], message: &[u8], place: usize, ciphertext: &mut [u8])
    requires { DataLengths p (length message.now) place (length ciphertext.old) }
    ensures { ciphertext.new ≡ placed place
        (packed p.bits (recon_data p.g (masked_poly v.now (unpacked 1 message.now))))
        ciphertext.old }
{
    let mut numbers = [0u16; 256];
    let mut w = [0u16; 256];
    packing::unpack_into(1, message, &mut numbers);
    reconciliation::mask_into(v, &numbers, &mut w);
    reconciliation::recon_into(p.g, &w, &mut numbers);
    packing_vector::pack_at(p.bits, &numbers, place, ciphertext);
}

// The message, from v and the reconciliation data.
fn message_into(p: Params, v: &[u16; 256], data: &[u8], message: &mut [u8])
    requires { MessageLengths p (length «data».now) (length message.old) }
    ensures { message.new
        ≡ packed 1 (recovered p.g (added p) v.now (unpacked p.bits «data».now)) }
{
    let mut numbers = [0u16; 256];
    let mut bits = [0u16; 256];
    packing::unpack_into(p.bits, data, &mut numbers);
    reconciliation::recover_into(p.g, p.margin, v, &numbers, &mut bits);
    packing_vector::pack_at(1, &bits, 0, message);
}

// Encrypts at arguments of the set's lengths; the caller lends scratch for the secret.
pub fn encrypt_with(
    p: Params,
    public_key: &[u8],
    message: &[u8],
    seed: &[u8],
    secret: &mut [u16],
    ciphertext: &mut [u8],
)
    requires { EncryptScratch p (length public_key.now) (length message.now) (length secret.old) (length ciphertext.old) }
    ensures { ciphertext.new ≡ encrypted p public_key.now message.now seed.now }
{
    let e = 320 * p.l;
    let key = p.pk;
    sampling::secret_residues_into(p.l, p.mu, seed, secret);
    let v = lwr::both_into(
        p.l,
        &public_key[e..key],
        &public_key[0..e],
        secret,
        ciphertext,
    );
    data_at(p, &v, message, e, ciphertext);
}

// Decrypts at arguments of the set's lengths; the caller lends scratch for the secret.
pub fn decrypt_with(
    p: Params,
    plain_secret: &[u8],
    ciphertext: &[u8],
    secret: &mut [u16],
    message: &mut [u8],
)
    requires { DecryptScratch p (length plain_secret.now) (length ciphertext.now) (length secret.old) (length message.old) }
    ensures { message.new ≡ decrypted p plain_secret.now ciphertext.now }
{
    let e = 320 * p.l;
    let end = p.ct;
    packing::unpack_into(13, plain_secret, secret);
    let v = lwr::inner(p.l, &ciphertext[0..e], secret);
    message_into(p, &v, &ciphertext[e..end], message);
}

// Encryption: Q1, Q3, Q4, Q9.
pub fn encrypt(
    set: u32,
    public_key: &[u8],
    message: &[u8],
    seed: &[u8],
    ciphertext: &mut [u8],
) -> Result<(), Refusal>
    ensures { Encrypted set public_key.now message.now seed.now ciphertext.old
        (answer_of result) ciphertext.new }
{
    let p = scheme_questions::encrypt_answer(
        set,
        public_key.len(),
        message.len(),
        seed.len(),
        ciphertext.len(),
    )?;
    let mut secret = [0u16; 1024];
    let n = 256 * p.l;
    encrypt_with(p, public_key, message, seed, &mut secret[..n], ciphertext);
    Ok(())
}

// Decryption: Q1, Q5, Q6, Q9.
pub fn decrypt(
    set: u32,
    plain_secret: &[u8],
    ciphertext: &[u8],
    message: &mut [u8],
) -> Result<(), Refusal>
    ensures { Decrypted set plain_secret.now ciphertext.now message.old
        (answer_of result) message.new }
{
    let p = scheme_questions::decrypt_answer(
        set,
        plain_secret.len(),
        ciphertext.len(),
        message.len(),
    )?;
    let mut secret = [0u16; 1024];
    let n = 256 * p.l;
    decrypt_with(p, plain_secret, ciphertext, &mut secret[..n], message);
    Ok(())
}
