// How near decryption comes to a miss: the message bits that decryption gives wrong, and the norm of the noise.
#![tactic(auto)]

ghost use Rattle.std.specs.Prelude.{◌≡◌, ◌*◌, length, take, drop};
ghost use Rattle.algebra.specs.Ring.{poly};
ghost use Rattle.packing.specs.Packing.{unpacked};
ghost use Rattle.algebra.specs.Vectors.{entry};
ghost use Rattle.sampling.specs.Sampling.{matrix, secret};
ghost use Rattle.pke.specs.Pke.{encrypted, decrypted};
ghost use Rattle.noise.specs.Noise.{noise};
ghost use Rattle.margin_noise.specs.Norm.{norm};
ghost use Rattle.margin_bits.specs.Bits.{differing};
ghost use Rattle.margin_group.specs.Requires.{WrongLengths, NormLengths};

use sets::Params;

// Encrypts a message and decrypts it again: the bits that are wrong.
pub fn wrong_of(
    p: Params,
    public_key: &[u8],
    secret_key: &[u8],
    message: &[u8; 32],
    coins: &[u8],
) -> usize
    requires { WrongLengths p (length public_key.now) (length secret_key.now) }
    ensures { result ≡ differing (unpacked 1 message.now)
        (unpacked 1 (decrypted p (take (416 * p.l) secret_key.now)
        (encrypted p public_key.now message.now coins.now))) }
{
    let mut secret = [0u16; 1024];
    let mut ciphertext = [0u8; 1472];
    let mut received = [0u8; 32];
    let secret = &mut secret[..256 * p.l];
    let ciphertext = &mut ciphertext[..p.ct];
    pke::encrypt_with(p, public_key, message, coins, secret, ciphertext);
    let plain_secret = &secret_key[..416 * p.l];
    pke::decrypt_with(p, plain_secret, ciphertext, secret, &mut received);
    margin_bits::wrong_bits(message, &received)
}

// The norm of the noise, from the stored matrix seed in a public key, the secret seed and the coins.
pub fn norm_of(p: Params, public_key: &[u8], secret_seed: &[u8], coins: &[u8]) -> usize
    requires { NormLengths p (length public_key.now) }
    ensures { result ≡ norm (noise 256 p.l
        (entry p.l (matrix p.l (drop (320 * p.l) public_key.now)))
        (poly (secret p.l p.mu secret_seed.now)) (poly (secret p.l p.mu coins.now))) }
{
    let mut matrix = [0u8; sampling::MATRIX_BYTES];
    let mut s = [0i8; 1024];
    let mut t = [0i8; 1024];
    let matrix = &mut matrix[..416 * p.l * p.l];
    let s = &mut s[..256 * p.l];
    let t = &mut t[..256 * p.l];
    sampling::packed_matrix_into(p.l, &public_key[320 * p.l..], matrix);
    sampling::secret_into(p.l, p.mu, secret_seed, s);
    sampling::secret_into(p.l, p.mu, coins, t);
    margin_noise::noise_norm(p.l, matrix, s, t)
}
