// The hashes of encapsulation and decapsulation: k and the coins from a message, and the secret of a ciphertext under k or z.
#![tactic(auto)]

ghost use Rattle.std.specs.Prelude.{cond, ◌++◌, ◌≡◌, length};
ghost use Rattle.lists.specs.Strings.{same};
ghost use Rattle.sha3.specs.Hashes.{sha3_512};
ghost use Rattle.kdf.specs.Kdf.{secret_under};

// Two strings of 32 bytes, one after the other.
fn joined(a: &[u8], b: &[u8]) -> [u8; 64]
    requires { (length a.now ≡ 32) × (length b.now ≡ 32) }
    ensures { result ≡ a.now ++ b.now }
{
    let mut both = [0u8; 64];
    byte_strings::join(a, b, &mut both);
    both
}

// SHA3-512 of m and the hash of the public key: k, and then r, the coins of encryption.
pub fn key_and_coins(message: &[u8; 32], hash: &[u8]) -> [u8; 64]
    requires { length hash.now ≡ 32 }
    ensures { result ≡ sha3_512 (message.now ++ hash.now) }
{
    sha3::hash512(&joined(message, hash))
}

// The secret of a ciphertext under a key: under k the shared one, under z the rejected one.
pub fn secret_under(key: &[u8], ciphertext: &[u8]) -> [u8; 32]
    requires { length key.now ≡ 32 }
    ensures { result ≡ secret_under key.now ciphertext.now }
{
    let hash = sha3::hash256(ciphertext);
    sha3::hash256(&joined(key, &hash))
}

// The secret of a ciphertext under k where it is the one made again, else under z, by the same steps.
pub fn chosen_secret(k: &[u8], z: &[u8], again: &[u8], ciphertext: &[u8]) -> [u8; 32]
    requires { (length k.now ≡ 32) × (length z.now ≡ 32) × (length again.now ≡ length ciphertext.now) }
    ensures { result ≡
        secret_under (cond (same again.now ciphertext.now) k.now z.now) ciphertext.now }
{
    let different = byte_strings::difference(again, ciphertext);
    let mut key = [0u8; 32];
    byte_strings::choose(different, k, z, &mut key);
    secret_under(&key, ciphertext)
}
