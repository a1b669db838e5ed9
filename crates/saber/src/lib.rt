// The calls for programs in C and Rust, each with its own promise: they answer by a number, 0 or that of the refusal. A slice is passed as a
// pointer and then a count of elements.
#![tactic(auto)]

ghost use Rattle.std.specs.Prelude.{◌≡◌};
ghost use Rattle.sha3.specs.Promises.{Shaken, Hashed};
ghost use Rattle.sha3.specs.Hashes.{sha3_256, sha3_512};
ghost use Rattle.packing.specs.Promises.{Packed, Unpacked};
ghost use Rattle.ring.specs.Promises.{Multiplied};
ghost use Rattle.rounding.specs.Promises.{Rounded};
ghost use Rattle.sampling.specs.Promises.{GenMatrix, GenSecret};
ghost use Rattle.reconciliation.specs.Promises.{ReconData, Recovered};
ghost use Rattle.pke.specs.Promises.{Encrypted, Decrypted};
ghost use Rattle.keys.specs.Promises.{Generated};
ghost use Rattle.kem.specs.Promises.{Encapsulated, Decapsulated};
ghost use Rattle.record_format.specs.Promises.{Recorded};
ghost use Rattle.saber_numbers.specs.Lookup.{key_offset, key_length};
ghost use Rattle.saber_numbers.specs.Numbers.{flagged};
ghost use Rattle.saber_numbers.specs.Promises.{ReadInto};

use questions::answer;

// Making keys: Q1, Q3, Q9.
#[unsafe(no_mangle)]
pub extern "C" fn saber_keygen(
    set: u32,
    matrix_seed: &[u8],
    secret_seed: &[u8],
    z: &[u8],
    public_key: &mut [u8],
    secret_key: &mut [u8],
) -> u8
    ensures { Generated set matrix_seed.now secret_seed.now z.now public_key.old
        secret_key.old result public_key.new secret_key.new }
{
    answer(keys::keygen(set, matrix_seed, secret_seed, z, public_key, secret_key))
}

// Encapsulation, "sealing": Q1, Q3, Q4, Q9.
#[unsafe(no_mangle)]
pub extern "C" fn saber_encaps(
    set: u32,
    public_key: &[u8],
    seed: &[u8],
    ciphertext: &mut [u8],
    shared_secret: &mut [u8],
) -> u8
    ensures { Encapsulated set public_key.now seed.now ciphertext.old
        shared_secret.old result ciphertext.new shared_secret.new }
{
    answer(kem::encaps(set, public_key, seed, ciphertext, shared_secret))
}

// Decapsulation, "unsealing": Q1, Q5, Q6, Q9.
#[unsafe(no_mangle)]
pub extern "C" fn saber_decaps(
    set: u32,
    secret_key: &[u8],
    ciphertext: &[u8],
    shared_secret: &mut [u8],
) -> u8
    ensures { Decapsulated set secret_key.now ciphertext.now shared_secret.old
        result shared_secret.new }
{
    answer(kem::decaps(set, secret_key, ciphertext, shared_secret))
}

// Encryption: Q1, Q3, Q4, Q9.
#[unsafe(no_mangle)]
pub extern "C" fn saber_encrypt(
    set: u32,
    public_key: &[u8],
    message: &[u8],
    seed: &[u8],
    ciphertext: &mut [u8],
) -> u8
    ensures { Encrypted set public_key.now message.now seed.now ciphertext.old
        result ciphertext.new }
{
    answer(pke::encrypt(set, public_key, message, seed, ciphertext))
}

// Decryption: Q1, Q5, Q6, Q9.
#[unsafe(no_mangle)]
pub extern "C" fn saber_decrypt(
    set: u32,
    plain_secret: &[u8],
    ciphertext: &[u8],
    message: &mut [u8],
) -> u8
    ensures { Decrypted set plain_secret.now ciphertext.now message.old
        result message.new }
{
    answer(pke::decrypt(set, plain_secret, ciphertext, message))
}

// The matrix from its seed: Q1, Q3, Q9.
#[unsafe(no_mangle)]
pub extern "C" fn saber_gen_matrix(set: u32, seed: &[u8], matrix: &mut [u16]) -> u8
    ensures { GenMatrix set seed.now matrix.old result matrix.new }
{
    answer(sampling::gen_matrix(set, seed, matrix))
}

// The secret from its seed, signed: Q1, Q3, Q9.
#[unsafe(no_mangle)]
pub extern "C" fn saber_gen_secret(set: u32, seed: &[u8], secret: &mut [i8]) -> u8
    ensures { GenSecret set seed.now secret.old result secret.new }
{
    answer(sampling::gen_secret(set, seed, secret))
}

// The ring product: Q2, Q7, Q8, Q9.
#[unsafe(no_mangle)]
pub extern "C" fn saber_poly_mul(modulus: u32, a: &[u16], b: &[u16], product: &mut [u16]) -> u8
    ensures { Multiplied modulus a.now b.now product.old result product.new }
{
    answer(ring::poly_mul(modulus, a, b, product))
}

// The same product, by halves: Q2, Q7, Q8, Q9.
#[unsafe(no_mangle)]
pub extern "C" fn saber_poly_mul_karatsuba(
    modulus: u32,
    a: &[u16],
    b: &[u16],
    product: &mut [u16],
) -> u8
    ensures { Multiplied modulus a.now b.now product.old result product.new }
{
    answer(karatsuba::poly_mul_karatsuba(modulus, a, b, product))
}

// Rounding of one polynomial: Q7, Q8, Q9.
#[unsafe(no_mangle)]
pub extern "C" fn saber_round(x: &[u16], rounded: &mut [u16]) -> u8
    ensures { Rounded x.now rounded.old result rounded.new }
{
    answer(rounding::round(x, rounded))
}

// Reconciliation data of a polynomial: Q1, Q7, Q8, Q9.
#[unsafe(no_mangle)]
pub extern "C" fn saber_recon_data(set: u32, w: &[u16], data: &mut [u16]) -> u8
    ensures { ReconData set w.now «data».old result «data».new }
{
    answer(reconciliation::recon_data(set, w, data))
}

// Recovery of the message bits: Q1, Q7, Q8, Q9.
#[unsafe(no_mangle)]
pub extern "C" fn saber_recover(set: u32, v: &[u16], data: &[u16], bits: &mut [u16]) -> u8
    ensures { Recovered set v.now «data».now bits.old result bits.new }
{
    answer(reconciliation::recover(set, v, data, bits))
}

// Packs a polynomial: Q2, Q7, Q8, Q9.
#[unsafe(no_mangle)]
pub extern "C" fn saber_pack(width: u32, coefficients: &[u16], bytes: &mut [u8]) -> u8
    ensures { Packed width coefficients.now bytes.old result bytes.new }
{
    answer(packing::pack(width, coefficients, bytes))
}

// Unpacks a polynomial: Q2, Q7, Q9.
#[unsafe(no_mangle)]
pub extern "C" fn saber_unpack(width: u32, bytes: &[u8], coefficients: &mut [u16]) -> u8
    ensures { Unpacked width bytes.now coefficients.old result coefficients.new }
{
    answer(packing::unpack(width, bytes, coefficients))
}

// SHAKE-128 fills an output of any length and never refuses.
#[unsafe(no_mangle)]
pub extern "C" fn saber_shake128(input: &[u8], output: &mut [u8]) -> u8
    ensures { Shaken input.now output.old result output.new }
{
    sha3::shake128(input, output);
    0
}

// SHA3-256: Q9.
#[unsafe(no_mangle)]
pub extern "C" fn saber_sha3_256(input: &[u8], digest: &mut [u8]) -> u8
    ensures { Hashed 32 (sha3_256 input.now) digest.old result digest.new }
{
    answer(sha3::sha3_256(input, digest))
}

// SHA3-512: Q9.
#[unsafe(no_mangle)]
pub extern "C" fn saber_sha3_512(input: &[u8], digest: &mut [u8]) -> u8
    ensures { Hashed 64 (sha3_512 input.now) digest.old result digest.new }
{
    answer(sha3::sha3_512(input, digest))
}

// The lookup in two numbers: where the public key starts in a secret key of `secret_key` bytes, and how many bytes it has.
// Both are 0 where Q1 or Q5 says no.
#[unsafe(no_mangle)]
pub extern "C" fn saber_public_key_offset(set: u32, secret_key: usize) -> usize
    ensures { result ≡ key_offset set secret_key }
{
    saber_numbers::public_key_offset(set, secret_key)
}

#[unsafe(no_mangle)]
pub extern "C" fn saber_public_key_length(set: u32, secret_key: usize) -> usize
    ensures { result ≡ key_length set secret_key }
{
    saber_numbers::public_key_length(set, secret_key)
}

// Writes the record of an entry: Q1, Q6, Q9. A door or a time whose flag is 0 is missing.
#[unsafe(no_mangle)]
pub extern "C" fn saber_write_record(
    has_door: u8,
    door: u32,
    has_time: u8,
    time: u64,
    set: u32,
    ciphertext: &[u8],
    record: &mut [u8],
) -> u8
    ensures { Recorded (flagged has_door door) (flagged has_time time) set ciphertext.now
        «record».old result «record».new }
{
    saber_numbers::write_record(has_door, door, has_time, time, set, ciphertext, record)
}

// Reads a record: 10, 11, 1, 11, 12, 9. The caller lends a variable for each number of the entry; a missing number leaves its variable alone.
#[unsafe(no_mangle)]
pub extern "C" fn saber_read_record(
    record: &[u8],
    has_door: &mut u8,
    door: &mut u32,
    has_time: &mut u8,
    time: &mut u64,
    set: &mut u32,
    ciphertext: &mut [u8],
) -> u8
    ensures { ReadInto «record».now has_door.old door.old has_time.old
        time.old set.old ciphertext.old result has_door.new door.new
        has_time.new time.new set.new ciphertext.new }
{
    saber_numbers::read_record(record, has_door, door, has_time, time, set, ciphertext)
}
