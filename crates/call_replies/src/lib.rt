// Replies: a line is read, the call that it names is made, and what it gives is written.
#![tactic(auto)]

use call_arguments::Buffers;
use call_table::{HashFunction, Multiplication, Request};
use call_words::{Fault, Reply};
use questions::Refusal;
use std::io;
use std::io::{ErrorKind, Write};

// Cuts an argument of `count` elements off the front.
fn cut<T>(elements: &mut [T], count: usize) -> (&mut [T], &mut [T]) {
    let end = count.min(elements.len());
    elements.split_at_mut(end)
}

// The answer of a call, and its output.
fn with_bytes<W: Write>(
    reply: &mut Reply<'_, W>,
    called: Result<(), Refusal>,
    output: &[u8],
) -> io::Result<()> {
    reply.number(u64::from(questions::answer(called)))?;
    reply.bytes(output)
}

fn with_list<W: Write>(
    reply: &mut Reply<'_, W>,
    called: Result<(), Refusal>,
    output: &[u16],
) -> io::Result<()> {
    reply.number(u64::from(questions::answer(called)))?;
    reply.list(output)
}

// Makes the call that is asked for, and writes its answer and every output; of the lookup, what it hands back; of the reading of a record
// the numbers of its entry between the answer and the output.
fn answer_request<W: Write>(
    reply: &mut Reply<'_, W>,
    request: Request,
    bytes: &mut [u8],
    numbers: &mut [u16],
    signed: &mut [i8],
) -> io::Result<()> {
    match request {
        Request::Keygen {
            set,
            matrix_seed,
            secret_seed,
            z,
            public_key,
            secret_key,
        } => {
            let (matrix_seed, rest) = cut(bytes, matrix_seed);
            let (secret_seed, rest) = cut(rest, secret_seed);
            let (z, rest) = cut(rest, z);
            let (public_key, rest) = cut(rest, public_key);
            let (secret_key, _) = cut(rest, secret_key);
            let called = keys::keygen(set, matrix_seed, secret_seed, z, public_key, secret_key);
            with_bytes(reply, called, public_key)?;
            reply.bytes(secret_key)
        }
        Request::Encaps {
            set,
            public_key,
            seed,
            ciphertext,
            shared_secret,
        } => {
            let (public_key, rest) = cut(bytes, public_key);
            let (seed, rest) = cut(rest, seed);
            let (ciphertext, rest) = cut(rest, ciphertext);
            let (shared_secret, _) = cut(rest, shared_secret);
            let called = kem::encaps(set, public_key, seed, ciphertext, shared_secret);
            with_bytes(reply, called, ciphertext)?;
            reply.bytes(shared_secret)
        }
        Request::Decaps {
            set,
            secret_key,
            ciphertext,
            shared_secret,
        } => {
            let (secret_key, rest) = cut(bytes, secret_key);
            let (ciphertext, rest) = cut(rest, ciphertext);
            let (shared_secret, _) = cut(rest, shared_secret);
            let called = kem::decaps(set, secret_key, ciphertext, shared_secret);
            with_bytes(reply, called, shared_secret)
        }
        Request::Encrypt {
            set,
            public_key,
            message,
            seed,
            ciphertext,
        } => {
            let (public_key, rest) = cut(bytes, public_key);
            let (message, rest) = cut(rest, message);
            let (seed, rest) = cut(rest, seed);
            let (ciphertext, _) = cut(rest, ciphertext);
            let called = pke::encrypt(set, public_key, message, seed, ciphertext);
            with_bytes(reply, called, ciphertext)
        }
        Request::Decrypt {
            set,
            secret_key,
            ciphertext,
            message,
        } => {
            let (secret_key, rest) = cut(bytes, secret_key);
            let (ciphertext, rest) = cut(rest, ciphertext);
            let (message, _) = cut(rest, message);
            let called = pke::decrypt(set, secret_key, ciphertext, message);
            with_bytes(reply, called, message)
        }
        Request::GenMatrix { set, seed, matrix } => {
            let (seed, _) = cut(bytes, seed);
            let (matrix, _) = cut(numbers, matrix);
            let called = sampling::gen_matrix(set, seed, matrix);
            with_list(reply, called, matrix)
        }
        Request::GenSecret { set, seed, secret } => {
            let (seed, _) = cut(bytes, seed);
            let (secret, _) = cut(signed, secret);
            let called = sampling::gen_secret(set, seed, secret);
            reply.number(u64::from(questions::answer(called)))?;
            reply.signed(secret)
        }
        Request::PolyMul {
            way,
            modulus,
            left,
            right,
            product,
        } => {
            let (left, rest) = cut(numbers, left);
            let (right, rest) = cut(rest, right);
            let (product, _) = cut(rest, product);
            let called = match way {
                Multiplication::Schoolbook => ring::poly_mul(modulus, left, right, product),
                Multiplication::Karatsuba => {
                    karatsuba::poly_mul_karatsuba(modulus, left, right, product)
                }
            };
            with_list(reply, called, product)
        }
        Request::Round {
            coefficients,
            rounded,
        } => {
            let (coefficients, rest) = cut(numbers, coefficients);
            let (rounded, _) = cut(rest, rounded);
            let called = rounding::round(coefficients, rounded);
            with_list(reply, called, rounded)
        }
        Request::ReconData {
            set,
            coefficients,
            recon,
        } => {
            let (coefficients, rest) = cut(numbers, coefficients);
            let (recon, _) = cut(rest, recon);
            let called = reconciliation::recon_data(set, coefficients, recon);
            with_list(reply, called, recon)
        }
        Request::Recover {
            set,
            coefficients,
            recon,
            bits,
        } => {
            let (coefficients, rest) = cut(numbers, coefficients);
            let (recon, rest) = cut(rest, recon);
            let (bits, _) = cut(rest, bits);
            let called = reconciliation::recover(set, coefficients, recon, bits);
            with_list(reply, called, bits)
        }
        Request::Pack {
            width,
            coefficients,
            bytes: packed,
        } => {
            let (coefficients, _) = cut(numbers, coefficients);
            let (packed, _) = cut(bytes, packed);
            let called = packing::pack(width, coefficients, packed);
            with_bytes(reply, called, packed)
        }
        Request::Unpack {
            width,
            bytes: packed,
            coefficients,
        } => {
            let (packed, _) = cut(bytes, packed);
            let (coefficients, _) = cut(numbers, coefficients);
            let called = packing::unpack(width, packed, coefficients);
            with_list(reply, called, coefficients)
        }
        Request::Hash {
            hash,
            input,
            output,
        } => {
            let (input, rest) = cut(bytes, input);
            let (output, _) = cut(rest, output);
            let called = match hash {
                HashFunction::Shake128 => {
                    sha3::shake128(input, output);
                    Ok(())
                }
                HashFunction::Sha3256 => sha3::sha3_256(input, output),
                HashFunction::Sha3512 => sha3::sha3_512(input, output),
            };
            with_bytes(reply, called, output)
        }
        Request::PublicKeyOf { set, secret_key } => {
            let (secret_key, _) = cut(bytes, secret_key);
            reply.bytes(keys::public_key_of(set, secret_key))
        }
        Request::ReadRecord { record, ciphertext } => {
            let (record, rest) = cut(bytes, record);
            let (ciphertext, _) = cut(rest, ciphertext);
            match record_reader::read_record(record, ciphertext) {
                Ok(head) => {
                    reply.number(0)?;
                    reply.optional(head.door.map(u64::from))?;
                    reply.optional(head.time)?;
                    reply.number(u64::from(head.set))?;
                }
                Err(refusal) => {
                    reply.number(u64::from(u8::from(refusal)))?;
                    reply.three_missing()?;
                }
            }
            reply.bytes(ciphertext)
        }
        Request::WriteRecord {
            door,
            time,
            set,
            ciphertext,
            record,
        } => {
            let (ciphertext, rest) = cut(bytes, ciphertext);
            let (record, _) = cut(rest, record);
            let called = record_writer::write_record(door, time, set, ciphertext, record);
            with_bytes(reply, called, record)
        }
    }
}

// Answers a line, unless it is a comment. Its arguments go into the buffers, and a word of the reply into the text.
pub fn answer<W: Write>(
    to: &mut W,
    line: &[u8],
    buffers: &mut Buffers,
    text: &mut [u8],
) -> io::Result<()> {
    if line.starts_with(b"#") {
        return Ok(());
    }
    let mut reply = Reply::new(to, text);
    match call_table::request_of(line, buffers) {
        Ok(request) => {
            let bytes = &mut buffers.bytes;
            let numbers = &mut buffers.numbers;
            let signed = &mut buffers.signed;
            answer_request(&mut reply, request, bytes, numbers, signed)?;
        }
        Err(Fault::TooLong) => return reply.too_long(),
        Err(Fault::OutOfMemory) => return Err(io::Error::from(ErrorKind::OutOfMemory)),
        Err(fault) => reply.error(fault)?,
    }
    reply.finish()
}
