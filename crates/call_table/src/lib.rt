// The library's calls by name, and what each takes.
#![tactic(auto)]

ghost use Rattle.std.specs.Prelude.{◌≡◌, ◌<◌, length, Err};
ghost use Rattle.call_words.specs.declared.Fault.TheVariants.{TooLong};

use call_arguments::{Arguments, Buffers};
use call_words::{Fault, Words};

// A line of more bytes is not read.
const LONGEST: usize = 65536;

// The ways of multiplying two polynomials.
#[derive(Clone, Copy)]
pub enum Multiplication {
    Schoolbook,
    Karatsuba,
}

// The hashes of a string.
#[derive(Clone, Copy)]
pub enum HashFunction {
    Shake128,
    Sha3256,
    Sha3512,
}

// What can be asked for. Of an argument of bytes or numbers a request has how many they are: in the buffer of their kind they stand in the
// order of the fields. An output is the content of the buffer that a call is lent.
#[derive(Clone, Copy)]
pub enum Request {
    Keygen {
        set: u32,
        matrix_seed: usize,
        secret_seed: usize,
        z: usize,
        public_key: usize,
        secret_key: usize,
    },
    Encaps {
        set: u32,
        public_key: usize,
        seed: usize,
        ciphertext: usize,
        shared_secret: usize,
    },
    Decaps {
        set: u32,
        secret_key: usize,
        ciphertext: usize,
        shared_secret: usize,
    },
    Encrypt {
        set: u32,
        public_key: usize,
        message: usize,
        seed: usize,
        ciphertext: usize,
    },
    Decrypt {
        set: u32,
        secret_key: usize,
        ciphertext: usize,
        message: usize,
    },
    GenMatrix {
        set: u32,
        seed: usize,
        matrix: usize,
    },
    GenSecret {
        set: u32,
        seed: usize,
        secret: usize,
    },
    PolyMul {
        way: Multiplication,
        modulus: u32,
        left: usize,
        right: usize,
        product: usize,
    },
    Round {
        coefficients: usize,
        rounded: usize,
    },
    ReconData {
        set: u32,
        coefficients: usize,
        recon: usize,
    },
    Recover {
        set: u32,
        coefficients: usize,
        recon: usize,
        bits: usize,
    },
    Pack {
        width: u32,
        coefficients: usize,
        bytes: usize,
    },
    Unpack {
        width: u32,
        bytes: usize,
        coefficients: usize,
    },
    Hash {
        hash: HashFunction,
        input: usize,
        output: usize,
    },
    PublicKeyOf {
        set: u32,
        secret_key: usize,
    },
    ReadRecord {
        record: usize,
        ciphertext: usize,
    },
    WriteRecord {
        door: Option<u32>,
        time: Option<u64>,
        set: u32,
        ciphertext: usize,
        record: usize,
    },
}

// What each call takes. Arguments stand in the order of the fields.

fn keygen(arguments: &mut Arguments<'_>, buffers: &mut Buffers) -> Result<Request, Fault> {
    Ok(Request::Keygen {
        set: arguments.number()?,
        matrix_seed: arguments.bytes(buffers)?,
        secret_seed: arguments.bytes(buffers)?,
        z: arguments.bytes(buffers)?,
        public_key: arguments.bytes(buffers)?,
        secret_key: arguments.bytes(buffers)?,
    })
}

fn encaps(arguments: &mut Arguments<'_>, buffers: &mut Buffers) -> Result<Request, Fault> {
    Ok(Request::Encaps {
        set: arguments.number()?,
        public_key: arguments.bytes(buffers)?,
        seed: arguments.bytes(buffers)?,
        ciphertext: arguments.bytes(buffers)?,
        shared_secret: arguments.bytes(buffers)?,
    })
}

fn decaps(arguments: &mut Arguments<'_>, buffers: &mut Buffers) -> Result<Request, Fault> {
    Ok(Request::Decaps {
        set: arguments.number()?,
        secret_key: arguments.bytes(buffers)?,
        ciphertext: arguments.bytes(buffers)?,
        shared_secret: arguments.bytes(buffers)?,
    })
}

fn encrypt(arguments: &mut Arguments<'_>, buffers: &mut Buffers) -> Result<Request, Fault> {
    Ok(Request::Encrypt {
        set: arguments.number()?,
        public_key: arguments.bytes(buffers)?,
        message: arguments.bytes(buffers)?,
        seed: arguments.bytes(buffers)?,
        ciphertext: arguments.bytes(buffers)?,
    })
}

fn decrypt(arguments: &mut Arguments<'_>, buffers: &mut Buffers) -> Result<Request, Fault> {
    Ok(Request::Decrypt {
        set: arguments.number()?,
        secret_key: arguments.bytes(buffers)?,
        ciphertext: arguments.bytes(buffers)?,
        message: arguments.bytes(buffers)?,
    })
}

fn gen_matrix(arguments: &mut Arguments<'_>, buffers: &mut Buffers) -> Result<Request, Fault> {
    Ok(Request::GenMatrix {
        set: arguments.number()?,
        seed: arguments.bytes(buffers)?,
        matrix: arguments.list(buffers)?,
    })
}

fn gen_secret(arguments: &mut Arguments<'_>, buffers: &mut Buffers) -> Result<Request, Fault> {
    Ok(Request::GenSecret {
        set: arguments.number()?,
        seed: arguments.bytes(buffers)?,
        secret: arguments.signed(buffers)?,
    })
}

fn poly_mul(
    way: Multiplication,
    arguments: &mut Arguments<'_>,
    buffers: &mut Buffers,
) -> Result<Request, Fault> {
    Ok(Request::PolyMul {
        way,
        modulus: arguments.number()?,
        left: arguments.list(buffers)?,
        right: arguments.list(buffers)?,
        product: arguments.list(buffers)?,
    })
}

fn round(arguments: &mut Arguments<'_>, buffers: &mut Buffers) -> Result<Request, Fault> {
    Ok(Request::Round {
        coefficients: arguments.list(buffers)?,
        rounded: arguments.list(buffers)?,
    })
}

fn recon_data(arguments: &mut Arguments<'_>, buffers: &mut Buffers) -> Result<Request, Fault> {
    Ok(Request::ReconData {
        set: arguments.number()?,
        coefficients: arguments.list(buffers)?,
        recon: arguments.list(buffers)?,
    })
}

fn recover(arguments: &mut Arguments<'_>, buffers: &mut Buffers) -> Result<Request, Fault> {
    Ok(Request::Recover {
        set: arguments.number()?,
        coefficients: arguments.list(buffers)?,
        recon: arguments.list(buffers)?,
        bits: arguments.list(buffers)?,
    })
}

fn pack(arguments: &mut Arguments<'_>, buffers: &mut Buffers) -> Result<Request, Fault> {
    Ok(Request::Pack {
        width: arguments.number()?,
        coefficients: arguments.list(buffers)?,
        bytes: arguments.bytes(buffers)?,
    })
}

fn unpack(arguments: &mut Arguments<'_>, buffers: &mut Buffers) -> Result<Request, Fault> {
    Ok(Request::Unpack {
        width: arguments.number()?,
        bytes: arguments.bytes(buffers)?,
        coefficients: arguments.list(buffers)?,
    })
}

fn hash(
    hash: HashFunction,
    arguments: &mut Arguments<'_>,
    buffers: &mut Buffers,
) -> Result<Request, Fault> {
    Ok(Request::Hash {
        hash,
        input: arguments.bytes(buffers)?,
        output: arguments.bytes(buffers)?,
    })
}

fn public_key_of(arguments: &mut Arguments<'_>, buffers: &mut Buffers) -> Result<Request, Fault> {
    Ok(Request::PublicKeyOf {
        set: arguments.number()?,
        secret_key: arguments.bytes(buffers)?,
    })
}

fn read_record(arguments: &mut Arguments<'_>, buffers: &mut Buffers) -> Result<Request, Fault> {
    Ok(Request::ReadRecord {
        record: arguments.bytes(buffers)?,
        ciphertext: arguments.bytes(buffers)?,
    })
}

fn write_record(arguments: &mut Arguments<'_>, buffers: &mut Buffers) -> Result<Request, Fault> {
    Ok(Request::WriteRecord {
        door: arguments.door()?,
        time: arguments.time()?,
        set: arguments.number()?,
        ciphertext: arguments.bytes(buffers)?,
        record: arguments.bytes(buffers)?,
    })
}

// Reads what the call of a name takes.
fn read(
    name: &[u8],
    arguments: &mut Arguments<'_>,
    buffers: &mut Buffers,
) -> Result<Request, Fault> {
    match name {
        b"keygen" => keygen(arguments, buffers),
        b"encaps" => encaps(arguments, buffers),
        b"decaps" => decaps(arguments, buffers),
        b"encrypt" => encrypt(arguments, buffers),
        b"decrypt" => decrypt(arguments, buffers),
        b"gen_matrix" => gen_matrix(arguments, buffers),
        b"gen_secret" => gen_secret(arguments, buffers),
        b"poly_mul" => poly_mul(Multiplication::Schoolbook, arguments, buffers),
        b"poly_mul_karatsuba" => poly_mul(Multiplication::Karatsuba, arguments, buffers),
        b"round" => round(arguments, buffers),
        b"recon_data" => recon_data(arguments, buffers),
        b"recover" => recover(arguments, buffers),
        b"pack" => pack(arguments, buffers),
        b"unpack" => unpack(arguments, buffers),
        b"shake128" => hash(HashFunction::Shake128, arguments, buffers),
        b"sha3_256" => hash(HashFunction::Sha3256, arguments, buffers),
        b"sha3_512" => hash(HashFunction::Sha3512, arguments, buffers),
        b"public_key_of" => public_key_of(arguments, buffers),
        b"read_record" => read_record(arguments, buffers),
        b"write_record" => write_record(arguments, buffers),
        _ => Err(Fault::UnknownCall),
    }
}

// The request of a line, whose arguments go into the buffers.
pub fn request_of(line: &[u8], buffers: &mut Buffers) -> Result<Request, Fault>
    ensures { 65536 < length line.now → result ≡ Err TooLong }
{
    if line.len() > LONGEST {
        return Err(Fault::TooLong);
    }
    let mut words = Words::new(line);
    let name = words.word()?;
    let mut arguments = Arguments::new(words);
    let request = read(name, &mut arguments, buffers)?;
    arguments.finish()?;
    Ok(request)
}
