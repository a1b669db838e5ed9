// Packing and unpacking, at any width of 1 to 16 bits, four bytes at a time.
#![tactic(auto, unfolding(questions::specs::Answers::earliest))]

ghost use Rattle.std.specs.Prelude.{◌≡◌, length};
ghost use Rattle.questions.specs.Refusals.{answer_of};
ghost use Rattle.packing.specs.Packing.{packed, unpacked, is_width};
ghost use Rattle.packing.specs.Promises.{Packed, Unpacked};
ghost use Rattle.packing.specs.Requires.{Fills};

use questions::{Refusal, all_below, ask};

// Packs coefficients, whatever their number. The bits that are read and not yet written are the `held` lowest of `acc`.
pub fn pack_into(width: u32, coefficients: &[u16], bytes: &mut [u8])
    requires { Fills width (length coefficients.now) (length bytes.old) }
    ensures { bytes.new ≡ packed width coefficients.now }
{
    let mut acc: u64 = 0;
    let mut held: u32 = 0;
    let mut j: usize = 0;
    for x in coefficients {
        acc += (*x as u64) << held;
        held += width;
        if held >= 32 {
            little_endian::store32(acc, j, bytes);
            acc >>= 32;
            held -= 32;
            j += 4;
        }
    }
}

// Cuts bytes into numbers of `width` bits. The bits that are read and not yet written are the `held` lowest of `acc`.
pub fn unpack_into(width: u32, bytes: &[u8], coefficients: &mut [u16])
    requires { Fills width (length coefficients.old) (length bytes.now) }
    ensures { coefficients.new ≡ unpacked width bytes.now }
{
    let mut acc: u64 = 0;
    let mut held: u32 = 0;
    let mut i: usize = 0;
    for x in coefficients.iter_mut() {
        if held < width {
            acc += little_endian::load32(bytes, i) << held;
            held += 32;
            i += 4;
        }
        *x = (acc % (1u64 << width)) as u16;
        acc >>= width;
        held -= width;
    }
}

// Whether a width is one of the six, Q2.
fn is_width(width: u32) -> bool
    ensures { result ≡ is_width width }
{
    matches!(width, 1 | 3 | 4 | 6 | 10 | 13)
}

// Packs a polynomial: Q2, Q7, Q8, Q9. The coefficients are read where width and count are right.
pub fn pack(width: u32, coefficients: &[u16], bytes: &mut [u8]) -> Result<(), Refusal>
    ensures { Packed width coefficients.now bytes.old (answer_of result) bytes.new }
{
    ask(is_width(width), Refusal::UnknownNumber)?;
    ask(coefficients.len() == 256, Refusal::InputLength)?;
    let below = all_below(1u32 << width, coefficients);
    ask(below, Refusal::CoefficientRange)?;
    ask(bytes.len() == 32 * (width as usize), Refusal::OutputLength)?;
    pack_into(width, coefficients, bytes);
    Ok(())
}

// Unpacks a polynomial: Q2, Q7, Q9.
pub fn unpack(width: u32, bytes: &[u8], coefficients: &mut [u16]) -> Result<(), Refusal>
    ensures { Unpacked width bytes.now coefficients.old (answer_of result) coefficients.new }
{
    ask(is_width(width), Refusal::UnknownNumber)?;
    ask(bytes.len() == 32 * (width as usize), Refusal::InputLength)?;
    ask(coefficients.len() == 256, Refusal::OutputLength)?;
    unpack_into(width, bytes, coefficients);
    Ok(())
}
