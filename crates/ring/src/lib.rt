// The product of two polynomials with X^256 = -1, made modulo 65536 and then reduced.
#![tactic(auto)]

ghost use Rattle.std.specs.Prelude.{◌≡◌, ℕ, ◌*◌, ◌%◌, true, map, length};
ghost use Rattle.questions.specs.Answers.{earliest};
ghost use Rattle.questions.specs.Refusals.{answer_of};
ghost use Rattle.algebra.specs.Integers.{modℤ};
ghost use Rattle.algebra.specs.Ring.{nat, residues};
ghost use Rattle.algebra.specs.Columns.{table};
ghost use Rattle.ring.specs.Products.{is_modulus, mul_questions};
ghost use Rattle.ring.specs.Promises.{Multiplied};
ghost use Rattle.ring.specs.Requires.{Factors};

use questions::{Refusal, all_below, ask};

// a_0 w_0 + a_1 w_1 + .. modulo 65536.
fn dot(a: &[u16], w: &[u16]) -> u16
    requires { length a.now ≡ length w.now }
    ensures { result ≡ modℤ (Rattle.algebra.specs.Columns.dot (length a.now) (nat a.now) (nat w.now)) 65536 }
{
    let mut sum = 0u16;
    for (x, y) in a.iter().zip(w) {
        sum = sum.wrapping_add(x.wrapping_mul(*y));
    }
    sum
}

// b from its last coefficient to its first, and then the same with the other sign: each coefficient of a b is the scalar product of a with
// 256 places of it.
fn doubled(b: &[u16]) -> [u16; 512]
    requires { length b.now ≡ 256 }
    ensures { result ≡ residues 65536 (table 256 (nat b.now)) }
{
    let mut w = [0u16; 512];
    for j in 0..256 {
        w[j] = b[255 - j];
    }
    for j in 256..512 {
        w[j] = b[511 - j].wrapping_neg();
    }
    w
}

// a b, modulo 65536.
fn mul_into(a: &[u16], b: &[u16], product: &mut [u16])
    requires { Factors (length a.now) (length b.now) (length product.old) }
    ensures { product.new ≡ Rattle.ring.specs.Products.product 65536 a.now b.now }
{
    let p = &a[..256];
    let w = doubled(b);
    for k in 0..256 {
        product[k] = dot(p, &w[255 - k..511 - k]);
    }
}

// x modulo m. Each modulus is a constant here, so that no division is made of a coefficient.
#[tactic(auto, using(crate::specs::Laws::Products::moduli))]
fn residue(x: u16, m: u16) -> u16
    requires { is_modulus m ≡ true }
    ensures { result ≡ x % m }
{
    if m == 1024 { x % 1024 } else { x % 8192 }
}

// Each coefficient modulo m.
pub fn reduce(m: u16, out: &mut [u16])
    requires { is_modulus m ≡ true }
    ensures { out.new ≡ map (λ (x : ℕ). x % m) out.old }
{
    for x in out.iter_mut() {
        *x = residue(*x, m);
    }
}

// The answer of a ring product. The coefficients are read where modulus and counts are right, those of each list whatever the other holds.
#[tactic(auto, unfolding(questions::specs::Answers::earliest))]
pub fn mul_answer(modulus: u32, a: &[u16], b: &[u16], output: usize) -> Result<(), Refusal>
    ensures { answer_of result ≡ earliest (mul_questions modulus a.now b.now output) }
{
    let known = (modulus == 1024) | (modulus == 8192);
    ask(known, Refusal::UnknownNumber)?;
    ask(a.len() == 256, Refusal::InputLength)?;
    ask(b.len() == 256, Refusal::InputLength)?;
    let a_below = all_below(modulus, a);
    let b_below = all_below(modulus, b);
    ask(b_below, Refusal::CoefficientRange)?;
    ask(a_below, Refusal::CoefficientRange)?;
    ask(output == 256, Refusal::OutputLength)
}

// The ring product: Q2, Q7, Q8, Q9.
#[tactic(auto, using(crate::specs::Laws::Products::mul_factors, crate::specs::Laws::Products::mul_fits, crate::specs::Laws::Products::mul_modulus, crate::specs::Laws::Products::mul_done))]
pub fn poly_mul(modulus: u32, a: &[u16], b: &[u16], product: &mut [u16]) -> Result<(), Refusal>
    ensures { Multiplied modulus a.now b.now product.old (answer_of result) product.new }
{
    mul_answer(modulus, a, b, product.len())?;
    mul_into(a, b, product);
    reduce(modulus as u16, product);
    Ok(())
}
