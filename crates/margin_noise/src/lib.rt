// The norm of the noise of a matrix and two secrets, exactly.
//
// Errors lie in -3 .. 4 and secrets are small, so that the magnitude of every coefficient is less than 32768 (`Laws/Bounds`): its residue
// modulo 65536 says which number it is, and all sums are made modulo 65536.
#![tactic(auto)]

ghost use Rattle.std.specs.Prelude.{◌≡◌, ℕ, map, length, pos, ◌-ℤ◌, slice_index, unsigned_abs};
ghost use Rattle.lists.specs.Lists.{from};
ghost use Rattle.algebra.specs.Integers.{modℤ};
ghost use Rattle.algebra.specs.Ring.{inner, nat, poly, residues};
ghost use Rattle.packing.specs.Packing.{unpacked};
ghost use Rattle.algebra.specs.Vectors.{entry};
ghost use Rattle.matrix.specs.Ensures.{entries};
ghost use Rattle.noise.specs.Noise.{around, error, errors, noise};
ghost use Rattle.margin_noise.specs.Norm.{norm};
ghost use Rattle.margin_noise.specs.Requires.{SecretsScratch, NoiseLengths};

use matrix::{Matrix, THREE_ROWS, THREE_ROWS_WORK};

// The error of rounding a coefficient: 4 less what rounding drops.
fn error_of(x: u16) -> u16
    ensures { result ≡ modℤ (error (pos x)) 65536 }
{
    4u16.wrapping_sub(x.wrapping_add(4) % 8)
}

// The errors of rounding, each at the place of its coefficient.
fn errors_in(exact: &mut [u16])
    ensures { exact.new ≡ map (λ (x : ℕ). modℤ (error (pos x)) 65536) exact.old }
{
    for x in exact.iter_mut() {
        *x = error_of(*x);
    }
}

// The errors of the product of a matrix and the secret s, and their inner product with the secret t. The caller lends a buffer for three
// polynomials, and scratch.
fn product(matrix: &Matrix, s: &[u16], t: &[u16], cut: &mut [u16], work: &mut [u16]) -> [u16; 256]
    requires { SecretsScratch matrix.now.l (length s.now) (length t.now) (length cut.old) (length work.old) }
    ensures { result
        ≡ residues 65536 (inner 256 matrix.now.l (errors 256 matrix.now.l (entries matrix.now) (poly (nat s.now)))
        (poly (nat t.now))) }
{
    let mut exact = [0u16; 1024];
    let exact = &mut exact[..256 * matrix.l];
    matrix.product_into(s, cut, work, exact);
    errors_in(exact);
    matrix::inner_words(matrix.l, exact, t, work)
}

// The magnitude of the number near zero whose residue is x - y.
fn magnitude(x: u16, y: u16) -> usize
    ensures { result ≡ unsigned_abs (around 65536 (pos x -ℤ pos y)) }
{
    let d = x.wrapping_sub(y) as usize;
    if d < 32768 { d } else { 65536 - d }
}

// The norm of the numbers near zero whose residues are the differences of two lists.
fn norm_of(left: &[u16; 256], right: &[u16; 256]) -> usize
    ensures { result ≡ norm (from 256 (λ (k : ℕ).
        around 65536 (pos (slice_index left.now k) -ℤ pos (slice_index right.now k)))) }
{
    let mut most = 0usize;
    for (x, y) in left.iter().zip(right) {
        most = most.max(magnitude(*x, *y));
    }
    most
}

// The norm of N: s is the secret of keygen, t that of encryption.
pub fn noise_norm(l: usize, matrix: &[u8], s: &[i8], t: &[i8]) -> usize
    requires { NoiseLengths l (length matrix.now) s.now t.now }
    ensures { result ≡ norm (noise 256 l (entry l (unpacked 13 matrix.now)) (poly s.now) (poly t.now)) }
{
    let mut s_words = [0u16; 1024];
    let s_words = &mut s_words[..256 * l];
    let mut t_words = [0u16; 1024];
    let t_words = &mut t_words[..256 * l];
    binomial::words_into(s, s_words);
    binomial::words_into(t, t_words);
    let itself = Matrix {
        packed: matrix,
        l,
        transposed: false,
    };
    let turned = Matrix {
        packed: matrix,
        l,
        transposed: true,
    };
    let mut cut = [0u16; THREE_ROWS];
    let mut work = [0u16; THREE_ROWS_WORK];
    let left = product(&itself, t_words, s_words, &mut cut, &mut work);
    let right = product(&turned, s_words, t_words, &mut cut, &mut work);
    norm_of(&left, &right)
}
