// The vectors that the two sides exchange, in 10 bits a coefficient: making one, and its inner product with a secret.
#![tactic(auto)]

ghost use Rattle.std.specs.Prelude.{false, map, ◌≡◌, ℕ, ◌+◌, ◌*◌, length};
ghost use Rattle.lists.specs.Strings.{placed};
ghost use Rattle.algebra.specs.Ring.{nat, blocks};
ghost use Rattle.packing.specs.Packing.{packed, unpacked};
ghost use Rattle.rounding.specs.Rounding.{round};
ghost use Rattle.algebra.specs.Vectors.{inner_mod, matrix_row, matrix_vector};
ghost use Rattle.matrix.specs.Ensures.{entries};
ghost use Rattle.lwr.specs.Lwr.{rounded_vector};
ghost use Rattle.lwr.specs.Requires.{RoundedRowsScratch, RoundedScratch, VectorLengths, VectorScratch, InnerLengths};

use matrix::{AT_ONCE, Matrix, THREE_ROWS, THREE_ROWS_WORK};

// `rows` rows of the product of a matrix and a secret, from row `first` on, rounded and packed to their places in the output. The caller lends a
// buffer for the polynomials that are multiplied at once and then for the rounded rows, and scratch.
fn rows_into(
    matrix: &Matrix,
    secret: &[u16],
    first: usize,
    rows: usize,
    cut: &mut [u16],
    work: &mut [u16],
    out: &mut [u8],
)
    requires { RoundedRowsScratch matrix.now.l (length secret.now) first rows (length cut.old) (length work.old) (length out.old) }
    ensures { out.new ≡ placed (320 * first)
        (packed 10 (map round (blocks rows (λ (k : ℕ). matrix_row matrix.now.l (entries matrix.now) (nat secret.now) (first + k)))))
        out.old }
{
    let n = 256 * rows;
    let mut exact = [0u16; THREE_ROWS];
    let exact = &mut exact[..n];
    matrix.rows_into(secret, first, rows, cut, work, exact);
    let rounded = &mut cut[..n];
    rounding::round_into(exact, rounded);
    packing_vector::pack_at(10, rounded, 320 * first, out);
}

// All rows, at the front of the output, up to three at a time.
fn rounded_into(matrix: &Matrix, secret: &[u16], cut: &mut [u16], work: &mut [u16], out: &mut [u8])
    requires { RoundedScratch matrix.now.l (length secret.now) (length cut.old) (length work.old) (length out.old) }
    ensures { out.new
        ≡ placed 0 (packed 10 (map round (matrix_vector matrix.now.l (entries matrix.now) (nat secret.now)))) out.old }
{
    for first in (0..matrix.l).step_by(AT_ONCE) {
        let rows = (matrix.l - first).min(AT_ONCE);
        rows_into(matrix, secret, first, rows, cut, work, out);
    }
}

// b', or b where the matrix that a seed gives is transposed, at the front of the output. The caller lends a buffer for three polynomials, and
// scratch.
#[tactic(auto, unfolding(crate::specs::Lwr::rounded_vector))]
fn vector_with(
    transposed: bool,
    l: usize,
    seed: &[u8],
    secret: &[u16],
    cut: &mut [u16],
    work: &mut [u16],
    out: &mut [u8],
)
    requires { VectorScratch l (length secret.now) (length cut.old) (length work.old) (length out.old) }
    ensures { out.new
        ≡ placed 0 (packed 10 (rounded_vector transposed l seed.now (nat secret.now))) out.old }
{
    let mut packed = [0u8; sampling::MATRIX_BYTES];
    let packed = &mut packed[..416 * l * l];
    sampling::packed_matrix_into(l, seed, packed);
    let matrix = Matrix {
        packed,
        l,
        transposed,
    };
    rounded_into(&matrix, secret, cut, work, out);
}

// The same, with buffers of its own.
pub fn vector_into(transposed: bool, l: usize, seed: &[u8], secret: &[u16], out: &mut [u8])
    requires { VectorLengths l (length secret.now) (length out.old) }
    ensures { out.new
        ≡ placed 0 (packed 10 (rounded_vector transposed l seed.now (nat secret.now))) out.old }
{
    let mut cut = [0u16; THREE_ROWS];
    let mut work = [0u16; THREE_ROWS_WORK];
    vector_with(transposed, l, seed, secret, &mut cut, &mut work, out);
}

// The inner product, modulo 1024, of a packed vector and a secret.
pub fn inner(l: usize, packed: &[u8], secret: &[u16]) -> [u16; 256]
    requires { InnerLengths l (length packed.now) (length secret.now) }
    ensures { result ≡ inner_mod 1024 l (unpacked 10 packed.now) (nat secret.now) }
{
    let mut words = [0u16; 1024];
    let mut work = [0u16; matrix::ONE_ROW_WORK];
    matrix::inner(l, packed, secret, &mut words[..256 * l], &mut work)
}

// Both products of encryption with one secret, in the same buffers: b', at the front of the output, and the inner product of the packed vector b and
// the secret, which is returned.
pub fn both_into(l: usize, seed: &[u8], vector: &[u8], secret: &[u16], out: &mut [u8]) -> [u16; 256]
    requires { VectorLengths l (length secret.now) (length out.old) × InnerLengths l (length vector.now) (length secret.now) }
    ensures { (out.new
        ≡ placed 0 (packed 10 (rounded_vector false l seed.now (nat secret.now))) out.old)
        × (result ≡ inner_mod 1024 l (unpacked 10 vector.now) (nat secret.now)) }
{
    let mut cut = [0u16; 1024];
    let mut work = [0u16; THREE_ROWS_WORK];
    vector_with(false, l, seed, secret, &mut cut, &mut work, out);
    matrix::inner(l, vector, secret, &mut cut[..256 * l], &mut work)
}
