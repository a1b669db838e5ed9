// Products of vectors and matrices. A matrix is packed, and each of its polynomials is unpacked when it is multiplied.
#![tactic(auto)]

ghost use Rattle.std.specs.Prelude.{cond, not, ◌≡◌, ℕ, ◌+◌, ◌*◌, length};
ghost use Rattle.algebra.specs.Ring.{nat, poly, blocks};
ghost use Rattle.packing.specs.Packing.{unpacked};
ghost use Rattle.algebra.specs.Vectors.{inner_mod, matrix_row, matrix_vector};
ghost use Rattle.matrix.specs.Requires.{CutLengths, WordsScratch, InnerScratch, RowsScratch, ProductScratch};

use karatsuba::rows_add;
use ring::reduce;

// How many rows are multiplied at once, at most.
pub const AT_ONCE: usize = 3;

// The scratch of an inner product, one row at a time.
pub const ONE_ROW_WORK: usize = karatsuba::ONE_ROW_WORK;

// The scratch for three rows at a time.
pub const THREE_ROWS_WORK: usize = karatsuba::THREE_ROWS_WORK;

// The buffer for the three polynomials that are then multiplied at once.
pub const THREE_ROWS: usize = 256 * AT_ONCE;

// For each i below `rows` the polynomial at place `start` + `step` i among packed ones.
fn cut_into(width: u32, bytes: &[u8], start: usize, step: usize, rows: usize, out: &mut [u16])
    requires { CutLengths width (length bytes.now) start step rows (length out.old) }
    ensures { out.new ≡ blocks rows (λ (i : ℕ). poly (unpacked width bytes.now) (start + step * i)) }
{
    let size = 32 * (width as usize);
    for i in 0..rows {
        let a = size * (start + step * i);
        let b = a + size;
        let p = 256 * i;
        let e = p + 256;
        packing::unpack_into(width, &bytes[a..b], &mut out[p..e]);
    }
}

// Packed polynomials by rows and columns: from place `start` on, a row is `row` places behind the one above it, and a column `column` places behind
// the one before it.
#[derive(Clone, Copy)]
struct Grid<'a> {
    width: u32,
    packed: &'a [u8],
    start: usize,
    row: usize,
    column: usize,
}

impl Grid<'_> {
    ghost use Rattle.matrix.specs.Ensures.{polynomial, sums};
    ghost use Rattle.matrix.specs.Requires.{SumsScratch};

    // For each of the first `rows` rows the sum of the products of its l polynomials and those of s, modulo 65536: zeros, to which each turn adds
    // one product a row. The caller lends a buffer for the polynomials that are multiplied at once, and scratch.
    fn sums_into(
        &self,
        rows: usize,
        l: usize,
        s: &[u16],
        cut: &mut [u16],
        work: &mut [u16],
        out: &mut [u16],
    )
        requires { SumsScratch self.now rows l (length s.now) (length cut.old) (length work.old) (length out.old) }
        ensures { out.new ≡ sums 65536 rows l (polynomial self.now) s.now }
    {
        out.fill(0);
        let cut = &mut cut[..256 * rows];
        for j in 0..l {
            let p = 256 * j;
            let e = p + 256;
            let start = self.start + self.column * j;
            cut_into(self.width, self.packed, start, self.row, rows, cut);
            rows_add(rows, cut, &s[p..e], work, out);
        }
    }
}

// The inner product of two vectors of l polynomials, modulo 65536: zeros, to which each turn adds one product. The caller lends the
// scratch.
pub fn inner_words(l: usize, a: &[u16], s: &[u16], work: &mut [u16]) -> [u16; 256]
    requires { WordsScratch l (length a.now) (length s.now) (length work.old) }
    ensures { result ≡ inner_mod 65536 l a.now (nat s.now) }
{
    let mut acc = [0u16; 256];
    for j in 0..l {
        let p = 256 * j;
        let e = p + 256;
        rows_add(1, &a[p..e], &s[p..e], work, &mut acc);
    }
    acc
}

// The inner product of a vector of l polynomials, packed in 10 bits a coefficient, and s, modulo 1024. The caller lends a buffer for the
// vector, and scratch.
pub fn inner(l: usize, vector: &[u8], s: &[u16], words: &mut [u16], work: &mut [u16]) -> [u16; 256]
    requires { InnerScratch l (length vector.now) (length s.now) (length words.old) (length work.old) }
    ensures { result ≡ inner_mod 1024 l (unpacked 10 vector.now) (nat s.now) }
{
    packing::unpack_into(10, vector, words);
    let mut acc = inner_words(l, words, s, work);
    reduce(1024, &mut acc);
    acc
}

// A matrix of l rows and l columns, packed in 13 bits a coefficient, its rows one after another; or the transposed one, whose rows are its columns.
#[derive(Clone, Copy)]
pub struct Matrix<'a> {
    pub packed: &'a [u8],
    pub l: usize,
    pub transposed: bool,
    ghost whole: { length packed.now ≡ 416 * (l * l) },
}

impl Matrix<'_> {
    ghost use Rattle.matrix.specs.Ensures.{entries};

    // How many places a row is behind the one above it, and a column behind the one before it.
    fn strides(&self) -> (usize, usize)
        ensures row { result.0 ≡ cond (not self.now.transposed) self.now.l 1 }
        ensures column { result.1 ≡ cond self.now.transposed self.now.l 1 }
    {
        if self.transposed {
            (1, self.l)
        } else {
            (self.l, 1)
        }
    }

    // The product of the matrix and s, modulo 8192: `rows` rows of it from row `first` on. The caller lends a buffer for the polynomials that are
    // multiplied at once, and scratch.
    pub fn rows_into(
        &self,
        s: &[u16],
        first: usize,
        rows: usize,
        cut: &mut [u16],
        work: &mut [u16],
        out: &mut [u16],
    )
        requires { RowsScratch self.now.l (length s.now) first rows (length cut.old) (length work.old) (length out.old) }
        ensures { out.new
            ≡ blocks rows (λ (k : ℕ). matrix_row self.now.l (entries self.now) (nat s.now) (first + k)) }
    {
        let (row, column) = self.strides();
        let grid = Grid {
            width: 13,
            packed: self.packed,
            start: row * first,
            row,
            column,
        };
        grid.sums_into(rows, self.l, s, cut, work, out);
        reduce(8192, out);
    }

    // All rows of the product, up to three at a time, with a buffer and scratch for three.
    pub fn product_into(&self, s: &[u16], cut: &mut [u16], work: &mut [u16], out: &mut [u16])
        requires { ProductScratch self.now.l (length s.now) (length cut.old) (length work.old) (length out.old) }
        ensures { out.new ≡ matrix_vector self.now.l (entries self.now) (nat s.now) }
    {
        for first in (0..self.l).step_by(AT_ONCE) {
            let rows = (self.l - first).min(AT_ONCE);
            let end = first + rows;
            self.rows_into(s, first, rows, cut, work, &mut out[256 * first..256 * end]);
        }
    }
}
