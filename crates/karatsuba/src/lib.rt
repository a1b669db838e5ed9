// The ring product by halves, and the form of it that the scheme uses: one polynomial times several.
#![tactic(auto)]

ghost use Rattle.std.specs.Prelude.{◌≡◌, ℕ, ◌+◌, ◌*◌, ◌≤◌, length};
ghost use Rattle.lists.specs.Lists.{from};
ghost use Rattle.algebra.specs.Ring.{poly, blocks};
ghost use Rattle.questions.specs.Refusals.{answer_of};
ghost use Rattle.ring.specs.Promises.{Multiplied};
ghost use Rattle.karatsuba.specs.Ensures.{fold_at, fold_row, Chunk, LaidChunk, Laid, source, rows_added};
ghost use Rattle.karatsuba.specs.Requires.{LayScratch, ChunkScratch, FoldedScratch, RowsScratch};

use karatsuba_base::put;
use questions::Refusal;

// The scratch that `rows_add` requires for one row: 1256 places a row, and 864.
pub const ONE_ROW_WORK: usize = 1256 + 864;

// The same for three rows.
pub const THREE_ROWS_WORK: usize = 3 * 1256 + 864;

// A chunk: sixteen coefficients from place s on, behind 8 zeros.
fn chunk(f: &[u16], s: usize) -> [u16; 24]
    requires { s + 16 ≤ length f.now }
    ensures { Chunk f.now s 16 result }
{
    let mut r = [0u16; 24];
    for k in 0..16 {
        r[k + 8] = f[s + k];
    }
    r
}

// Chunk g of each row and of b, at the place `at`.
fn lay_chunk(rows: usize, a: &[u16], b: &[u16], g: usize, at: usize, work: &mut [u16])
    requires { ChunkScratch rows (length a.now) (length b.now) g (at + 24 * (rows + 1)) (length work.old) }
    ensures { LaidChunk (source rows a.now b.now) g (rows + 1) at work.old work.new }
{
    for i in 0..rows {
        let r = chunk(a, 256 * i + 16 * g);
        put(&r, at + 24 * i, work);
    }
    let r = chunk(b, 16 * g);
    put(&r, at + 24 * rows, work);
}

// The operands, from the front.
fn lay(rows: usize, a: &[u16], b: &[u16], work: &mut [u16])
    requires { LayScratch rows (length a.now) (length b.now) (length work.old) }
    ensures { Laid rows (source rows a.now b.now) 16 work.old work.new }
{
    for g in 0..16 {
        lay_chunk(rows, a, b, g, 24 * ((rows + 1) * g), work);
    }
}

// Sixteen places of old + x - y, from o, x and y on.
fn folded(work: &[u16], x: usize, y: usize, old: &[u16], o: usize) -> [u16; 16]
    requires { FoldedScratch x y (length work.now) o (length old.now) }
    ensures { result ≡ from 16 (fold_at work.now x y old.now o) }
{
    let mut r = [0u16; 16];
    for k in 0..16 {
        r[k] = old[o + k].wrapping_add(work[x + k].wrapping_sub(work[y + k]));
    }
    r
}

// The product whose first chunk stands at x and whose next chunk is s places on, folded by X^256 = -1 and added to out.
fn fold_row(work: &[u16], x: usize, s: usize, out: &mut [u16])
    requires { (x + 31 * s + 16 ≤ length work.now) × (length out.old ≡ 256) }
    ensures { out.new ≡ from 256 (fold_row work.now x s out.old) }
{
    for g in 0..16 {
        let p = x + s * g;
        let r = folded(work, p, p + 16 * s, out, 16 * g);
        put(&r, 16 * g, out);
    }
}

// The same for each row, the products at x.
fn fold(rows: usize, work: &[u16], x: usize, out: &mut [u16])
    requires { (x + 512 * rows ≤ length work.now) × (length out.old ≡ 256 * rows) }
    ensures { out.new
        ≡ blocks rows (λ (i : ℕ). from 256 (fold_row work.now (x + 16 * i) (16 * rows) (poly out.old i))) }
{
    for i in 0..rows {
        let p = 256 * i;
        fold_row(work, x + 16 * i, 16 * rows, &mut out[p..p + 256]);
    }
}

// To each polynomial of out the product of b and the same one of a, modulo 65536. The caller lends the scratch `work`.
pub fn rows_add(rows: usize, a: &[u16], b: &[u16], work: &mut [u16], out: &mut [u16])
    requires { RowsScratch rows (length a.now) (length b.now) (length work.old) (length out.old) }
    ensures { out.new ≡ rows_added rows a.now b.now out.old }
{
    let x = 384 * (rows + 1);
    lay(rows, a, b, work);
    karatsuba_split::split(rows, 16, 0, x, x + 512 * rows, work);
    fold(rows, work, x, out);
}

// The ring product by halves: Q2, Q7, Q8, Q9.
#[tactic(auto, using(ring::specs::Laws::Products::mul_fits, ring::specs::Laws::Products::mul_modulus))]
pub fn poly_mul_karatsuba(
    modulus: u32,
    a: &[u16],
    b: &[u16],
    product: &mut [u16],
) -> Result<(), Refusal>
    ensures { Multiplied modulus a.now b.now product.old (answer_of result) product.new }
{
    ring::mul_answer(modulus, a, b, product.len())?;
    let mut work = [0u16; ONE_ROW_WORK];
    product.fill(0);
    rows_add(1, a, b, &mut work, product);
    ring::reduce(modulus as u16, product);
    Ok(())
}
