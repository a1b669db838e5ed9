// The plain products of 16 coefficients of one polynomial b with those of several others, the rows, modulo 65536, in one lent slice.
//
// Coefficients stand in chunks of 16; a chunk of an operand has 8 zeros before it. Operands are laid chunk by chunk: the first chunk of each
// row, then that of b, then the second chunks, and so on; products the same, without b and without zeros. So each chunk of a row has 8 zeros
// on each side, and every window of it is a part of the slice.
#![tactic(auto)]

ghost use Rattle.std.specs.Prelude.{◌≡◌, ℕ, ◌+◌, ◌<◌, ◌≤◌, length, pos, slice_index};
ghost use Rattle.algebra.specs.Integers.{Same};
ghost use Rattle.algebra.specs.Halves.{window};
ghost use Rattle.karatsuba_base.specs.Layout.{reads};
ghost use Rattle.karatsuba_base.specs.Ensures.{Put, Added, Both, Plain};
ghost use Rattle.karatsuba_base.specs.Requires.{TermsLengths, PlainScratch};

// The sum of p_i padded_(t+8-i) for the eight i, modulo 65536; `padded` holds sixteen coefficients between eight zeros on each side.
fn terms(p: &[u16], padded: &[u16], t: usize) -> u16
    requires { TermsLengths (length p.now) (length padded.now) × (t < 24) }
    ensures { Same 65536 (pos result) (window (reads p.now) (reads padded.now) t) }
{
    let mut s = 0u16;
    for i in 0..p.len() {
        s = s.wrapping_add(p[i].wrapping_mul(padded[t + 8 - i]));
    }
    s
}

// The sums, and from place `at` on the product of eight coefficients and the sixteen padded ones added.
#[inline(always)]
fn added(p: &[u16], padded: &[u16], at: usize, sums: [u16; 32]) -> [u16; 32]
    requires { TermsLengths (length p.now) (length padded.now) × (at ≤ 8) }
    ensures { Added p.now padded.now at sums 24 result }
{
    let mut r = sums;
    for k in 0..24 {
        r[at + k] = sums[at + k].wrapping_add(terms(p, padded, k));
    }
    r
}

// The product of sixteen coefficients b and the sixteen padded ones, eight of b at a time.
#[inline(always)]
fn product(b: &[u16], padded: &[u16]) -> [u16; 32]
    requires { (length b.now ≡ 16) × (length padded.now ≡ 32) }
    ensures { Both b.now padded.now result }
{
    let low = added(&b[0..8], padded, 0, [0u16; 32]);
    added(&b[8..16], padded, 8, low)
}

// r, at the place `at`.
pub fn put(r: &[u16], at: usize, work: &mut [u16])
    requires { at + length r.now ≤ length work.old }
    ensures { Put at (length r.now) (λ (k : ℕ). slice_index r.now k) work.old work.new }
{
    for (k, x) in r.iter().enumerate() {
        work[at + k] = *x;
    }
}

// The plain product of 16 coefficients, for one row.
fn plain_one(a: usize, out: usize, work: &mut [u16])
    requires { PlainScratch 1 a out work.old }
    ensures { Plain 1 1 a out work.old work.new }
{
    let b = a + 32;
    let r = product(&work[b..b + 16], &work[a..b]);
    put(&r[0..16], out, work);
    put(&r[16..32], out + 16, work);
}

// The same for several rows, with b read once.
fn plain_rows(rows: usize, a: usize, out: usize, work: &mut [u16])
    requires { PlainScratch rows a out work.old }
    ensures { Plain rows rows a out work.old work.new }
{
    let first = a + 24 * rows + 8;
    let mut b = [0u16; 16];
    b.copy_from_slice(&work[first..first + 16]);
    for i in 0..rows {
        let s = a + 24 * i;
        let r = product(&b, &work[s..s + 32]);
        let x = out + 16 * i;
        put(&r[0..16], x, work);
        put(&r[16..32], x + 16 * rows, work);
    }
}

// The plain product of 16 coefficients for each row.
pub fn plain(rows: usize, a: usize, out: usize, work: &mut [u16])
    requires { PlainScratch rows a out work.old }
    ensures { Plain rows rows a out work.old work.new }
{
    if rows == 1 {
        plain_one(a, out, work);
        return;
    }
    plain_rows(rows, a, out, work);
}
