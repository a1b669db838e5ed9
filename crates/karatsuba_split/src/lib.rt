// The products of one polynomial b with several others, the rows, at once, by halves, modulo 65536 and with no X^n = -1.
//
// Everything stands in one lent slice and is named by its place, in chunks of 16 as `karatsuba_base` lays them. The halves of a list of
// operands or of products are such lists again, so sums and joins go over whole lists.
#![tactic(auto)]

ghost use Rattle.std.specs.Prelude.{◌≡◌, ℕ, ◌+◌, ◌%◌, ◌≤◌, length, slice_index};
ghost use Rattle.karatsuba_base.specs.Ensures.{Put};
ghost use Rattle.karatsuba_split.specs.Ensures.{Quarters, Joined, Halved};
ghost use Rattle.karatsuba_split.specs.Requires.{SumScratch, JoinScratch, SplitScratch};

use karatsuba_base::{plain, put};

// The m places from x on and those from y on, added, at the place `at`.
#[tactic(auto, using(crate::specs::Laws::Sums::sums_behind))]
fn add(x: usize, y: usize, at: usize, m: usize, work: &mut [u16])
    requires { SumScratch x y at m (length work.old) }
    ensures { Put at m (λ (k : ℕ). (slice_index work.old (x + k) + slice_index work.old (y + k)) % 65536)
        work.old work.new }
{
    let (operands, sums) = work.split_at_mut(at);
    for k in 0..m {
        sums[k] = operands[x + k].wrapping_add(operands[y + k]);
    }
}

// Sixteen places of each of the first three quarters of low + X^h (mid - low - high) + X^(2 h) high, where mid and then high stand at out,
// and low at `low`; a quarter has q places.
fn quarters(work: &[u16], out: usize, low: usize, q: usize) -> [u16; 48]
    requires { (out + q + q + q + 16 ≤ length work.now) × (low + q + 16 ≤ length work.now) }
    ensures { Quarters out low q work.now 16 result }
{
    let upper = low + q;
    let second = out + q;
    let third = second + q;
    let fourth = third + q;
    let mut r = [0u16; 48];
    for k in 0..16 {
        let x = work[upper + k].wrapping_sub(work[third + k]);
        let y = work[out + k].wrapping_sub(work[low + k]);
        let z = work[second + k].wrapping_sub(work[fourth + k]);
        r[k] = work[low + k];
        r[k + 16] = x.wrapping_add(y);
        r[k + 32] = z.wrapping_sub(x);
    }
    r
}

// Their join, at out.
fn join(out: usize, low: usize, q: usize, work: &mut [u16])
    requires { JoinScratch out low q (length work.old) }
    ensures { Joined out low q q work.old work.new }
{
    for i in 0..q / 16 {
        let n = 16 * i;
        let x = out + n;
        let r = quarters(work, x, low + n, q);
        put(&r[0..16], x, work);
        put(&r[16..32], x + q, work);
        put(&r[32..48], x + q + q, work);
    }
}

// The product of b and each row, with no X^n = -1, for operands of `chunks` chunks, a power of two: by halves down to one chunk, with three
// half products instead of four. The sums of the halves stand at `free`, their product and that of the upper halves at out, and then that of
// the lower halves at `free`.
pub fn split(rows: usize, chunks: usize, a: usize, out: usize, free: usize, work: &mut [u16])
    requires { SplitScratch rows chunks a out free work.old }
    ensures { Halved rows chunks a out free work.old work.new }
{
    if chunks == 1 {
        plain(rows, a, out, work);
        return;
    }
    let half = chunks / 2;
    let q = 16 * (rows * half);
    let m = 24 * (rows * half + half);
    let rest = free + m + 8 * half;
    add(a, a + m, free, m, work);
    split(rows, half, a + m, out + q + q, rest, work);
    split(rows, half, free, out, rest, work);
    split(rows, half, a, free, rest, work);
    join(out, free, q, work);
}
