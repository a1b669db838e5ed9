// Strings of bytes: copied, compared, chosen and joined.
#![tactic(auto)]

ghost use Rattle.std.specs.Prelude.{cond, ◌++◌, ◌≡◌, ◌+◌, ◌≤◌, eqb, length};
ghost use Rattle.lists.specs.Strings.{same, placed};

// Copies a string to a place of a larger one.
pub fn copy_at(from: &[u8], at: usize, to: &mut [u8])
    requires { at + length from.now ≤ length to.old }
    ensures { to.new ≡ placed at from.now to.old }
{
    for i in 0..from.len() {
        to[at + i] = from[i];
    }
}

// The bits in which bytes of two strings of one length differ, gathered: 0 where the strings are the same. Every byte is compared, also after a
// difference.
pub fn difference(a: &[u8], b: &[u8]) -> u8
    requires { length a.now ≡ length b.now }
    ensures { eqb result 0 ≡ same a.now b.now }
{
    let mut bits = 0u8;
    for i in 0..a.len() {
        bits |= a[i] ^ b[i];
    }
    bits
}

// a where the difference is 0, else b: a mask of ones or of zeros turns the bits of a in which they differ, or none. From a `bool` instead of the
// difference the compiler makes a choice of two addresses.
fn either(difference: u8, a: u8, b: u8) -> u8
    ensures { result ≡ cond (eqb difference 0) a b }
{
    let mask = ((difference as u16 + 255) / 256 * 255) as u8;
    a ^ (mask & (a ^ b))
}

// Writes a where the difference is 0, else b, two strings of one length. All bytes of both are read.
pub fn choose(difference: u8, a: &[u8], b: &[u8], out: &mut [u8])
    requires { (length a.now ≡ length out.old) × (length b.now ≡ length out.old) }
    ensures { out.new ≡ cond (eqb difference 0) a.now b.now }
{
    for i in 0..out.len() {
        out[i] = either(difference, a[i], b[i]);
    }
}

// Writes two strings, one after the other.
pub fn join(a: &[u8], b: &[u8], out: &mut [u8])
    requires { length out.old ≡ length a.now + length b.now }
    ensures { out.new ≡ a.now ++ b.now }
{
    copy_at(a, 0, out);
    copy_at(b, a.len(), out);
}
