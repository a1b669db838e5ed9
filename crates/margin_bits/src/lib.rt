// In how many bits two messages differ.
#![tactic(auto)]

ghost use Rattle.std.specs.Prelude.{ℕ, not, count_by, ◌≡◌, eqb, length};
ghost use Rattle.std.specs.List.{zip};
ghost use Rattle.packing.specs.Packing.{unpacked};
ghost use Rattle.margin_bits.specs.Bits.{differing};

// Whether two numbers differ.
fn differ(x: u16, y: u16) -> bool
    ensures { result ≡ not (eqb x y) }
{
    x != y
}

// In how many places two lists differ, by the pairs that are not the same.
fn differing_of(a: &[u16], b: &[u16]) -> usize
    ensures { result ≡ count_by (λ (p : ℕ × ℕ). not (eqb p.0 p.1)) (zip a.now b.now) }
{
    a.iter().zip(b).filter(|&(&x, &y)| differ(x, y)).count()
}

// In how many bits two strings of 32 bytes differ.
#[tactic(auto, using(crate::specs::Laws::Bits::differing_pairs))]
pub fn wrong_bits(sent: &[u8], received: &[u8]) -> usize
    requires { (length sent.now ≡ 32) × (length received.now ≡ 32) }
    ensures { result ≡ differing (unpacked 1 sent.now) (unpacked 1 received.now) }
{
    let mut a = [0u16; 256];
    let mut b = [0u16; 256];
    packing::unpack_into(1, sent, &mut a);
    packing::unpack_into(1, received, &mut b);
    differing_of(&a, &b)
}
