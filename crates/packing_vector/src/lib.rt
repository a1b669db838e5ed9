// Packing to a place of a larger output.
#![tactic(auto)]

ghost use Rattle.std.specs.Prelude.{◌≡◌, length};
ghost use Rattle.lists.specs.Strings.{placed};
ghost use Rattle.packing.specs.Packing.{packed};
ghost use Rattle.packing_vector.specs.Requires.{PlaceLengths};

// Packs a polynomial, or those of a vector one behind another, at a place of a larger output. No other byte of it changes.
#[tactic(auto, using(crate::specs::Laws::Places::part_fills), unfolding(lists::specs::Strings::placed))]
pub fn pack_at(width: u32, coefficients: &[u16], place: usize, out: &mut [u8])
    requires { PlaceLengths width (length coefficients.now) place (length out.old) }
    ensures { out.new ≡ placed place (packed width coefficients.now) out.old }
{
    let end = place + coefficients.len() / 8 * (width as usize);
    packing::pack_into(width, coefficients, &mut out[place..end]);
}
