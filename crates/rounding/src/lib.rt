// Rounding of coefficients modulo 8192 to coefficients modulo 1024.
#![tactic(auto, unfolding(questions::specs::Answers::earliest))]

ghost use Rattle.std.specs.Prelude.{◌≡◌, map, length};
ghost use Rattle.questions.specs.Refusals.{answer_of};
ghost use Rattle.rounding.specs.Rounding;
ghost use Rattle.rounding.specs.Promises.{Rounded};

use questions::{Refusal, all_below, ask};

// One coefficient rounded. The sum may wrap, since 8192 divides 65536.
fn round_one(x: u16) -> u16
    ensures { result ≡ Rounding.round x }
{
    x.wrapping_add(4) % 8192 / 8
}

// Each coefficient rounded.
pub fn round_into(x: &[u16], rounded: &mut [u16])
    requires { length rounded.old ≡ length x.now }
    ensures { rounded.new ≡ map Rounding.round x.now }
{
    for k in 0..rounded.len() {
        rounded[k] = round_one(x[k]);
    }
}

// Rounding of one polynomial: Q7, Q8, Q9. The coefficients are read where their count is right.
pub fn round(x: &[u16], rounded: &mut [u16]) -> Result<(), Refusal>
    ensures { Rounded x.now rounded.old (answer_of result) rounded.new }
{
    ask(x.len() == 256, Refusal::InputLength)?;
    ask(all_below(8192, x), Refusal::CoefficientRange)?;
    ask(rounded.len() == 256, Refusal::OutputLength)?;
    round_into(x, rounded);
    Ok(())
}
