// Reconciliation: w of a message, the data that encryption sends of it, and the recovery of the message bits.
#![tactic(auto)]

ghost use Rattle.std.specs.Prelude.{◌≡◌, length};
ghost use Rattle.questions.specs.Refusals.{answer_of};
ghost use Rattle.reconciliation.specs.Reconciliation.{masked, bit_of, masked_poly, recon_data, recovered};
ghost use Rattle.reconciliation.specs.Promises.{ReconData, Recovered};
ghost use Rattle.reconciliation.specs.Requires.{ReconLengths, RecoverLengths};

use questions::{Refusal, all_below, ask};
use sets::known_params;

// w of a coefficient: v + 512 × bit, modulo 1024.
fn mask(v: u16, bit: u16) -> u16
    ensures { result ≡ masked v bit }
{
    ((v as u32 + 512 * (bit as u32)) % 1024) as u16
}

// w of a polynomial, from v and the message bits.
#[tactic(auto, using(lists::proofs::Laws::Fill::fill_all), unfolding(crate::specs::Reconciliation::masked_poly))]
pub fn mask_into(v: &[u16; 256], bits: &[u16; 256], w: &mut [u16; 256])
    ensures { w.new ≡ masked_poly v.now bits.now }
{
    for k in 0..256 {
        w[k] = mask(v[k], bits[k]);
    }
}

// The data of each coefficient. The step is a power of two, so the quotient by it is a shift.
#[tactic(auto, unfolding(crate::specs::Reconciliation::recon_data))]
pub fn recon_into(g: u16, w: &[u16], data: &mut [u16])
    requires { ReconLengths g (length w.now) (length «data».old) }
    ensures { «data».new ≡ recon_data g w.now }
{
    let shift = g.trailing_zeros();
    for i in 0..data.len() {
        data[i] = w[i] >> shift;
    }
}

// The bit of one coefficient. A multiple of 1024 keeps the difference from falling below zero.
#[tactic(auto, using(crate::specs::Laws::Reconciliation::mod_around))]
fn bit_of(g: u16, added: u16, v: u16, data: u16) -> u16
    ensures { result ≡ bit_of g added v «data» }
{
    ((v as u32 + added as u32 + (1024 - g as u32 * data as u32 % 1024)) % 1024 / 512) as u16
}

// The bit of each coefficient.
#[tactic(auto, using(lists::proofs::Laws::Fill::fill_all), unfolding(crate::specs::Reconciliation::recovered))]
pub fn recover_into(g: u16, added: u16, v: &[u16], data: &[u16], bits: &mut [u16])
    requires { RecoverLengths (length v.now) (length «data».now) (length bits.old) }
    ensures { bits.new ≡ recovered g added v.now «data».now }
{
    for i in 0..bits.len() {
        bits[i] = bit_of(g, added, v[i], data[i]);
    }
}

// Reconciliation data of a polynomial: Q1, Q7, Q8, Q9. The coefficients are read where set and count are right.
#[tactic(auto, using(sets::specs::Laws::Sets::is_set_lem), unfolding(questions::specs::Answers::earliest))]
pub fn recon_data(set: u32, w: &[u16], data: &mut [u16]) -> Result<(), Refusal>
    ensures { ReconData set w.now «data».old (answer_of result) «data».new }
{
    let p = known_params(set).ok_or(Refusal::UnknownSet)?;
    ask(w.len() == 256, Refusal::InputLength)?;
    ask(all_below(1024, w), Refusal::CoefficientRange)?;
    ask(data.len() == 256, Refusal::OutputLength)?;
    recon_into(p.g, w, data);
    Ok(())
}

// Recovery of the message bits: Q1, Q7, Q8, Q9. The bound of data, 1024 / g, is 2 t. Each list is read whatever the other
// holds.
#[tactic(auto, using(sets::specs::Laws::Sets::data_bound), unfolding(questions::specs::Answers::earliest))]
pub fn recover(set: u32, v: &[u16], data: &[u16], bits: &mut [u16]) -> Result<(), Refusal>
    ensures { Recovered set v.now «data».now bits.old (answer_of result) bits.new }
{
    let p = known_params(set).ok_or(Refusal::UnknownSet)?;
    ask(v.len() == 256, Refusal::InputLength)?;
    ask(data.len() == 256, Refusal::InputLength)?;
    let bound = 2 * p.t as u32;
    let v_below = all_below(1024, v);
    let data_below = all_below(bound, data);
    ask(data_below, Refusal::CoefficientRange)?;
    ask(v_below, Refusal::CoefficientRange)?;
    ask(bits.len() == 256, Refusal::OutputLength)?;
    recover_into(p.g, p.margin, v, data, bits);
    Ok(())
}
