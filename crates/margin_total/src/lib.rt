// Groups of seeds: the figures of each, and those of many together.
#![tactic(auto)]

ghost use Rattle.std.specs.Prelude.{◌≡◌, length};
ghost use Rattle.sets.specs.Requires.{IsSet};
ghost use Rattle.margin_total.specs.Ensures.{Measured, Totalled};

use margin_group::{norm_of, wrong_of};
use sets::Params;

// What is found of a group: the norm of its noise, and the message bits that decryption gives wrong.
#[derive(Clone, Copy)]
pub struct Figures {
    pub norm: usize,
    pub wrong: usize,
}

// What is found of many: how many they are, the largest norm, and the wrong bits of all.
#[derive(Clone, Copy)]
pub struct Totals {
    pub cases: usize,
    pub norm: usize,
    pub wrong: usize,
}

// The figures of a group of 96 bytes. z plays no part, and is zeros.
fn figures_of(p: Params, group: &[u8]) -> Figures
    requires { IsSet p × (length group.now ≡ 96) }
    ensures { Measured p group.now result }
{
    let mut secret = [0u16; 1024];
    let mut public_key = [0u8; 1312];
    let mut secret_key = [0u8; 3040];
    let public_key = &mut public_key[..p.pk];
    let secret_key = &mut secret_key[..p.sk];
    let z = [0u8; 32];
    keys::keygen_with(
        p,
        &group[0..32],
        &group[32..64],
        &z,
        &mut secret[..256 * p.l],
        public_key,
        secret_key,
    );
    let message = sha3::hash256(&group[64..96]);
    let hash = sha3::hash256(public_key);
    let kr = kdf::key_and_coins(&message, &hash);
    let norm = norm_of(p, public_key, &group[32..64], &kr[32..64]);
    let wrong = wrong_of(p, public_key, secret_key, &message, &kr[32..64]);
    Figures { norm, wrong }
}

// The figures of the groups of a string of bytes together: the whole ones, and at most 4096.
pub fn totals_of(p: Params, bytes: &[u8]) -> Totals
    requires { IsSet p }
    ensures { Totalled p bytes.now result }
{
    let cases = (bytes.len() / 96).min(4096);
    let mut norm = 0;
    let mut wrong = 0;
    for i in 0..cases {
        let figures = figures_of(p, &bytes[96 * i..96 * i + 96]);
        norm = norm.max(figures.norm);
        wrong += figures.wrong;
    }
    Totals { cases, norm, wrong }
}
