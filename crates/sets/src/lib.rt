// The parameter sets by number.
#![tactic(auto)]

ghost use Rattle.std.specs.Prelude.{◌≡◌, is_some, IfSome};
ghost use Rattle.sets.specs.Sets.{params_of, known};

// The parameters of a set. An unknown set has 0 everywhere.
#[derive(Clone, Copy)]
pub struct Params {
    // the set's own number, never 0
    pub number: u32,
    // polynomials in a vector
    pub l: usize,
    // bits that make a coefficient of a secret
    pub mu: usize,
    pub t: u16,
    // step of reconciliation
    pub g: u16,
    // bits of a number of reconciliation data
    pub bits: u32,
    // bytes of a public key, a secret key and a ciphertext
    pub pk: usize,
    pub sk: usize,
    pub ct: usize,
    pub margin: u16,
}

// The parameters of a set number; 0 means Saber.
#[tactic(auto, using(crate::specs::Laws::Sets::unknown_from), unfolding(crate::specs::Sets::params_of))]
pub fn set_params(set: u32) -> Params
    ensures { result ≡ params_of set }
{
    match set {
        1 => Params {
            number: 1,
            l: 2,
            mu: 10,
            t: 4,
            g: 128,
            bits: 3,
            pk: 672,
            sk: 1568,
            ct: 736,
            margin: 192,
        },
        0 | 2 => Params {
            number: 2,
            l: 3,
            mu: 8,
            t: 8,
            g: 64,
            bits: 4,
            pk: 992,
            sk: 2304,
            ct: 1088,
            margin: 224,
        },
        3 => Params {
            number: 3,
            l: 4,
            mu: 6,
            t: 32,
            g: 16,
            bits: 6,
            pk: 1312,
            sk: 3040,
            ct: 1472,
            margin: 248,
        },
        4..=4294967295 => Params {
            number: 0,
            l: 0,
            mu: 0,
            t: 0,
            g: 0,
            bits: 0,
            pk: 0,
            sk: 0,
            ct: 0,
            margin: 0,
        },
    }
}

// The parameters of a number that means a set.
pub fn known_params(set: u32) -> Option<Params>
    ensures known { is_some result ≡ known set }
    ensures params { IfSome result (λ p. p ≡ params_of set) }
{
    let p = set_params(set);
    if 0 < p.l { Some(p) } else { None }
}
