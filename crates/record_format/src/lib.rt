// The record of a sealed entry: the numbers of an entry; definitions, promises and laws, in specs/ and proofs/.
#![tactic(auto)]

// The numbers of an entry. A door and a time may be missing.
#[derive(Clone, Copy)]
pub struct Head {
    pub door: Option<u32>,
    pub time: Option<u64>,
    pub set: u32,
}
