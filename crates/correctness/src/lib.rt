// The claim that what is encapsulated to a generated key comes back, where the noise is within its bounds: definitions and laws, in specs/.
#![tactic(auto)]

// The set numbers that the four calls are made with.
#[derive(Clone, Copy)]
pub struct SetNumbers {
    pub keygen: u32,
    pub encaps: u32,
    pub decrypt: u32,
    pub decaps: u32,
}
