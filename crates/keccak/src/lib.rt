// The permutation Keccak-f[1600] of FIPS 202, section 3, on a state of 5 by 5 lanes: a[x][y] is the lane A[x, y], and a[x] a sheet.
#![tactic(auto)]

ghost use Rattle.std.specs.Prelude.{◌≡◌, ◌<◌, ◌^◌, ℕ};
ghost use Rattle.keccak.specs.Keccak.{five, state, parity, effect, theta_at, theta, rho, pi, chi, iota, rnd, keccak_f};

// The round constants.
const RC: [u64; 24] = [
    0x0000000000000001,
    0x0000000000008082,
    0x800000000000808A,
    0x8000000080008000,
    0x000000000000808B,
    0x0000000080000001,
    0x8000000080008081,
    0x8000000000008009,
    0x000000000000008A,
    0x0000000000000088,
    0x0000000080008009,
    0x000000008000000A,
    0x000000008000808B,
    0x800000000000008B,
    0x8000000000008089,
    0x8000000000008003,
    0x8000000000008002,
    0x8000000000000080,
    0x000000000000800A,
    0x800000008000000A,
    0x8000000080008081,
    0x8000000000008080,
    0x0000000080000001,
    0x8000000080008008,
];

// The offsets of rho.
const OFFSETS: [[u32; 5]; 5] = [
    [0, 36, 3, 41, 18],
    [1, 44, 10, 45, 2],
    [62, 6, 43, 15, 61],
    [28, 55, 25, 21, 56],
    [27, 20, 39, 8, 14],
];

// The state whose lane at [x, y] is what f computes of x and y.
fn state<F: Fn(usize, usize) -> u64>(f: F) -> [[u64; 5]; 5]
    requires { (x y : ℕ) → x < 5 → y < 5 → F.pre f x y }
    ensures { (g : ℕ → ℕ → ℕ) → ((x y v : ℕ) → x < 5 → y < 5 → v < 2 ^ 64 → F.post f x y v → v ≡ g x y) → result ≡ state g }
{
    [
        [f(0, 0), f(0, 1), f(0, 2), f(0, 3), f(0, 4)],
        [f(1, 0), f(1, 1), f(1, 2), f(1, 3), f(1, 4)],
        [f(2, 0), f(2, 1), f(2, 2), f(2, 3), f(2, 4)],
        [f(3, 0), f(3, 1), f(3, 2), f(3, 3), f(3, 4)],
        [f(4, 0), f(4, 1), f(4, 2), f(4, 3), f(4, 4)],
    ]
}

fn parity(a: [[u64; 5]; 5], x: usize) -> u64
    requires { x < 5 }
    ensures { result ≡ parity a x }
{
    let s = a[x];
    s[0] ^ s[1] ^ s[2] ^ s[3] ^ s[4]
}

fn effect(a: [[u64; 5]; 5], x: usize) -> u64
    requires { x < 5 }
    ensures { result ≡ effect a x }
{
    parity(a, (x + 4) % 5) ^ parity(a, (x + 1) % 5).rotate_left(1)
}

// Written out, since by `state` a permutation takes 3 % more instructions.
fn theta_sheet(a: [[u64; 5]; 5], x: usize) -> [u64; 5]
    requires { x < 5 }
    ensures { result ≡ five (theta_at a x) }
{
    let d = effect(a, x);
    let s = a[x];
    [s[0] ^ d, s[1] ^ d, s[2] ^ d, s[3] ^ d, s[4] ^ d]
}

fn theta(a: [[u64; 5]; 5]) -> [[u64; 5]; 5]
    ensures { result ≡ theta a }
{
    [
        theta_sheet(a, 0),
        theta_sheet(a, 1),
        theta_sheet(a, 2),
        theta_sheet(a, 3),
        theta_sheet(a, 4),
    ]
}

fn rho(a: [[u64; 5]; 5]) -> [[u64; 5]; 5]
    ensures { result ≡ rho a }
{
    state(|x, y| a[x][y].rotate_left(OFFSETS[x][y]))
}

fn pi(a: [[u64; 5]; 5]) -> [[u64; 5]; 5]
    ensures { result ≡ pi a }
{
    state(|x, y| a[(x + 3 * y) % 5][x])
}

fn chi(a: [[u64; 5]; 5]) -> [[u64; 5]; 5]
    ensures { result ≡ chi a }
{
    state(|x, y| a[x][y] ^ (!a[(x + 1) % 5][y] & a[(x + 2) % 5][y]))
}

fn iota(mut a: [[u64; 5]; 5], c: u64) -> [[u64; 5]; 5]
    ensures { result ≡ iota a c }
{
    a[0][0] ^= c;
    a
}

fn rnd(a: [[u64; 5]; 5], c: u64) -> [[u64; 5]; 5]
    ensures { result ≡ rnd a c }
{
    iota(chi(pi(rho(theta(a)))), c)
}

// The table is a local so that it is made once and not in each round.
pub fn permute(a: [[u64; 5]; 5]) -> [[u64; 5]; 5]
    ensures { result ≡ keccak_f a }
{
    let constants = RC;
    let mut s = a;
    for c in &constants {
        let t = rnd(s, *c);
        s = t;
    }
    s
}
