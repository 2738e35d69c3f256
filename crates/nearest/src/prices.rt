// What a step costs: in how many of its three outputs a register differs from the three bits that are heard.
ghost use Rattle.std.specs.Prelude.{◌≡◌, ◌+◌, ◌*◌, ◌<◌, ◌≤◌, length};
ghost use Rattle.std.specs.Int.Bits.{bit_xor};
ghost use Rattle.std.specs.Int.Count.{ones};
ghost use Rattle.bits.specs.Bits.{AreBits};
ghost use Rattle.nearest.specs.Steps.Trellis.{three_of, heard_at, price};
ghost use Rattle.nearest.specs.Steps.Rows.{Evens, Priced, Prices, Heard};

use control::inner::output;

// The three outputs of a register, that of 133 highest.
fn three(r: u32) -> u8
    ensures { result ≡ three_of r }
{
    output(0o133, r) * 4 + output(0o171, r) * 2 + output(0o165, r)
}

// In how many bits two octets differ.
fn apart(x: u8, y: u8) -> u16
    ensures { result ≡ ones (bit_xor x y) }
{
    (x ^ y).count_ones() as u16
}

// The outputs of the even registers below 64.
fn evens() -> [u8; 32]
    ensures { Evens 32 result }
{
    let mut t = [0u8; 32];
    for j in 0..32 {
        t[j] = three(2 * j as u32);
    }
    t
}

// What the even registers below 64 cost where h is heard.
fn prices_at(h: u8, evens: &[u8; 32]) -> [u16; 32]
    requires { (h < 8) × Evens 32 evens.now }
    ensures { Priced h 32 result }
{
    let mut t = [0u16; 32];
    for j in 0..32 {
        t[j] = apart(evens[j], h);
    }
    t
}

// What the even registers below 64 cost, for each of the eight that can be heard, made once for all steps. Every generator has its first and its last tap, so
// another newest or oldest bit turns all three outputs round, and the other registers need no places.
pub fn prices() -> [[u16; 32]; 8]
    ensures { Prices 8 result }
{
    let evens = evens();
    let mut t = [[0u16; 32]; 8];
    for h in 0..8 {
        t[h] = prices_at(h as u8, &evens);
    }
    t
}

// Three bits as one number, the first one highest.
fn joined(x: u8, y: u8, z: u8) -> u8
    requires { (x < 2) × (y < 2) × (z < 2) }
    ensures { result ≡ x * 4 + y * 2 + z }
{
    x * 4 + y * 2 + z
}

// The three bits heard at step k, in the order of the outputs.
fn heard_at(d: usize, heard: &[u8], k: usize) -> u8
    requires { (d + d + k < length heard.now) × AreBits heard.now }
    ensures { result ≡ heard_at d heard.now k }
{
    joined(heard[k], heard[d + k], heard[d + d + k])
}

// What is heard at each step.
pub fn steps(d: usize, heard: &[u8]) -> [u8; 128]
    requires { (d ≤ 128) × (length heard.now ≡ d + d + d) × AreBits heard.now }
    ensures { Heard d heard.now d result }
{
    let mut t = [0u8; 128];
    for k in 0..d {
        t[k] = heard_at(d, heard, k);
    }
    t
}

// What the bit 0 costs from the state s on where h is heard. The bit 1 costs the rest of three.
pub fn zero_price(prices: &[[u16; 32]; 8], h: u8, s: usize) -> u16
    requires { (h < 8) × (s < 64) × Prices 8 prices.now }
    ensures { (result ≡ price h s) × (result ≤ 3) }
{
    let x = prices[usize::from(h)][s / 2];
    if s % 2 == 0 { x } else { 3 - x }
}
