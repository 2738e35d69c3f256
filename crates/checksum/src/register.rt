// The checksum's register of w bits, by shifts and masks.
ghost use Rattle.std.specs.Prelude.{◌≡◌, ◌-◌, ◌*◌, ◌/◌, ◌%◌, ◌^◌, ◌≤◌, ◌<◌};
ghost use Rattle.checksum.specs.Steps.Register.{Generator, stepped};

// The w low bits of x.
pub fn cut(x: u32, w: u32) -> u32
    requires { w < 32 }
    ensures { result ≡ x % 2 ^ w }
{
    x & ((1u32 << w) - 1)
}

// The register's highest octet.
pub fn top_octet(reg: u32, w: u32) -> u32
    requires { (8 ≤ w) × (w ≤ 32) × (reg < 2 ^ w) }
    ensures { (result ≡ reg / 2 ^ (w - 8)) × (result < 256) }
{
    reg >> (w - 8)
}

// The octet below it: the highest once the register is moved up by eight bits. Of a wide register it is read where it stands, and not from what was moved.
pub fn next_octet(reg: u32, w: u32) -> u32
    requires { (8 ≤ w) × (w ≤ 24) × (reg < 2 ^ w) }
    ensures { (result ≡ (reg * 2 ^ 8) % 2 ^ w / 2 ^ (w - 8)) × (result < 256) }
{
    if w < 16 {
        return top_octet(cut(reg << 8, w), w);
    }
    (reg >> (w - 16)) & 255
}

// One bit into the register.
pub fn step(reg: u32, bit: u32, w: u32, g: u32) -> u32
    requires { Generator w g × (reg < 2 ^ w) × (bit < 2) }
    ensures { result ≡ stepped w g reg bit }
{
    let x = (reg << 1) ^ (bit << w);
    let low = cut(x, w);
    if x >> w == 0 { low } else { low ^ g }
}
