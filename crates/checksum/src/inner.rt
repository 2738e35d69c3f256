// Checksums where the width was tested: of octets by its table, of single bits by any generator that it has room for; and masks.
ghost use Rattle.std.specs.Prelude.{◌≡◌, false, ◌+◌, ◌-◌, ◌*◌, ◌%◌, ◌^◌, ◌≤◌, length, take};
ghost use Rattle.std.proofs.lemmas.List.Edits.{sets};
ghost use Rattle.bits.specs.Bits.{AreBits, unpacked};
ghost use Rattle.checksum.specs.Crc.{checksum};
ghost use Rattle.checksum.specs.Masked.{under, attached_under, tests_under};
ghost use Rattle.checksum.specs.Promises.{generator, other_width};
ghost use Rattle.checksum.specs.Steps.Register.{Generator};

use crate::{register, table};

// The checksum of packed octets, from the table of its width.
pub fn sum_octets(octets: &[u8], w: u32) -> u32
    requires { other_width w ≡ false }
    ensures { result ≡ checksum w (generator w) (unpacked octets.now) }
{
    match w {
        24 => table::sum_by(octets, 24, &table::LEFT24A),
        16 => table::sum_by(octets, 16, &table::LEFT16),
        _ => table::sum_by(octets, 8, &table::LEFT8),
    }
}

// The checksum of bits that stand one to an octet.
pub fn sum_bits(bits: &[u8], w: u32, g: u32) -> u32
    requires { Generator w g × AreBits bits.now }
    ensures { result ≡ checksum w g bits.now }
{
    let mut r = 0;
    for bit in bits {
        r = register::step(r, *bit as u32, w, g);
    }
    r
}

// The w low bits of a mask: whatever is past the width is cut off here and nowhere else.
fn low(mask: u64, w: u32) -> u32
    requires { w ≤ 32 }
    ensures { result ≡ mask % 2 ^ w }
{
    (mask & ((1u64 << w) - 1)) as u32
}

// A sum under a mask: without carry, so that the same mask takes itself away again.
pub fn under(sum: u32, w: u32, mask: u64) -> u32
    requires { w ≤ 32 }
    ensures { result ≡ under w mask sum }
{
    sum ^ low(mask, w)
}

// Writes the bits of packed octets, and then the bits of their checksum under a mask.
pub fn attach(octets: &[u8], w: u32, mask: u64, out: &mut [u8])
    requires { (other_width w ≡ false) × (8 * length octets.now + w ≤ length out.old) }
    ensures { out.new ≡ sets out.old 0 (attached_under w (generator w) mask (unpacked octets.now)) }
{
    bits::inner::unpack(octets, out, 0);
    let sum = under(sum_octets(octets, w), w, mask);
    let a = 8 * octets.len();
    bits::inner::put_number(out, a, sum, w);
}

// Whether the last w bits are the checksum of those before them, under a mask; `octets` has these packed. It is recomputed, and compared.
pub fn is_attached(bits: &[u8], octets: &[u8], w: u32, mask: u64) -> bool
    requires { (other_width w ≡ false) × (w ≤ length bits.now) × AreBits bits.now × (unpacked octets.now ≡ take (length bits.now - w) bits.now) }
    ensures { result ≡ tests_under w (generator w) mask bits.now }
{
    let a = bits.len() - w as usize;
    under(sum_octets(octets, w), w, mask) == bits::inner::get_number(bits, a, w)
}
