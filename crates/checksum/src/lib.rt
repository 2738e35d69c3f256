// The checksums of section 5.1.1, of single bits and of packed octets, for each of the three widths.
#![tactic(auto)]

pub mod inner;
mod register;
mod table;

ghost use Rattle.std.specs.Prelude.{◌≡◌};
ghost use Rattle.bits.specs.Refusals.{number_of};
ghost use Rattle.checksum.specs.Promises.{generator, other_width, bits_number, summed, OfBits, OfOctets};

use bits::number::Refusal;

// The generators of 5.1.1 without their top bit.
const GEN24A: u32 = 0x864CFB;

const GEN16: u32 = 0x1021;

const GEN8: u32 = 0x9B;

// What C is answered by a call that sums: its number, and the checksum, 0 with a refusal.
#[repr(C)]
#[derive(Clone, Copy)]
pub struct Sum {
    pub number: u32,
    pub value: u32,
}

impl From<Result<u32, Refusal>> for Sum {
    ghost from_gives = { λ answer r. r ≡ summed answer };

    fn from(answer: Result<u32, Refusal>) -> Sum {
        match answer {
            Ok(value) => Sum { number: 0, value },
            Err(refusal) => Sum {
                number: refusal.number(),
                value: 0,
            },
        }
    }
}

// The generator of a width, 0 where there is none.
#[tactic(auto, unfolding(crate::specs::Promises::generator))]
fn generator_of(width: usize) -> u32
    ensures { result ≡ generator width }
{
    match width {
        24 => GEN24A,
        16 => GEN16,
        8 => GEN8,
        _ => 0,
    }
}

#[tactic(auto, unfolding(crate::specs::Promises::other_width))]
fn is_other_width(width: usize) -> bool
    ensures { result ≡ other_width width }
{
    !matches!(width, 8 | 16 | 24)
}

#[tactic(auto, unfolding(crate::specs::Promises::bits_number, bits::specs::Numbers::answered))]
fn admit_bits(width: usize, bits: &[u8]) -> Result<(), Refusal>
    ensures { number_of result ≡ bits_number width bits.now }
{
    let other = is_other_width(width);
    let over = bits::inner::some_over(1, bits);
    if other {
        return Err(Refusal::Parameter);
    }
    if over {
        return Err(Refusal::NoBit);
    }
    Ok(())
}

// The checksum of bits that stand one to an octet.
pub fn of_bits(width: usize, bits: &[u8]) -> Result<u32, Refusal>
    ensures { OfBits width bits.now (summed result) }
{
    admit_bits(width, bits)?;
    Ok(inner::sum_bits(bits, width as u32, generator_of(width)))
}

// The checksum of packed octets, the highest bit of each first.
pub fn of_octets(width: usize, octets: &[u8]) -> Result<u32, Refusal>
    ensures { OfOctets width octets.now (summed result) }
{
    if is_other_width(width) {
        return Err(Refusal::Parameter);
    }
    Ok(inner::sum_octets(octets, width as u32))
}
