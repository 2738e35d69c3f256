// The checksum of a code block, by which edition 2 notices a bad one early (document 02, CR 8).
#![tactic(auto)]

pub mod inner;

ghost use Rattle.checksum.specs.Promises.{summed};
ghost use Rattle.blocksum.specs.Promises.{OfBlockBits};

use bits::number::Refusal;

// The 24B checksum of bits that stand one to an octet.
pub fn of_block_bits(bits: &[u8]) -> Result<u32, Refusal>
    ensures { OfBlockBits bits.now (summed result) }
{
    if bits::inner::some_over(1, bits) {
        return Err(Refusal::NoBit);
    }
    Ok(inner::sum(bits))
}
