// Checksums, plain, of a code block and under a mask.
ghost use Rattle.checksum.specs.Promises.{OfBits, OfOctets};
ghost use Rattle.blocksum.specs.Promises.{OfBlockBits};
ghost use Rattle.masked.specs.Promises.{SumUnder, Appended, WordTested};

use bits::number::Written;
use checksum::Sum;
use masked::Tested;

pub fn kuambyte_checksum_of_bits(width: usize, bits: &[u8]) -> Sum
    ensures { OfBits width bits.now result }
{
    Sum::from(checksum::of_bits(width, bits))
}

pub fn kuambyte_checksum_of_octets(width: usize, octets: &[u8]) -> Sum
    ensures { OfOctets width octets.now result }
{
    Sum::from(checksum::of_octets(width, octets))
}

pub fn kuambyte_checksum_of_block_bits(bits: &[u8]) -> Sum
    ensures { OfBlockBits bits.now result }
{
    Sum::from(blocksum::of_block_bits(bits))
}

pub fn kuambyte_sum_under(width: usize, mask: u64, bits: &[u8]) -> Sum
    ensures { SumUnder width mask bits.now result }
{
    Sum::from(masked::sum_under(width, mask, bits))
}

pub fn kuambyte_append_under(width: usize, mask: u64, bits: &[u8], out: &mut [u8]) -> Written
    ensures { Appended width mask bits.now out.old result out.new }
{
    Written::from(masked::append(width, mask, bits, out))
}

pub fn kuambyte_test_under(width: usize, mask: u64, word: &[u8]) -> Tested
    ensures { WordTested width mask word.now result }
{
    Tested::from(masked::test(width, mask, word))
}
