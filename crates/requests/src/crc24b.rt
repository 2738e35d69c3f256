// The request `crc24b BITS`: the checksum that edition 2 puts behind a code block's own bits.
use crate::answers::Answer;

pub fn answer(bits: &[u8]) -> Answer {
    Answer::Sum(blocksum::of_block_bits(bits))
}
