// The request `crcm WIDTH MASK BITS`: the checksum of bits under a mask.
use crate::answers::Answer;
use text::forms::WORDS;

pub fn answer(numbers: &[usize; WORDS], bits: &[u8]) -> Answer {
    Answer::Sum(masked::sum_under(numbers[1], numbers[2] as u64, bits))
}
