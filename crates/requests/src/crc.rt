// The request `crc WIDTH BITS`: the checksum of bits.
use crate::answers::Answer;
use text::forms::WORDS;

pub fn answer(numbers: &[usize; WORDS], bits: &[u8]) -> Answer {
    Answer::Sum(checksum::of_bits(numbers[1], bits))
}
