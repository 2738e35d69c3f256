// The request `crctest WIDTH MASK BITS`: whether the bits end in the checksum of those before it, under a mask.
use crate::answers::Answer;
use text::forms::WORDS;

pub fn answer(numbers: &[usize; WORDS], word: &[u8]) -> Answer {
    Answer::Verdict(masked::test(numbers[1], numbers[2] as u64, word))
}
