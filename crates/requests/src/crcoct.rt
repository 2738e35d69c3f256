// The request `crcoct WIDTH PACKED`: the checksum of packed octets.
use crate::answers::Answer;
use text::forms::WORDS;

pub fn answer(numbers: &[usize; WORDS], octets: &[u8]) -> Answer {
    Answer::Sum(checksum::of_octets(numbers[1], octets))
}
