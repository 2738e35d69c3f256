// The request `encode RECORD Z PLACES OUTLEN`: the places of a code block, with its parity bits.
use crate::answers::Answer;
use crate::output;
use text::forms::WORDS;
use text::shown::Shown;

pub fn answer(numbers: &[usize; WORDS], record: &[u8], places: &[u8], lent: &mut [u8]) -> Answer {
    output::written(Shown::Places, lent, |lent| {
        parity::code_block(record, numbers[2], places, lent)
    })
}
