// The request `sums RECORD Z BITS OUTLEN`: what each row of the spread-out matrix sums to over the bits, modulo two.
use crate::answers::Answer;
use crate::output;
use text::forms::WORDS;
use text::shown::Shown;

pub fn answer(numbers: &[usize; WORDS], record: &[u8], bits: &[u8], lent: &mut [u8]) -> Answer {
    output::written(Shown::Places, lent, |lent| {
        checking::row_sums(record, numbers[2], bits, lent)
    })
}
