// The request `tbback D BITS OUTLEN`: the three streams of a control word that were sent as these bits.
use crate::answers::Answer;
use crate::output;
use text::forms::WORDS;
use text::shown::Shown;

pub fn answer(numbers: &[usize; WORDS], bits: &[u8], lent: &mut [u8]) -> Answer {
    output::written(Shown::Bits, lent, |lent| {
        control::streams_of(numbers[1], bits, lent)
    })
}
