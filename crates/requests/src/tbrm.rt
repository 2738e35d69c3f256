// The request `tbrm D STREAMS E OUTLEN`: the bits that are sent of three streams of a control word.
use crate::answers::Answer;
use crate::output;
use bits::count::CodedBits;
use text::forms::WORDS;
use text::shown::Shown;

pub fn answer(numbers: &[usize; WORDS], streams: &[u8], lent: &mut [u8]) -> Answer {
    let e = CodedBits(numbers[3]);
    output::written(Shown::Bits, lent, |lent| {
        control::match_streams(numbers[1], streams, e, lent)
    })
}
