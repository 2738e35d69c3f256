// The request `tbsend BITS E OUTLEN`: the bits that are sent of a control word.
use crate::answers::Answer;
use crate::output;
use bits::count::CodedBits;
use text::forms::WORDS;
use text::shown::Shown;

pub fn answer(numbers: &[usize; WORDS], word: &[u8], lent: &mut [u8]) -> Answer {
    let e = CodedBits(numbers[2]);
    output::written(Shown::Bits, lent, |lent| {
        control::send_word(word, e, lent)
    })
}
