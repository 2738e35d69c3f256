// The request `tbenc BITS OUTLEN`: the three streams that a control word is coded to.
use crate::answers::Answer;
use crate::output;
use text::shown::Shown;

pub fn answer(word: &[u8], lent: &mut [u8]) -> Answer {
    output::written(Shown::Bits, lent, |lent| { control::code_word(word, lent) })
}
