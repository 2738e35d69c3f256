// The request `rate E PLACES OUTLEN type=1 rv=0`: the bits that are sent of a coded block.
use crate::answers::Answer;
use crate::output;
use bits::count::CodedBits;
use text::forms::WORDS;
use text::shown::Shown;

pub fn answer(numbers: &[usize; WORDS], places: &[u8], lent: &mut [u8]) -> Answer {
    let e = CodedBits(numbers[1]);
    output::written(Shown::Bits, lent, |lent| {
        matching::rate_match(places, numbers[4], numbers[5], e, lent)
    })
}
