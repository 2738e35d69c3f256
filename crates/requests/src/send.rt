// The request `send RECORD BLOCK NL QM G OUTLEN rv=0 ed=1`: the bits that are sent of a block.
use crate::answers::Answer;
use crate::output;
use bits::count::{CodedBits, Terms};
use text::forms::WORDS;
use text::shown::Shown;

pub fn answer(numbers: &[usize; WORDS], record: &[u8], block: &[u8], lent: &mut [u8]) -> Answer {
    let terms = Terms {
        nl: numbers[3],
        qm: numbers[4],
        rv: numbers[7],
        edition: numbers[8],
    };
    let g = CodedBits(numbers[5]);
    output::written(Shown::Bits, lent, |lent| {
        coding::send(record, block, terms, g, lent)
    })
}
