// The request `recv RECORD A NL QM BITS OUTLEN rv=0 ed=1 by=quick|plain`: the block that was sent as these bits.
use crate::answers::Answer;
use crate::{checker, output};
use bits::count::Terms;
use text::forms::WORDS;
use text::shown::Shown;

pub fn answer(numbers: &[usize; WORDS], record: &[u8], bits: &[u8], lent: &mut [u8]) -> Answer {
    let a = numbers[2];
    let terms = Terms {
        nl: numbers[3],
        qm: numbers[4],
        rv: numbers[7],
        edition: numbers[8],
    };
    let by = checker::of_place(numbers[9]);
    output::written(Shown::Octets, lent, |lent| {
        coding::receive(record, a, terms, bits, by, lent)
    })
}
