// The request `crcappend WIDTH MASK BITS OUTLEN`: bits with their checksum under a mask behind them.
use crate::answers::Answer;
use crate::output;
use text::forms::WORDS;
use text::shown::Shown;

pub fn answer(numbers: &[usize; WORDS], bits: &[u8], lent: &mut [u8]) -> Answer {
    output::written(Shown::Bits, lent, |lent| {
        masked::append(numbers[1], numbers[2] as u64, bits, lent)
    })
}
