// The request `near D STREAMS OUTLEN`: the control word that is nearest to three streams, and how near it is.
use crate::answers::Answer;
use crate::output;
use text::faults::Fault;
use text::forms::WORDS;
use text::shown::Shown;

pub fn answer(numbers: &[usize; WORDS], streams: &[u8], lent: &mut [u8]) -> Answer {
    output::fill(lent);
    let found = nearest::nearest_word(numbers[1], streams, lent);
    let count = match found {
        Ok(closest) => closest.count,
        Err(_) => 0,
    };
    if !output::is_kept(Shown::Bits, count, lent) {
        return Answer::Error(Fault::Output);
    }
    Answer::Near(found)
}
