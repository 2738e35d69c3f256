// The request `plan RECORD OCTETS ed=1`: how a block of so many octets is cut into code blocks.
use crate::answers::Answer;
use text::forms::WORDS;

pub fn answer(numbers: &[usize; WORDS], record: &[u8]) -> Answer {
    Answer::Plan(cutting::plan_block(record, numbers[3], numbers[2]))
}
