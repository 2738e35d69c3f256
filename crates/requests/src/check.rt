// The request `check RECORD Z BITS by=quick|plain`: whether the bits are a word that checks.
use crate::answers::Answer;
use crate::checker;
use text::forms::WORDS;

pub fn answer(numbers: &[usize; WORDS], record: &[u8], bits: &[u8]) -> Answer {
    let by = checker::of_place(numbers[4]);
    Answer::Verdict(checking::check_word(record, numbers[2], bits, by))
}
