// The request `hcheck PRIVATE PUBLIC TENANT PROFILE Z BITS by=quick|plain`: whether a tenant's bits are a word that checks.
use crate::answers::Answer;
use crate::checker;
use text::forms::WORDS;
use text::values::short_of;

pub fn answer<'a>(
    numbers: &[usize; WORDS],
    private: &'a [u8],
    public: &'a [u8],
    bits: &[u8],
) -> Answer {
    let tenant = short_of(numbers[3]);
    let profile = short_of(numbers[4]);
    let by = checker::of_place(numbers[7]);
    Answer::Verdict(shelf::hosted_check(private, public, tenant, profile, numbers[5], bits, by))
}
