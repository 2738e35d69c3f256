// The request `hsend PRIVATE PUBLIC TENANT PROFILE BLOCK NL QM G OUTLEN rv=0 ed=1`: the bits that are sent of a tenant's block.
use crate::answers::Answer;
use crate::output;
use bits::count::{CodedBits, Terms};
use text::forms::WORDS;
use text::shown::Shown;
use text::values::short_of;

pub fn answer<'a>(
    numbers: &[usize; WORDS],
    private: &'a [u8],
    public: &'a [u8],
    block: &[u8],
    lent: &mut [u8],
) -> Answer {
    let tenant = short_of(numbers[3]);
    let profile = short_of(numbers[4]);
    let terms = Terms {
        nl: numbers[6],
        qm: numbers[7],
        rv: numbers[10],
        edition: numbers[11],
    };
    let g = CodedBits(numbers[8]);
    output::written(Shown::Bits, lent, |lent| {
        shelf::hosted_send(private, public, tenant, profile, block, terms, g, lent)
    })
}
