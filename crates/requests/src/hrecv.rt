// The request `hrecv PRIVATE PUBLIC TENANT PROFILE A NL QM BITS OUTLEN rv=0 ed=1 by=quick|plain`: the block that was sent as a tenant's bits.
use crate::answers::Answer;
use crate::{checker, output};
use bits::count::Terms;
use text::forms::WORDS;
use text::shown::Shown;
use text::values::short_of;

pub fn answer<'a>(
    numbers: &[usize; WORDS],
    private: &'a [u8],
    public: &'a [u8],
    bits: &[u8],
    lent: &mut [u8],
) -> Answer {
    let tenant = short_of(numbers[3]);
    let profile = short_of(numbers[4]);
    let a = numbers[5];
    let terms = Terms {
        nl: numbers[6],
        qm: numbers[7],
        rv: numbers[10],
        edition: numbers[11],
    };
    let by = checker::of_place(numbers[12]);
    output::written(Shown::Octets, lent, |lent| {
        shelf::hosted_receive(private, public, tenant, profile, a, terms, bits, by, lent)
    })
}
