// The request `put PRIVATE TENANT PROFILE RECORD OUTLEN`: the private shelf with this record for a tenant and a profile number.
use crate::answers::Answer;
use crate::output;
use text::forms::WORDS;
use text::shown::Shown;
use text::values::short_of;

pub fn answer(numbers: &[usize; WORDS], private: &[u8], added: &[u8], lent: &mut [u8]) -> Answer {
    let tenant = short_of(numbers[2]);
    let profile = short_of(numbers[3]);
    output::written(Shown::Octets, lent, |lent| {
        keeping::put_record(private, tenant, profile, added, lent)
    })
}
