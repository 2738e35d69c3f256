// The request `remove PRIVATE TENANT PROFILE OUTLEN`: the private shelf without the record of a tenant and a profile number.
use crate::answers::Answer;
use crate::output;
use text::forms::WORDS;
use text::shown::Shown;
use text::values::short_of;

pub fn answer(numbers: &[usize; WORDS], private: &[u8], lent: &mut [u8]) -> Answer {
    let tenant = short_of(numbers[2]);
    let profile = short_of(numbers[3]);
    output::written(Shown::Octets, lent, |lent| {
        keeping::remove_record(private, tenant, profile, lent)
    })
}
