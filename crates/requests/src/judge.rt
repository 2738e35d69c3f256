// The request `profile RECORD`: whether the record is a profile. A crate has the name of the request,
// so the module has that of the call.
use crate::answers::Answer;

pub fn answer(record: &[u8]) -> Answer {
    Answer::Judged(profile::judge(record))
}
