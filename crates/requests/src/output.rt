// The output that is lent to a call, and whether the call kept to it.
use crate::answers::Answer;
use bits::number::Refusal;
use text::faults::Fault;
use text::shown;
use text::shown::Shown;

// What stands in the output before a call, and behind what the call counts after it.
const FILLED: u8 = 0xA5;

pub fn fill(lent: &mut [u8]) {
    lent.fill(FILLED);
}

// No turn leaves early, so that many octets are compared at once.
fn is_filled(part: &[u8]) -> bool {
    let mut other = 0u8;
    for x in part {
        other |= *x ^ FILLED;
    }
    other == 0
}

// The answer for what a call writes into the output that is lent. The call's promise is tested here and not relied on.
pub fn written<F: FnOnce(&mut [u8]) -> Result<usize, Refusal>>(
    shown: Shown,
    lent: &mut [u8],
    call: F,
) -> Answer
    requires { F.IsAlwaysCallable call }
{
    fill(lent);
    let count = call(lent);
    if !is_kept(shown, count.unwrap_or(0), lent) {
        return Answer::Error(Fault::Output);
    }
    Answer::Written(shown, count)
}

// Whether a call counts no octet that it was not lent, wrote none that cannot be shown, and left those behind its count. A refusal counts nothing.
pub fn is_kept(shown: Shown, count: usize, lent: &[u8]) -> bool {
    if count > lent.len() {
        return false;
    }
    if largest(&lent[..count]) > shown::largest(shown) {
        return false;
    }
    is_filled(&lent[count..])
}

// The largest octet, and 0 of none.
fn largest(part: &[u8]) -> u8 {
    let mut most = 0u8;
    for x in part {
        most = most.max(*x);
    }
    most
}
