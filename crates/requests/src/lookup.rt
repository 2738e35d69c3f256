// The request `lookup PRIVATE PUBLIC TENANT PROFILE`: the record that a tenant is given, and where it lies.
use crate::answers::{Answer, Place};
use shelf::inner::Found;
use text::faults::Fault;
use text::forms::WORDS;
use text::values::short_of;

// The record and where it lies come from calls of their own: they are held to each other here.
pub fn answer<'a>(numbers: &[usize; WORDS], private: &'a [u8], public: &'a [u8]) -> Answer {
    let tenant = short_of(numbers[3]);
    let profile = short_of(numbers[4]);
    let record = shelf::lookup(private, public, tenant, profile);
    let found = shelf::inner::look(private, public, tenant, profile);
    match (record, found) {
        (Ok(record), Ok(found)) if record == stretch(private, public, found) => {
            Answer::Record(Ok(Place {
                own: found.own,
                start: found.at,
                count: record.len(),
            }))
        }
        (Err(refusal), Err(same)) if refusal == same => Answer::Record(Err(refusal)),
        _ => Answer::Error(Fault::Output),
    }
}

// The octets at that place; none where it does not lie in its shelf.
fn stretch<'a>(private: &'a [u8], public: &'a [u8], found: Found) -> &'a [u8] {
    if found.own {
        return part(private, found.at, found.size);
    }
    part(public, found.at, found.size)
}

fn part(shelf: &[u8], at: usize, size: usize) -> &[u8] {
    match shelf.get(at..) {
        Some(rest) => rest.get(..size).unwrap_or(&[]),
        None => &[],
    }
}
