// A record that is whole: it is put together and judged, and then it has its entry.
use crate::fault::{Expected, Fault};
use crate::heads;
use crate::state::{Phase, State};
use bits::number::Refusal;
use console::{counted, page, parts};
use text::octets;

// Puts a number as two octets, "high octet first".
pub fn put_two(n: usize, page: &mut [u8], at: usize) -> usize {
    page::put(&((n % 65536) as u16).to_be_bytes(), page, at)
}

// Ends the record that is begun, where one is. What is missing of it is a fault of the line that stands there instead.
pub fn ended(
    tables: &[u8],
    entries: &mut [u8],
    records: &mut [u8],
    state: State,
) -> Result<State, Fault> {
    match state.phase {
        Phase::Between => Ok(state),
        Phase::Tables => ended_tables(tables, entries, records, state),
        Phase::Rows => Err(state.fault(0, state.row_due())),
        Phase::Octets(refusal) => ended_octets(refusal, entries, records, state),
    }
}

fn ended_tables(
    tables: &[u8],
    entries: &mut [u8],
    records: &mut [u8],
    state: State,
) -> Result<State, Fault> {
    if state.t == 0 {
        return Err(state.fault(0, Expected::FirstSize));
    }
    let end = compose(octets::first(tables, state.filled), records, state);
    let next = State {
        filled: end.saturating_sub(state.used),
        ..state
    };
    if !heads::has_room(state, next.filled) {
        return Err(state.fault(0, Expected::Room));
    }
    judged(Ok(()), entries, records, next)
}

fn ended_octets(
    refusal: Refusal,
    entries: &mut [u8],
    records: &[u8],
    state: State,
) -> Result<State, Fault> {
    if state.due > 0 {
        return Err(state.fault(0, Expected::MoreOctets { due: state.due }));
    }
    judged(Err(refusal), entries, records, state)
}

// Puts the record behind those that are whole: "kb, m, x, type, t", then "t pairs of z .. and offset; then t tables".
fn compose(tables: &[u8], records: &mut [u8], state: State) -> usize {
    let a = put_two(state.kb, records, state.used);
    let b = put_two(state.m, records, a);
    let c = put_two(state.x, records, b);
    let d = put_two(state.kind, records, c);
    let e = put_two(state.t, records, d);
    let f = pairs(tables.len(), records, e, state);
    page::put(tables, records, f)
}

fn pairs(filled: usize, records: &mut [u8], at: usize, state: State) -> usize {
    let sizes = state.t.min(3);
    let mut offset = parts::times(4, sizes).saturating_add(10);
    let mut end = at;
    for z in &state.sizes[..sizes] {
        let next = put_two(*z, records, end);
        end = put_two(offset, records, next);
        offset = offset.saturating_add(counted::per(filled, sizes));
    }
    end
}

// The record is judged by the library. It has to be accepted or, where it is given as octets, refused with the number that the text says.
fn judged(
    due: Result<(), Refusal>,
    entries: &mut [u8],
    records: &[u8],
    state: State,
) -> Result<State, Fault> {
    let verdict = profile::judge(parts::stretch(records, state.used, state.filled));
    if verdict != due {
        return Err(state.misjudged(verdict));
    }
    let a = put_two(state.tenant, entries, parts::times(8, state.entries));
    let b = put_two(state.profile, entries, a);
    let c = put_two(0, entries, b);
    put_two(state.filled, entries, c);
    Ok(State {
        entries: state.entries.saturating_add(1),
        used: state.used.saturating_add(state.filled),
        filled: 0,
        phase: Phase::Between,
        ..state
    })
}
