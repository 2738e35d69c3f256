// The rows of a table, and the lines of octets of a refused record.
use crate::fault::{Expected, Fault};
use crate::line;
use crate::line::Span;
use crate::state::{Phase, State};
use console::page;
use text::values;

// "255 for empty"
const EMPTY: u8 = 255;

// A row: an entry for each column.
pub fn row(line: &[u8], tables: &mut [u8], state: State) -> Result<State, Fault> {
    let mut next = state;
    let mut at = 0;
    for k in 0..state.columns() {
        let span = line::next(line, at);
        let entry = entry(line, span, k, next)?;
        next.filled = page::put(&[entry], tables, next.filled);
        at = line::behind(span);
    }
    row_ended(line::next(line, at), next)
}

fn row_ended(span: Span, state: State) -> Result<State, Fault> {
    if span.size > 0 {
        return Err(state.fault(span.from, Expected::LineEnd));
    }
    let mut next = state;
    next.due = state.due.saturating_sub(1);
    if next.due == 0 {
        next.phase = Phase::Tables;
    }
    Ok(next)
}

// One entry: - or a shift below the table's z.
fn entry(line: &[u8], span: Span, k: usize, state: State) -> Result<u8, Fault> {
    if span.size == 0 {
        let due = Expected::Entry {
            entry: k.saturating_add(1),
            entries: state.columns(),
        };
        return Err(state.fault(span.from, due));
    }
    if line::word(line, span) == b"-".as_slice() {
        return Ok(EMPTY);
    }
    let most = state.size().saturating_sub(1);
    match line::number(line, span) {
        Some(shift) if shift <= most => Ok(octet(shift)),
        _ => Err(no_entry(line, span, most, state)),
    }
}

// A line that begins something else stands where a row is due.
fn no_entry(line: &[u8], span: Span, most: usize, state: State) -> Fault {
    if line::is(line, 0, b"z") || line::is(line, 0, b"tenant") {
        return state.fault(span.from, state.row_due());
    }
    state.fault(span.from, Expected::Shift { most })
}

fn octet(n: usize) -> u8 {
    u8::try_from(n).unwrap_or(EMPTY)
}

// A line of octets. They go to the store of records, behind those that are whole. No line has more words than characters.
pub fn octets_of(line: &[u8], records: &mut [u8], state: State) -> Result<State, Fault> {
    let mut next = state;
    let mut at = 0;
    for _ in 0..line.len() {
        let span = line::next(line, at);
        if span.size == 0 {
            return Ok(next);
        }
        let octet = octet_of(line, span, next)?;
        page::put(&[octet], records, next.used.saturating_add(next.filled));
        next.filled = next.filled.saturating_add(1);
        next.due = next.due.saturating_sub(1);
        at = line::behind(span);
    }
    Ok(next)
}

fn octet_of(line: &[u8], span: Span, state: State) -> Result<u8, Fault> {
    if state.due == 0 {
        return Err(state.fault(span.from, Expected::LineEnd));
    }
    if span.size != 2 {
        return Err(state.fault(span.from, Expected::Octet));
    }
    let mut pair = [0u8; 1];
    match values::octets(line::word(line, span), &mut pair) {
        Ok(_) => Ok(pair[0]),
        Err(_) => Err(state.fault(span.from, Expected::Octet)),
    }
}
