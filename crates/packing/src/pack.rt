// The command `pack`: the shelf that a text describes. Nothing is written unless all of it is right.
use crate::fault::{Expected, Fault, Misjudged};
use crate::rooms::{ENTRIES, TABLES, TEXT};
use crate::state::{Phase, State};
use crate::{fault, heads, line, rows, state, whole};
use console::argv::Words;
use console::errors::Errors;
use console::host::Host;
use console::list::Lines;
use console::{argv, files, help, list, meanings, page, parts, status};
use reasons::side::Side;
use reasons::{records, side};
use shelf::inner::form;
use text::{octets, words};

// The names of the words, in their order.
const NAMES: &[u8] = b"--kind\n";

const HELP: &[u8] = b"usage: kuambyte pack KIND [-o FILE] < text > shelf

Reads the text of a shelf and writes the shelf. Every record is judged first, and nothing is written unless all of it is right; what is
wrong is said with its line and column. docs/SHELVES.md has the form of a text.

  KIND      private or public
  -o FILE   write to this file, and not to standard output; it is never half written
";

pub fn run(rt: &impl Host, words: Words) -> i32 {
    match asked(rt, words) {
        Some(side) => read(rt, side),
        None => help::say(rt, words.help, HELP),
    }
}

// What the words ask for, unless they ask for help or do not fit.
fn asked(rt: &impl Host, words: Words) -> Option<Side> {
    if words.help || !argv::fits(rt, NAMES, 1, b"-o\n") {
        return None;
    }
    side::read(rt, NAMES)
}

fn read(rt: &impl Host, side: Side) -> i32 {
    let mut text = [0u8; TEXT];
    let Some(count) = files::input(rt, false, &mut text) else {
        return status::FAILED;
    };
    if count == TEXT {
        rt.say(b"kuambyte: the text has more than 399999 characters\n");
        return status::WRONG_TEXT;
    }
    answer(rt, side, octets::first(&text, count))
}

fn answer(rt: &impl Host, side: Side, text: &[u8]) -> i32 {
    let mut tables = [0u8; TABLES];
    let mut entries = [0u8; ENTRIES];
    let mut records = files::shelf_room();
    match take_all(text, side, &mut tables, &mut entries, &mut records) {
        Ok(state) => write(rt, side, &entries, &records, state),
        Err(fault) => complain(rt, text, &records, fault),
    }
}

// The shelf is judged by the library as well, whatever was tested on the way.
fn write(rt: &impl Host, side: Side, entries: &[u8], records: &[u8], state: State) -> i32 {
    let mut store = files::shelf_room();
    let n = compose(entries, records, &mut store, state);
    let shelf = octets::first(&store, n);
    if !form::well_formed(side.is_private(), shelf) {
        return reasons::shelves::refuse(rt, side, shelf);
    }
    files::write(rt, shelf)
}

// Goes through the text line by line, up to the first fault.
fn take_all(
    text: &[u8],
    side: Side,
    tables: &mut [u8],
    entries: &mut [u8],
    records: &mut [u8],
) -> Result<State, Fault> {
    let mut state = state::begin(side);
    for line in Lines(text) {
        state = take(line, tables, entries, records, state.next_line())?;
    }
    whole::ended(tables, entries, records, state.next_line())
}

// "A # begins a comment": what stands behind it is passed over.
fn take(
    line: &[u8],
    tables: &mut [u8],
    entries: &mut [u8],
    records: &mut [u8],
    state: State,
) -> Result<State, Fault> {
    let read = words::before(line, b'#');
    if line::is_blank(read) {
        return Ok(state);
    }
    match state.phase {
        Phase::Rows => rows::row(read, tables, state),
        Phase::Octets(_) if state.due > 0 => rows::octets_of(read, records, state),
        Phase::Tables if !line::is(read, 0, b"tenant") => heads::table(read, state),
        _ => heads::record(read, whole::ended(tables, entries, records, state)?),
    }
}

// Puts the shelf together: "a count n (0 to 64); then n entries of tenant, profile number, offset, length; then the records".
fn compose(entries: &[u8], records: &[u8], shelf: &mut [u8], state: State) -> usize {
    let heads = parts::times(8, state.entries);
    let mut offset = heads.saturating_add(2);
    let mut end = whole::put_two(state.entries, shelf, 0);
    for entry in octets::first(entries, heads).chunks(8) {
        end = put_entry(entry, offset, shelf, end);
        offset = offset.saturating_add(parts::two_octets(entry, 6));
    }
    page::put(octets::first(records, state.used), shelf, end)
}

fn put_entry(entry: &[u8], offset: usize, shelf: &mut [u8], at: usize) -> usize {
    let a = page::put(octets::first(entry, 4), shelf, at);
    let b = whole::put_two(offset, shelf, a);
    page::put(parts::stretch(entry, 6, 2), shelf, b)
}

// Says what is wrong, and in which line and column.
fn complain(rt: &impl Errors, text: &[u8], records: &[u8], fault: Fault) -> i32 {
    match fault {
        Fault::Unexpected {
            line,
            from,
            expected,
        } => complain_of_line(rt, text, line, from, expected),
        Fault::Misjudged(record) => complain_of_record(rt, records, record),
    }
}

fn complain_of_line(
    rt: &impl Errors,
    text: &[u8],
    line: usize,
    from: usize,
    expected: Expected,
) -> i32 {
    let mut said = io::buffer();
    let read = words::before(list::line(text, line.saturating_sub(1)), b'#');
    let n = fault::put(line, read, from, expected, &mut said, 0);
    rt.say(octets::first(&said, n));
    status::WRONG_TEXT
}

// A record that the library judges otherwise than the text says.
fn complain_of_record(rt: &impl Errors, records: &[u8], record: Misjudged) -> i32 {
    let mut line = io::buffer();
    let a = page::form(
        b"kuambyte: line #, column 1: the record of tenant # and profile # is ",
        &[record.line, record.tenant, record.profile],
        &mut line,
        0,
    );
    let octets = parts::stretch(records, record.start, record.size);
    match record.verdict {
        Ok(()) => {
            let b = page::put(
                b"accepted, so it is written with its tables, and not as octets\n",
                &mut line,
                a,
            );
            rt.say(octets::first(&line, b));
            status::WRONG_TEXT
        }
        Err(refusal) => {
            let b = records::put_line(refusal, octets, &mut line, a);
            rt.say(octets::first(&line, b));
            meanings::exit_status(refusal)
        }
    }
}
