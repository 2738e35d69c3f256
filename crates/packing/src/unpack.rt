// The command `unpack`: the text of a shelf, in its one canonical form.
use crate::rooms::TEXT;
use bits::number::Refusal;
use console::argv::Words;
use console::host::Host;
use console::{argv, files, help, page, parts, status};
use reasons::side::Side;
use reasons::{shelves, side};
use shelf::inner::form;
use text::octets;

// The names of the words, in their order.
const NAMES: &[u8] = b"--kind\n";

// The octets of a refused record on one line.
const IN_LINE: usize = 16;

const HELP: &[u8] = b"usage: kuambyte unpack KIND [-o FILE] < shelf > text

Reads a shelf and writes its text, from which kuambyte pack makes the same shelf. A record that is not accepted is written as octets, with
the number that refuses it. docs/SHELVES.md has the form of a text.

  KIND      private or public
  -o FILE   write to this file, and not to standard output; it is never half written
";

pub fn run(rt: &impl Host, words: Words) -> i32 {
    match asked(rt, words) {
        Some(side) => read(rt, side),
        None => help::say(rt, words.help, HELP),
    }
}

// What the words ask for, unless they ask for help or do not fit.
fn asked(rt: &impl Host, words: Words) -> Option<Side> {
    if words.help || !argv::fits(rt, NAMES, 1, b"-o\n") {
        return None;
    }
    side::read(rt, NAMES)
}

fn read(rt: &impl Host, side: Side) -> i32 {
    let mut store = files::shelf_room();
    let Some(count) = files::input(rt, false, &mut store) else {
        return status::FAILED;
    };
    let shelf = octets::first(&store, count);
    if !form::well_formed(side.is_private(), shelf) {
        return shelves::refuse(rt, side, shelf);
    }
    let mut text = [0u8; TEXT];
    let n = put_entries(shelf, &mut text);
    files::write(rt, octets::first(&text, n))
}

fn put_entries(shelf: &[u8], text: &mut [u8]) -> usize {
    let count = parts::two_octets(shelf, 0);
    let mut at = 0;
    for k in 0..count {
        let between = put_between(k, text, at);
        at = put_entry(shelf, entry_at(k), text, between);
    }
    at
}

fn entry_at(k: usize) -> usize {
    2 + parts::times(8, k)
}

// A blank line stands between two things.
fn put_between(k: usize, text: &mut [u8], at: usize) -> usize {
    if k == 0 {
        return at;
    }
    page::put(b"\n", text, at)
}

fn put_entry(shelf: &[u8], at: usize, text: &mut [u8], from: usize) -> usize {
    let entry = parts::stretch(shelf, at, 8);
    let record = parts::stretch(
        shelf,
        parts::two_octets(entry, 4),
        parts::two_octets(entry, 6),
    );
    let pair = page::form(
        b"tenant # profile #",
        &[parts::two_octets(entry, 0), parts::two_octets(entry, 2)],
        text,
        from,
    );
    match profile::judge(record) {
        Ok(()) => put_record(record, text, pair),
        Err(refusal) => put_refused(refusal, record, text, pair),
    }
}

fn put_refused(refusal: Refusal, record: &[u8], text: &mut [u8], at: usize) -> usize {
    let head = page::form(
        b" refused # octets #\n",
        &[refusal as usize, record.len()],
        text,
        at,
    );
    put_octets(record, text, head)
}

fn put_record(record: &[u8], text: &mut [u8], at: usize) -> usize {
    let kb = parts::two_octets(record, 0);
    let m = parts::two_octets(record, 2);
    let x = parts::two_octets(record, 4);
    let kind = parts::two_octets(record, 6);
    let mut end = page::form(b" kb # m # x # type #\n", &[kb, m, x, kind], text, at);
    let t = parts::two_octets(record, 8);
    for i in 0..t {
        let pair = 10 + parts::times(4, i);
        end = page::form(b"\nz #\n", &[parts::two_octets(record, pair)], text, end);
        let table = table_of(record, parts::two_octets(record, pair + 2));
        end = put_table(table, kb, m, x, text, end);
    }
    end
}

// What a record has from a place on, its table and those behind it.
fn table_of(record: &[u8], at: usize) -> &[u8] {
    parts::stretch(record, at, record.len())
}

fn put_table(table: &[u8], kb: usize, m: usize, x: usize, text: &mut [u8], at: usize) -> usize {
    let rows = m.saturating_add(x);
    let columns = kb.saturating_add(rows);
    let mut end = at;
    for row in 0..rows {
        let entries = parts::stretch(table, parts::times(row, columns), columns);
        end = put_row(entries, kb, m, text, end);
    }
    end
}

fn put_row(entries: &[u8], kb: usize, m: usize, text: &mut [u8], at: usize) -> usize {
    let mut end = at;
    for (k, entry) in entries.iter().enumerate() {
        let gap = put_gap(k, kb, m, text, end);
        end = put_entry_of(*entry, text, gap);
    }
    page::put(b"\n", text, end)
}

// A wider gap stands before the staircase, and before the extension.
fn put_gap(k: usize, kb: usize, m: usize, text: &mut [u8], at: usize) -> usize {
    if k == 0 {
        return at;
    }
    if k == kb || k == kb.saturating_add(m) {
        return page::put(b"   ", text, at);
    }
    page::put(b" ", text, at)
}

fn put_entry_of(entry: u8, text: &mut [u8], at: usize) -> usize {
    if entry == 255 {
        return page::put(b" -", text, at);
    }
    page::right(bits::inner::to_usize(entry), 2, text, at)
}

// The octets of a refused record, so many on a line.
fn put_octets(held: &[u8], text: &mut [u8], at: usize) -> usize {
    let mut end = at;
    for line in held.chunks(IN_LINE) {
        end = put_line(line, text, end);
    }
    end
}

fn put_line(line: &[u8], text: &mut [u8], at: usize) -> usize {
    let mut end = at;
    for (k, octet) in line.iter().enumerate() {
        let next = put_space(k, text, end);
        end = page::put(&[digit(*octet / 16), digit(*octet % 16)], text, next);
    }
    page::put(b"\n", text, end)
}

fn put_space(k: usize, text: &mut [u8], at: usize) -> usize {
    if k == 0 {
        return at;
    }
    page::put(b" ", text, at)
}

fn digit(value: u8) -> u8 {
    match value {
        0..=9 => b'0' + value,
        10..=15 => b'a' + (value - 10),
        _ => b'-',
    }
}
