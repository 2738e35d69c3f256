// The command `show`: the tables of a record, or one of them as a picture.
use crate::{grid, parted, picture};
use bits::number::Refusal;
use console::argv::Words;
use console::errors::Errors;
use console::host::Host;
use console::{argv, counted, files, help, meanings, page, parts, status};
use reasons::records;
use text::octets;

// The names of the words, in their order.
const NAMES: &[u8] = b"--record\n--z\n";

// No size of a record: the word Z is not given.
const NOT_GIVEN: usize = 1_000_000;

// The characters of the largest picture, some forty for each entry of a table; the three largest grids have fewer.
const PAGE: usize = 262_144;

const HELP: &[u8] = b"usage: kuambyte show RECORD [Z] [--svg] [-o FILE]

Writes the tables of a profile record as grids of shifts, with a dot for empty: rows and columns are numbered from 0, and bars set the
staircase apart, and the extension. Of a refused record it says the first rule that it breaks, in the documents' words, and where.

  RECORD    a file with a profile record, as kuambyte lookup writes it
  Z         one of the record's sizes, whose table is shown alone; all where it is not given
  --svg     write a picture of the spread-out matrix of Z, or of the largest size: a diagonal for each shift, the parity part shaded
  -o FILE   write to this file, and not to standard output; it is never half written

Words may also be given by name, in any order: --record RECORD --z Z.
";

pub fn run(rt: &impl Host, words: Words) -> i32 {
    match asked(rt, words) {
        Some(z) => read(rt, words.svg, z),
        None => help::say(rt, words.help, HELP),
    }
}

// The size that the words ask for, if they ask for one, unless they ask for help or do not fit.
fn asked(rt: &impl Host, words: Words) -> Option<Option<usize>> {
    if words.help || !argv::fits(rt, NAMES, 1, b"--svg\n-o\n") {
        return None;
    }
    match argv::read_or(rt, NAMES, b"--z", NOT_GIVEN, NOT_GIVEN)? {
        NOT_GIVEN => Some(None),
        z => Some(Some(z)),
    }
}

fn read(rt: &impl Host, svg: bool, z: Option<usize>) -> i32 {
    let mut store = io::large_buffer();
    let Some(count) = files::named(rt, NAMES, b"--record", &mut store) else {
        return status::FAILED;
    };
    let record = octets::first(&store, count);
    match profile::judge(record) {
        Ok(()) => answer(rt, svg, z, record),
        Err(refusal) => records::refuse(rt, refusal, record),
    }
}

fn answer(rt: &impl Host, svg: bool, z: Option<usize>, record: &[u8]) -> i32 {
    let t = parts::two_octets(record, 8);
    let Some(z) = z else {
        return draw(rt, svg, None, t, record);
    };
    match index_of(record, z, t) {
        Some(i) => draw(rt, svg, Some(i), t, record),
        None => refuse(rt, record, t),
    }
}

// Draws table i, or all where none was asked for.
fn draw(rt: &impl Host, svg: bool, i: Option<usize>, t: usize, record: &[u8]) -> i32 {
    let mut page = [0u8; PAGE];
    let n = put(svg, i, t, record, &mut page);
    files::write(rt, octets::first(&page, n))
}

// Which table has this size, counted from 0.
fn index_of(record: &[u8], z: usize, t: usize) -> Option<usize> {
    (0..t).position(|i| size(record, i) == z)
}

fn size(record: &[u8], i: usize) -> usize {
    parts::two_octets(record, 10 + parts::times(4, i))
}

// Of a table, 8 is for its z.
fn refuse(rt: &impl Errors, record: &[u8], t: usize) -> i32 {
    let mut line = io::buffer();
    let a = page::put(
        b"refused 8: the profile does not have this z; its sizes are",
        &mut line,
        0,
    );
    let b = put_sizes(record, t, &mut line, a);
    let c = page::put(b"\n", &mut line, b);
    rt.say(octets::first(&line, c));
    meanings::exit_status(Refusal::Parameter)
}

fn put_sizes(record: &[u8], t: usize, page: &mut [u8], at: usize) -> usize {
    let mut end = at;
    for i in 0..t {
        end = page::form(b" #", &[size(record, i)], page, end);
    }
    end
}

// The picture is that of one table, the last where none was asked for, and the grids are those of all then.
fn put(svg: bool, i: Option<usize>, t: usize, record: &[u8], page: &mut [u8]) -> usize {
    if svg {
        let table = i.unwrap_or(t.saturating_sub(1));
        return picture::put(record, parted::of(record, table), page, 0);
    }
    let a = put_summary(record, t, page);
    match i {
        Some(i) => grid::put(record, parted::of(record, i), page, a),
        None => put_grids(record, t, page, a),
    }
}

fn put_summary(record: &[u8], t: usize, page: &mut [u8]) -> usize {
    let shape = parted::of(record, 0);
    let a = page::form(
        b"kb #  m #  x #  type #  rate ",
        &[shape.kb, shape.m, shape.x, shape.kind],
        page,
        0,
    );
    let b = counted::put_rate(shape.kb, shape.columns(), 0, page, a);
    let c = page::put(b"  z", page, b);
    let d = put_sizes(record, t, page, c);
    page::put(b"\n", page, d)
}

fn put_grids(record: &[u8], t: usize, page: &mut [u8], at: usize) -> usize {
    let mut end = at;
    for i in 0..t {
        end = grid::put(record, parted::of(record, i), page, end);
    }
    end
}
