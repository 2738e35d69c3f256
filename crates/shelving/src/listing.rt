// The command `shelf`: what is on a shelf, as a table.
use bits::number::Refusal;
use console::argv::Words;
use console::host::Host;
use console::{argv, counted, files, help, page, parts, status};
use reasons::side::Side;
use reasons::{shelves, side};
use shelf::inner::form;
use text::octets;

// The names of the words, in their order.
const NAMES: &[u8] = b"--kind\n--file\n";

const HELP: &[u8] = b"usage: kuambyte shelf KIND FILE [-o FILE]

Writes a table of what is on a shelf: of each record its tenant, its profile number, its octets, kb, m, x, type, rate and sizes, and whether
it is accepted or which number refuses it; and how much room there is. Of a shelf that is not well formed it says the first rule that it
breaks, in the words of document 01, and where; entries and octets are counted from 0.

  KIND      private or public
  FILE      the shelf file
  -o FILE   write to this file, and not to standard output; it is never half written

Words may also be given by name, in any order: --kind KIND --file FILE.
";

pub fn run(rt: &impl Host, words: Words) -> i32 {
    match asked(rt, words) {
        Some(side) => read(rt, side),
        None => help::say(rt, words.help, HELP),
    }
}

// What the words ask for, unless they ask for help or do not fit.
fn asked(rt: &impl Host, words: Words) -> Option<Side> {
    if words.help || !argv::fits(rt, NAMES, 2, b"-o\n") {
        return None;
    }
    side::read(rt, NAMES)
}

fn read(rt: &impl Host, side: Side) -> i32 {
    let mut store = files::shelf_room();
    let Some(count) = files::named(rt, NAMES, b"--file", &mut store) else {
        return status::FAILED;
    };
    let octets = octets::first(&store, count);
    if !form::well_formed(side.is_private(), octets) {
        return shelves::refuse(rt, side, octets);
    }
    let mut page = io::large_buffer();
    let n = put_table(octets, &mut page);
    files::write(rt, octets::first(&page, n))
}

fn put_table(octets: &[u8], page: &mut [u8]) -> usize {
    let count = parts::two_octets(octets, 0);
    let mut end = page::put(
        b"tenant  profile  octets  kb   m   x  type   rate  judged     z\n",
        page,
        0,
    );
    for k in 0..count {
        let at = 2 + parts::times(8, k);
        end = put_entry(octets, at, page, end);
    }
    put_room(count, octets.len(), page, end)
}

// What one entry says, and what its record is.
fn put_entry(octets: &[u8], at: usize, page: &mut [u8], from: usize) -> usize {
    let entry = parts::stretch(octets, at, 8);
    let size = parts::two_octets(entry, 6);
    let a = page::right(parts::two_octets(entry, 0), 6, page, from);
    let b = page::right(parts::two_octets(entry, 2), 9, page, a);
    let c = page::right(size, 8, page, b);
    let record = parts::stretch(octets, parts::two_octets(entry, 4), size);
    let d = put_record(record, page, c);
    page::put(b"\n", page, d)
}

// Of a record that is not well formed nothing can be read.
fn put_record(record: &[u8], page: &mut [u8], at: usize) -> usize {
    let verdict = profile::judge(record);
    if verdict == Err(Refusal::Profile) {
        return page::put(b"   -   -   -     -      -  refused 5", page, at);
    }
    let a = put_shape(record, page, at);
    let b = put_verdict(verdict, page, a);
    put_sizes(record, page, b)
}

fn put_shape(record: &[u8], page: &mut [u8], at: usize) -> usize {
    let kb = parts::two_octets(record, 0);
    let m = parts::two_octets(record, 2);
    let x = parts::two_octets(record, 4);
    let a = page::right(kb, 4, page, at);
    let b = page::right(m, 4, page, a);
    let c = page::right(x, 4, page, b);
    let d = page::right(parts::two_octets(record, 6), 6, page, c);
    counted::put_rate(kb, kb + m + x, 5, page, d)
}

fn put_verdict(verdict: Result<(), Refusal>, page: &mut [u8], at: usize) -> usize {
    match verdict {
        Ok(()) => page::put(b"  accepted ", page, at),
        Err(refusal) => page::form(b"  refused #", &[refusal as usize], page, at),
    }
}

fn put_sizes(record: &[u8], page: &mut [u8], at: usize) -> usize {
    let t = parts::two_octets(record, 8);
    let mut end = at;
    for i in 0..t {
        let pair = 10 + parts::times(4, i);
        end = page::right(parts::two_octets(record, pair), 4, page, end);
    }
    end
}

// "a count n (0 to 64)", "A shelf is at most 65,535 octets"
fn put_room(count: usize, size: usize, page: &mut [u8], at: usize) -> usize {
    page::form(
        b"\n# of 64 entries and # of 65535 octets are used; # entries and # octets are free\n",
        &[
            count,
            size,
            counted::left(64, count),
            counted::left(65535, size),
        ],
        page,
        at,
    )
}
