// The command `check`: whether a tenant's word checks, and which rows of the spread-out matrix are odd where it does not.
ghost use Rattle.std.specs.Prelude.{◌≡◌, ◌<◌};
ghost use Rattle.profile.specs.Record.{t};
ghost use Rattle.profile.specs.Promises.{judged};

use crate::asked::Parameters;
use crate::shelves::Shelves;
use crate::{asked, calls, refusal, shelves};
use bits::inner::some_over;
use bits::number::Refusal;
use checking::Checker;
use console::argv::Words;
use console::errors::Errors;
use console::host::Host;
use console::{argv, files, help, page, status};
use text::octets;

// The names of the words, in their order.
const NAMES: &[u8] = b"--private\n--public\n--tenant\n--profile\n--z\n";

const HELP: &[u8] =
    b"usage: kuambyte check PRIVATE PUBLIC TENANT PROFILE Z [--plain] [--text] [-o FILE] < word

Reads a word of (kb+m+x) times Z bits and writes whether it checks: whether every row of the spread-out matrix sums to an even number
over it. Where it does not, a line for each group of rows that has odd ones says which they are, counted from 0 in their group.

  PRIVATE, PUBLIC   the shelf files; the tenant's own record goes before the public one
  TENANT, PROFILE   who asks, from 1, and for which profile number
  Z                 one of the profile's sizes; a group of rows, or of places, is so many
  --plain           ask the plain checker, which goes through the matrix element by element; it says the same
  --text            read bits as characters 0 and 1, line ends skipped, not as octets 0 and 1
  -o FILE           write to this file, and not to standard output; it is never half written

Words may also be given by name, in any order: --private PRIVATE --public PUBLIC --tenant TENANT --profile PROFILE --z Z.
";

pub fn run(rt: &impl Host, words: Words) -> i32 {
    match asked(rt, words) {
        Some((asked, z)) => read(rt, words, asked, z),
        None => help::say(rt, words.help, HELP),
    }
}

// What the words ask for, and Z, unless they ask for help or do not fit.
fn asked(rt: &impl Host, words: Words) -> Option<(Parameters, usize)> {
    if words.help || !argv::fits(rt, NAMES, 5, b"--plain\n--text\n-o\n") {
        return None;
    }
    let asked = asked::for_lookup(rt, NAMES);
    let z = argv::read_number(rt, NAMES, b"--z", usize::MAX);
    Some((asked?, z?))
}

fn read(rt: &impl Host, words: Words, asked: Parameters, z: usize) -> i32 {
    let mut store = [0u8; shelves::STORE];
    match shelves::named(rt, NAMES, &mut store) {
        Some(shelves) => read_word(rt, words, asked, z, shelves),
        None => status::FAILED,
    }
}

fn read_word(rt: &impl Host, words: Words, asked: Parameters, z: usize, shelves: Shelves) -> i32 {
    let mut bits = files::bits_room();
    let Some(count) = files::input(rt, words.text, &mut bits) else {
        return status::FAILED;
    };
    let checker = calls::checker(words.plain);
    answer(rt, asked, z, checker, shelves, octets::first(&bits, count))
}

fn answer(
    rt: &impl Host,
    asked: Parameters,
    z: usize,
    checker: Checker,
    shelves: Shelves,
    word: &[u8],
) -> i32 {
    let Shelves { private, public } = shelves;
    let Parameters {
        tenant,
        profile,
        ..
    } = asked;
    let record = shelves.record(asked);
    match shelf::hosted_check(private, public, tenant, profile, z, word, checker) {
        Ok(true) => files::write(rt, b"checks\n"),
        Ok(false) => answer_odd(rt, asked, record, z, word),
        Err(refusal) => refuse(rt, refusal, record, asked),
    }
}

// Of a word, 8 is for its z or its length, and not for what a block is sent with.
fn refuse(rt: &impl Errors, refusal: Refusal, record: &[u8], asked: Parameters) -> i32 {
    if refusal != Refusal::Parameter {
        return refusal::write(rt, refusal, record, asked);
    }
    let mut line = io::buffer();
    let a = page::put(
        b"refused 8: the profile does not have this z, or words of this length; its words have",
        &mut line,
        0,
    );
    let b = put_sizes(record, &mut line, a);
    let c = page::put(b"\n", &mut line, b);
    refusal::say(rt, refusal, octets::first(&line, c))
}

// Puts how long the words of each of the profile's sizes are.
fn put_sizes(record: &[u8], line: &mut [u8], at: usize) -> usize {
    if profile::judge(record).is_err() {
        return at;
    }
    let t = profile::inner::t(record);
    let mut end = at;
    for i in 0..t {
        let next = put_between(i == 0, i + 1 == t, line, end);
        end = put_size(record, i, line, next);
    }
    end
}

fn put_size(profile: &[u8], i: usize, line: &mut [u8], at: usize) -> usize
    requires { (judged profile.now ≡ 0) × (i < t profile.now) }
{
    let z = profile::inner::z(profile, i);
    let bits = profile::inner::columns(profile) * z;
    page::form(b" # bits (z #)", &[bits, z], line, at)
}

// Puts what stands before one of several things in a row.
fn put_between(first: bool, last: bool, line: &mut [u8], at: usize) -> usize {
    if first {
        return at;
    }
    if last {
        return page::put(b" or", line, at);
    }
    page::put(b",", line, at)
}

fn answer_odd(rt: &impl Host, asked: Parameters, record: &[u8], z: usize, word: &[u8]) -> i32 {
    let mut sums = [0u8; 3240];
    match checking::row_sums(record, z, word, &mut sums) {
        Ok(count) => write_odd(rt, octets::first(&sums, count), z),
        Err(refusal) => refuse(rt, refusal, record, asked),
    }
}

fn write_odd(rt: &impl Host, sums: &[u8], z: usize) -> i32 {
    let mut page = io::large_buffer();
    let a = page::put(b"does not check; odd rows:\n", &mut page, 0);
    let b = put_groups(sums, z, &mut page, a);
    files::write(rt, octets::first(&page, b))
}

// Puts a line for each group of z rows that has odd ones.
fn put_groups(sums: &[u8], z: usize, page: &mut [u8], at: usize) -> usize {
    if z == 0 {
        return at;
    }
    let mut end = at;
    for (group, rows) in sums.chunks(z).enumerate() {
        end = put_group(group, rows, page, end);
    }
    end
}

fn put_group(group: usize, sums: &[u8], page: &mut [u8], at: usize) -> usize {
    if !some_over(0, sums) {
        return at;
    }
    let a = page::form(b"  group of rows #:", &[group], page, at);
    let b = put_rows(sums, page, a);
    page::put(b"\n", page, b)
}

fn put_rows(sums: &[u8], page: &mut [u8], at: usize) -> usize {
    let mut end = at;
    for (row, sum) in sums.iter().enumerate() {
        end = put_row(*sum, row, page, end);
    }
    end
}

fn put_row(sum: u8, row: usize, page: &mut [u8], at: usize) -> usize {
    if sum == 0 {
        return at;
    }
    page::form(b" #", &[row], page, at)
}
