// The command `numbers`: the table of all numbers that are answered.
use console::argv::Words;
use console::host::Host;
use console::{argv, files, help, meanings, page};
use text::octets;

const HELP: &[u8] = b"usage: kuambyte numbers [-o FILE]

Writes the table of the numbers that are answered, and what each means.
";

pub fn run(rt: &impl Host, words: Words) -> i32 {
    if words.help || !argv::fits(rt, b"", 0, b"-o\n") {
        return help::say(rt, words.help, HELP);
    }
    write(rt)
}

fn write(rt: &impl Host) -> i32 {
    let mut page = io::buffer();
    let a = page::put(b"no.  given when\n", &mut page, 0);
    let b = rows(&mut page, a);
    let c = page::put(
        b"
1 to 4 belong to the lookup, 5 to 11, 16 and 19 to sending, 5 to 14, 16 and 19 to receiving, 15 to no call. Checking a word
answers 5, 6, 8 for a z or a length that the profile does not have, and 12. Putting a record on a private shelf answers 1, 2, 5,
6, 26 and 11, and removing one 1, 2, 4 and 11. Of a control word, sending answers 17, 8, 11 and 12, and receiving 13 and 14 too;
finding the nearest answers 17, 8 for streams that are not three times its length, 11 and 12. Numbers are tested in their order,
but 17 before all others, 19 before 7, 16 before 8 and 26 before 11; the first that applies is answered, and it is the exit
status. Other statuses: 64 wrong words, 65 a text that is no shelf, 74 a file that cannot be read or a write that failed.
",
        &mut page,
        b,
    );
    files::write(rt, octets::first(&page, c))
}

fn rows(page: &mut [u8], from: usize) -> usize {
    let mut at = from;
    for number in 0..=meanings::HIGHEST {
        at = row(number, page, at);
    }
    at
}

// A number that no call answers has no row: what was put of it is put over.
fn row(number: u32, page: &mut [u8], at: usize) -> usize {
    let a = page::right(number as usize, 3, page, at);
    let b = page::put(b"  ", page, a);
    let c = meanings::line(number, page, b);
    if c == b {
        return at;
    }
    page::put(b"\n", page, c)
}
