// Faults of a shelf's text: what was expected instead, and in which line and column.
use crate::line;
use bits::number::Refusal;
use console::page;
use text::octets;

// Why a text is no shelf's.
#[derive(Clone, Copy)]
pub enum Fault {
    // Something else stands in a line at a place. Lines are counted from 1, places from 0.
    Unexpected {
        line: usize,
        from: usize,
        expected: Expected,
    },
    // The library judges a record otherwise than the text says.
    Misjudged(Misjudged),
}

// A record that the library judges otherwise: the line that it begins with, whose it is, where it stands in the store of records, and the verdict.
#[derive(Clone, Copy)]
pub struct Misjudged {
    pub line: usize,
    pub tenant: usize,
    pub profile: usize,
    pub start: usize,
    pub size: usize,
    pub verdict: Result<(), Refusal>,
}

// What was expected, with the numbers that it speaks of.
#[derive(Clone, Copy)]
pub enum Expected {
    Record,
    Profile,
    Shape,
    M,
    X,
    Type,
    Octets,
    Number { low: usize, high: usize },
    Rising { tenant: usize, profile: usize },
    Full,
    FewerRows { most: usize },
    NoExtension,
    Size,
    FirstSize,
    Tables,
    Row { row: usize, rows: usize },
    Shift { most: usize },
    Entry { entry: usize, entries: usize },
    LineEnd,
    Octet,
    MoreOctets { due: usize },
    Room,
}

impl Expected {
    // In words, and the numbers that each # of them stands for.
    fn told(self) -> (&'static [u8], [usize; 2]) {
        match self {
            Expected::Record => (b"a record, tenant T profile P kb K m M x X type Y", [0, 0]),
            Expected::Profile => (b"the word profile", [0, 0]),
            Expected::Shape => (b"the word kb or the word refused", [0, 0]),
            Expected::M => (b"the word m", [0, 0]),
            Expected::X => (b"the word x", [0, 0]),
            Expected::Type => (b"the word type", [0, 0]),
            Expected::Octets => (b"the word octets", [0, 0]),
            Expected::Number { low, high } => (b"a number from # to #", [low, high]),
            Expected::Rising { tenant, profile } => (
                b"a tenant and a profile number above # and #, those of the record before",
                [tenant, profile],
            ),
            Expected::Full => (
                b"the end of the text, since a shelf has at most 64 records",
                [0, 0],
            ),
            Expected::FewerRows { most } => (
                b"an x of at most #, since m + x is at most 40",
                [most, 0],
            ),
            Expected::NoExtension => (b"type 2, or an x of 0", [0, 0]),
            Expected::Size => (b"z and the size of a table, or the next record", [0, 0]),
            Expected::FirstSize => (b"z and the size of the first table", [0, 0]),
            Expected::Tables => (
                b"the next record, since a record has at most 3 tables",
                [0, 0],
            ),
            Expected::Row { row, rows } => (b"row # of the # rows of this table", [row, rows]),
            Expected::Shift { most } => (b"- or a shift from 0 to #", [most, 0]),
            Expected::Entry { entry, entries } => (
                b"entry # of the # entries of this row",
                [entry, entries],
            ),
            Expected::LineEnd => (b"the end of the line", [0, 0]),
            Expected::Octet => (b"an octet, two hexadecimal digits", [0, 0]),
            Expected::MoreOctets { due } => (b"# more octets of this record", [due, 0]),
            Expected::Room => (
                b"the end of the text, since a shelf has at most 65535 octets",
                [0, 0],
            ),
        }
    }
}

// Puts what is wrong with a line at a place.
pub fn put(
    number: usize,
    line: &[u8],
    from: usize,
    expected: Expected,
    page: &mut [u8],
    at: usize,
) -> usize {
    let a = page::form(
        b"kuambyte: line #, column #: expected ",
        &[number, from.saturating_add(1)],
        page,
        at,
    );
    let (words, numbers) = expected.told();
    let b = page::form(words, &numbers, page, a);
    let c = put_found(line, from, page, b);
    page::put(b"\n", page, c)
}

// Puts the word that stands there instead.
fn put_found(line: &[u8], from: usize, page: &mut [u8], at: usize) -> usize {
    let span = line::next(line, from);
    if span.size == 0 {
        return page::put(b", and nothing stands there", page, at);
    }
    let a = page::put(b", and '", page, at);
    let b = page::put(octets::first(line::word(line, span), 100), page, a);
    page::put(b"' stands there", page, b)
}
