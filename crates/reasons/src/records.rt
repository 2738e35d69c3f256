// Why a record is refused.
use bits::number::Refusal;
use console::errors::Errors;
use console::{meanings, page, parts};
use rules::RecordFault;
use rules::record_rule::Rule;
use text::octets;

// Says that a record is refused, by which rule and where, and answers the exit status.
pub fn refuse(rt: &impl Errors, refusal: Refusal, octets: &[u8]) -> i32 {
    let mut line = io::buffer();
    let n = put_line(refusal, octets, &mut line, 0);
    rt.say(octets::first(&line, n));
    meanings::exit_status(refusal)
}

// Puts the line that says so.
pub fn put_line(refusal: Refusal, octets: &[u8], line: &mut [u8], at: usize) -> usize {
    let a = page::form(b"refused #: ", &[refusal as usize], line, at);
    let b = meanings::put(refusal, line, a);
    let c = put(octets, line, b);
    page::put(b"\n", line, c)
}

// The rule in the documents' words, and behind them what is found instead.
fn put(octets: &[u8], line: &mut [u8], at: usize) -> usize {
    let Some(fault) = rules::of_record(octets) else {
        return at;
    };
    let a = page::put(b": ", line, at);
    let b = page::put(words(fault.rule), line, a);
    put_place(fault, octets, line, b)
}

fn words(rule: Rule) -> &'static [u8] {
    match rule {
        Rule::NoHeader => b"\"kb, m, x, type, t\", and it ends before they do",
        Rule::Kb => b"\"kb (1 to 20)\", and it is another number",
        Rule::M => b"\"m (3 to 12)\", and it is another number",
        Rule::X => b"\"x extension rows (0 to 37, m + x at most 40)\", and x is larger",
        Rule::Rows => b"\"m + x at most 40\", and it is more",
        Rule::Type => b"\"5 for a type other than 1 or 2\", and it is another",
        Rule::Type1Extended => b"\"Type 1 requires rv 0 and x 0\", and x is another",
        Rule::T => b"\"t (1 to 3)\", and it is another number",
        Rule::PairsCut =>
            b"\"then t pairs of z (1 to 81, strictly rising) and offset\", and it ends before they do",
        Rule::Z => b"\"z (1 to 81, strictly rising)\", and this one is another number",
        Rule::ZRising => b"\"z (1 to 81, strictly rising)\", and this one does not rise",
        Rule::FirstOffset => b"\"the first offset is 10 + 4t\", and it is another",
        Rule::NextOffset => b"\"each next one\" a table's size further, and this one is another",
        Rule::End => b"\"the record ends with the last table\", and it ends elsewhere",
        Rule::Entry => b"\"255 for empty, else a shift below its z\", and this entry is neither",
        Rule::TopEmpty =>
            b"\"column kb is filled in row 0, row m-1 and exactly one row between\", and in row 0 it is empty",
        Rule::LastEmpty =>
            b"\"column kb is filled in row 0, row m-1 and exactly one row between\", and in row m-1 it is empty",
        Rule::Between =>
            b"\"column kb is filled in row 0, row m-1 and exactly one row between\", and between it is filled in none or in several",
        Rule::Outer => b"\"The two outer shifts are equal\", and they are not",
        Rule::Middle => b"\"the middle one is 0\", and it is not",
        Rule::Column =>
            b"\"Column kb+j, for j from 1 to m-1, holds 0 in rows j-1 and j and is empty elsewhere\", and this entry is not so",
        Rule::RowExtended =>
            b"\"staircase rows are empty in all extension columns\", and this entry is filled",
        Rule::OwnColumn =>
            b"\"In extension row m+i, column kb+m+i holds 0\", and this entry does not",
        Rule::LaterColumn => b"\"later columns are empty\", and this entry is filled",
    }
}

// The rules of the header say the octet, those of a pair the table too, and those of an entry where it stands in its table.
fn put_place(fault: RecordFault, octets: &[u8], line: &mut [u8], at: usize) -> usize {
    match fault.rule {
        Rule::NoHeader
        | Rule::Kb
        | Rule::M
        | Rule::X
        | Rule::Rows
        | Rule::Type
        | Rule::Type1Extended
        | Rule::T
        | Rule::PairsCut
        | Rule::End => page::form(b" (octet #)", &[fault.at], line, at),
        Rule::Z | Rule::ZRising | Rule::FirstOffset | Rule::NextOffset => {
            page::form(b" (table #, octet #)", &[fault.table, fault.at], line, at)
        }
        _ => {
            let z = size(octets, fault.table);
            let place = [z, fault.row, fault.column, fault.at];
            page::form(b" (z #, row #, column #, octet #)", &place, line, at)
        }
    }
}

// The z of a table, counted from 0.
fn size(octets: &[u8], table: usize) -> usize {
    let pairs = parts::stretch(octets, 10, 12);
    parts::two_octets(pairs, parts::times(4, table))
}
