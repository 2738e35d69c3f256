// Why a shelf is not well formed.
use crate::side::Side;
use console::errors::Errors;
use console::{meanings, page};
use rules::ShelfFault;
use rules::shelf_rule::Rule;
use text::octets;

// Says that a shelf is refused, by which rule and where, and answers the exit status.
pub fn refuse(rt: &impl Errors, side: Side, shelf: &[u8]) -> i32 {
    let refusal = side.refusal();
    let mut line = io::buffer();
    let a = page::form(b"refused #: ", &[refusal as usize], &mut line, 0);
    let b = meanings::put(refusal, &mut line, a);
    let c = put(rules::of_shelf(side.is_private(), shelf), &mut line, b);
    let d = page::put(b"\n", &mut line, c);
    rt.say(octets::first(&line, d));
    meanings::exit_status(refusal)
}

// The rule in the document's words, and behind them what is found instead.
fn put(fault: Option<ShelfFault>, line: &mut [u8], at: usize) -> usize {
    let Some(fault) = fault else {
        return at;
    };
    let a = page::put(b": ", line, at);
    let b = page::put(words(fault.rule), line, a);
    put_place(fault, line, b)
}

fn words(rule: Rule) -> &'static [u8] {
    match rule {
        Rule::NoCount => b"\"a count n (0 to 64)\", and it has fewer than two octets",
        Rule::Count => b"\"a count n (0 to 64)\", and it has a larger one",
        Rule::EntriesCut =>
            b"\"then n entries of tenant, profile number, offset, length\", and it ends before they do",
        Rule::Pairs => b"\"Pairs (tenant, profile number) strictly rise\", and this one does not",
        Rule::FirstOffset => b"\"The first offset is 2 + 8n\", and it is another",
        Rule::NextOffset =>
            b"\"each next offset is the end of the record before\", and this one is another",
        Rule::End =>
            b"\"the shelf ends with the last record (at 2 when n = 0)\", and it ends elsewhere",
        Rule::Size => b"\"A shelf is at most 65,535 octets\", and it has more",
        Rule::Tenant =>
            b"\"Every tenant is 0 in a public shelf and 1 or more in a private one\", and this one is not",
    }
}

// The rules of one entry say which.
fn put_place(fault: ShelfFault, line: &mut [u8], at: usize) -> usize {
    match fault.rule {
        Rule::Pairs | Rule::FirstOffset | Rule::NextOffset | Rule::Tenant => {
            page::form(b" (entry #, octet #)", &[fault.entry, fault.at], line, at)
        }
        _ => page::form(b" (octet #)", &[fault.at], line, at),
    }
}
