// The rules of a record's header and of its pairs (document 01, "Shelf and profile records"; document 02, CR 3), from the front, so that what is read is there.
ghost use Rattle.std.specs.Prelude.{◌≡◌, not, ◌&&◌, List, ℕ, ◌+◌, ◌*◌, ◌≤◌, ◌<◌, eqb, length};
ghost use Rattle.bits.specs.Numbers.{answered};
ghost use Rattle.bits.specs.Ranges.{within};
ghost use Rattle.profile.specs.Record.{z, rises};
ghost use Rattle.rules.specs.Faults.{wrong};
ghost use Rattle.rules.specs.Rules.{or_else, linked, header_rules, pair_rules, offset_rules, stair_rule, record_rule};
ghost use Rattle.rules.specs.Steps.Walks.{FirstNot};
ghost use Rattle.rules.specs.Steps.Sizes.{SizesOf, PairsOf, RisingOf, Told, HeaderOf};

use crate::first::first_not;
use crate::record_rule::Rule;
use crate::{RecordFault, tables};

// A record's numbers, with the columns and the octets of a table.
#[derive(Clone, Copy)]
pub struct Sizes {
    pub kb: usize,
    pub m: usize,
    pub x: usize,
    pub t: usize,
    pub columns: usize,
    pub size: usize,
}

// "Type 1 requires .. x 0": whether that is broken.
fn is_type_1_extended(kind: usize, x: usize) -> bool
    ensures { result ≡ (eqb kind 1 && not (eqb x 0)) }
{
    kind == 1 && x != 0
}

// What is told of a rule that is about no table.
pub fn of_whole(rule: Rule, at: usize) -> RecordFault
    ensures { result ≡ record { rule = rule; table = 0; row = 0; column = 0; at = at } }
{
    RecordFault {
        rule,
        table: 0,
        row: 0,
        column: 0,
        at,
    }
}

// The rule that the header breaks first, with the octet of the number that it is about.
fn header_fault(kb: usize, m: usize, x: usize, kind: usize, t: usize) -> Option<RecordFault>
    requires { m < 65536 }
    ensures { HeaderOf (answered (header_rules kb m x kind t)) result }
{
    if !bits::inner::is_within(1, 20, kb) {
        return Some(of_whole(Rule::Kb, 0));
    }
    if !bits::inner::is_within(3, 12, m) {
        return Some(of_whole(Rule::M, 2));
    }
    if 37 < x {
        return Some(of_whole(Rule::X, 4));
    }
    if 40 < m + x {
        return Some(of_whole(Rule::Rows, 4));
    }
    if !bits::inner::is_within(1, 2, kind) {
        return Some(of_whole(Rule::Type, 6));
    }
    if is_type_1_extended(kind, x) {
        return Some(of_whole(Rule::Type1Extended, 4));
    }
    if !bits::inner::is_within(1, 3, t) {
        return Some(of_whole(Rule::T, 8));
    }
    None
}

// The columns and the octets of a table follow from the other numbers.
fn sizes_of(kb: usize, m: usize, x: usize, t: usize) -> Sizes
    requires { (kb ≤ 20) × (m + x ≤ 40) }
    ensures { (result.kb ≡ kb) × (result.m ≡ m) × (result.x ≡ x) × (result.t ≡ t) × (result.columns ≡ kb + (m + x)) × (result.size ≡ (m + x) * (kb + (m + x))) }
{
    let rows = m + x;
    let columns = kb + rows;
    Sizes {
        kb,
        m,
        x,
        t,
        columns,
        size: rows * columns,
    }
}

// Where a table is due to start; asked past the last table, where the record is due to end.
pub fn offset_due(s: Sizes, i: usize) -> usize
    requires { (s.t ≤ 3) × (s.size ≤ 2400) × (i ≤ 3) }
    ensures { result ≡ 10 + 4 * s.t + i * s.size }
{
    10 + 4 * s.t + i * s.size
}

// "z (1 to 81".
fn is_in_range(octets: &[u8], i: usize) -> bool
    requires { 14 + 4 * i ≤ length octets.now }
    ensures { result ≡ within 1 81 (z octets.now i) }
{
    bits::inner::is_within(1, 81, bits::inner::number_at(octets, 10 + 4 * i))
}

fn first_out(octets: &[u8], t: usize) -> Option<usize>
    requires { 10 + 4 * t ≤ length octets.now }
    ensures { FirstNot t (λ i. within 1 81 (z octets.now i)) result }
{
    first_not(t, |i| is_in_range(octets, i))
}

// "strictly rising".
fn is_rising(octets: &[u8], i: usize) -> bool
    requires { 14 + 4 * i ≤ length octets.now }
    ensures { result ≡ rises octets.now i }
{
    if i == 0 {
        return true;
    }
    let before = bits::inner::number_at(octets, 10 + 4 * (i - 1));
    let here = bits::inner::number_at(octets, 10 + 4 * i);
    before < here
}

fn first_fall(octets: &[u8], t: usize) -> Option<usize>
    requires { 10 + 4 * t ≤ length octets.now }
    ensures { FirstNot t (rises octets.now) result }
{
    first_not(t, |i| is_rising(octets, i))
}

fn is_linked(octets: &[u8], s: Sizes, i: usize) -> bool
    requires { PairsOf octets.now s × (i < s.t) }
    ensures { result ≡ linked octets.now i }
{
    let due = offset_due(s, i);
    bits::inner::number_at(octets, 12 + 4 * i) == due
}

fn first_loose(octets: &[u8], s: Sizes) -> Option<usize>
    requires { PairsOf octets.now s }
    ensures { FirstNot s.t (linked octets.now) result }
{
    first_not(s.t, |i| is_linked(octets, s, i))
}

// The rules of the offsets, and those behind them.
fn of_offsets(octets: &[u8], s: Sizes) -> Option<RecordFault>
    requires { RisingOf octets.now s }
    ensures { Told octets.now (or_else (answered (offset_rules octets.now)) (stair_rule octets.now)) (wrong result) }
{
    if let Some(i) = first_loose(octets, s) {
        if i == 0 {
            return Some(of_whole(Rule::FirstOffset, 12));
        }
        return Some(RecordFault {
            rule: Rule::NextOffset,
            table: i,
            row: 0,
            column: 0,
            at: 12 + 4 * i,
        });
    }
    tables::of_end(octets, s)
}

// The rules of the z's, and those behind them.
fn of_zs(octets: &[u8], s: Sizes) -> Option<RecordFault>
    requires { SizesOf octets.now s }
    ensures { Told octets.now (or_else (answered (pair_rules octets.now)) (stair_rule octets.now)) (wrong result) }
{
    let t = s.t;
    let size = octets.len();
    if size < 10 + 4 * t {
        return Some(of_whole(Rule::PairsCut, size));
    }
    if let Some(out) = first_out(octets, t) {
        return Some(RecordFault {
            rule: Rule::Z,
            table: out,
            row: 0,
            column: 0,
            at: 10 + 4 * out,
        });
    }
    if let Some(fallen) = first_fall(octets, t) {
        return Some(RecordFault {
            rule: Rule::ZRising,
            table: fallen,
            row: 0,
            column: 0,
            at: 10 + 4 * fallen,
        });
    }
    of_offsets(octets, s)
}

// All rules but the first, of a record that has its header.
pub fn of_header(octets: &[u8]) -> Option<RecordFault>
    requires { 10 ≤ length octets.now }
    ensures { Told octets.now (record_rule octets.now) (wrong result) }
{
    let kb = bits::inner::number_at(octets, 0);
    let m = bits::inner::number_at(octets, 2);
    let x = bits::inner::number_at(octets, 4);
    let kind = bits::inner::number_at(octets, 6);
    let t = bits::inner::number_at(octets, 8);
    if let Some(fault) = header_fault(kb, m, x, kind, t) {
        return Some(fault);
    }
    of_zs(octets, sizes_of(kb, m, x, t))
}
