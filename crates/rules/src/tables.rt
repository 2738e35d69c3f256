// The rules of a record's end and of its tables' entries; then, once every table can be read and holds shifts below its z, the staircases.
ghost use Rattle.std.specs.Prelude.{◌≡◌, not, position, ◌+◌, ◌*◌, ◌≤◌, ◌<◌, length, get_or};
ghost use Rattle.bits.specs.Numbers.{answered};
ghost use Rattle.profile.specs.Record.{shift_right, table_right};
ghost use Rattle.profile.specs.Steps.Shape.{TableAt};
ghost use Rattle.rules.specs.Faults.{record_number, wrong};
ghost use Rattle.rules.specs.Rules.{or_else, table_rules, shift_rules, stairs, stair_rule};
ghost use Rattle.rules.specs.Steps.Walks.{FirstNot, TestWith, FirstWith};
ghost use Rattle.rules.specs.Steps.Sizes.{LinkedOf, TablesOf, OverIn, StairsIn, Told, ToldOf};

use crate::first::first_found;
use crate::pairs::Sizes;
use crate::record_rule::Rule;
use crate::stairs::Spot;
use crate::{RecordFault, entries, pairs, stairs};
use profile::inner::EMPTY;

// Table i of a record whose tables can be read.
fn table(octets: &[u8], s: Sizes, i: usize) -> &[u8]
    requires { TablesOf octets.now s × (i < s.t) }
    ensures { TableAt octets.now i result.now }
{
    let start = pairs::offset_due(s, i);
    let end = start + s.size;
    &octets[start..end]
}

// "255 for empty, else a shift below its z".
fn is_shift(z: usize, shift: u8) -> bool
    ensures { result ≡ shift_right z shift }
{
    shift == EMPTY || bits::inner::to_usize(shift) < z
}

fn first_over(z: usize, table: &[u8]) -> Option<usize>
    ensures { result ≡ position (λ x. not (shift_right z x)) table.now }
{
    table.iter().position(|shift| !is_shift(z, *shift))
}

// The first place of table i that holds no shift below its z.
fn over_in(octets: &[u8], s: Sizes, i: usize) -> Option<usize>
    requires { TablesOf octets.now s × (i < s.t) }
    ensures { TestWith (table_right octets.now i) (OverIn octets.now i) result }
{
    let z = bits::inner::number_at(octets, 10 + 4 * i);
    first_over(z, table(octets, s, i))
}

// The first table that has such a place, with the place.
fn table_over(octets: &[u8], s: Sizes) -> Option<(usize, usize)>
    requires { TablesOf octets.now s }
    ensures { FirstWith s.t (table_right octets.now) (OverIn octets.now) result }
{
    first_found(s.t, |i| over_in(octets, s, i))
}

// What is wrong with the staircase of table i.
fn stairs_in(octets: &[u8], s: Sizes, i: usize) -> Option<Spot>
    requires { TablesOf octets.now s × (i < s.t) }
    ensures { TestWith (stairs octets.now i) (StairsIn octets.now i) result }
{
    stairs::of_table(table(octets, s, i), s.kb, s.m, s.x, s.columns)
}

// The first table that is no staircase, with what is wrong there.
fn no_stairs(octets: &[u8], s: Sizes) -> Option<(usize, Spot)>
    requires { TablesOf octets.now s }
    ensures { FirstWith s.t (stairs octets.now) (StairsIn octets.now) result }
{
    first_found(s.t, |i| stairs_in(octets, s, i))
}

// What is told of an entry of table i, with its octet.
fn told(s: Sizes, rule: Rule, i: usize, row: usize, column: usize) -> RecordFault
    requires { (s.t ≤ 3) × (s.size ≤ 2400) × (i ≤ 3) × (row * s.columns + column ≤ s.size) }
    ensures { ToldOf s (record_number rule) i row column (wrong (Some result)) }
{
    let columns = s.columns;
    RecordFault {
        rule,
        table: i,
        row,
        column,
        at: pairs::offset_due(s, i) + (row * columns + column),
    }
}

// The rules of the first table that is no staircase with its extension.
fn of_stairs(octets: &[u8], s: Sizes) -> Option<RecordFault>
    requires { TablesOf octets.now s }
    ensures { Told octets.now (stair_rule octets.now) (wrong result) }
{
    if let Some((i, spot)) = no_stairs(octets, s) {
        return Some(told(s, spot.rule, i, spot.row, spot.column));
    }
    None
}

// The rule of the entries, and those behind it.
fn of_shifts(octets: &[u8], s: Sizes) -> Option<RecordFault>
    requires { TablesOf octets.now s }
    ensures { Told octets.now (or_else (answered (shift_rules octets.now)) (stair_rule octets.now)) (wrong result) }
{
    if let Some((i, k)) = table_over(octets, s) {
        let columns = s.columns;
        return Some(told(s, Rule::Entry, i, k / columns, k % columns));
    }
    of_stairs(octets, s)
}

// The rules behind those of the pairs.
pub fn of_end(octets: &[u8], s: Sizes) -> Option<RecordFault>
    requires { LinkedOf octets.now s }
    ensures { Told octets.now (or_else (answered (table_rules octets.now)) (stair_rule octets.now)) (wrong result) }
{
    let size = octets.len();
    let end = pairs::offset_due(s, s.t);
    if size != end {
        return Some(pairs::of_whole(Rule::End, entries::smaller(size, end)));
    }
    of_shifts(octets, s)
}
