// Whether every table is a staircase with its extension (document 01, "Shelf and profile records"; document 02, CR 3): of the first m rows column kb,
// then the columns after it row by row.
ghost use Rattle.std.specs.Prelude.{◌≡◌, true, ◌&&◌, ◌+◌, ◌*◌, ◌<◌, ◌≤◌, length};
ghost use Rattle.bits.specs.Ranges.{all_below};
ghost use Rattle.profile.specs.Record.{t, entry};
ghost use Rattle.profile.specs.Staircase.{first_column, staircase, row_ends, extension_row, extended, staircases};
ghost use Rattle.profile.specs.Steps.Shape.{shape_right, Sized, Whole};
ghost use Rattle.profile.specs.Steps.Walk.{column, NextFilled, row_right, empty_from, before_right, behind_right, stairs_at};

use crate::inner::EMPTY;
use crate::parts;

// The shift of column kb in the middle row, and of the columns after it in their two rows; in an extension row, of its own column.
const MIDDLE: u8 = 0;

const STEP: u8 = 0;

// What column kb holds in a row.
fn first_entry(table: &[u8], kb: usize, columns: usize, row: usize) -> u8
    requires { row * columns + kb < length table.now }
    ensures { result ≡ entry table.now columns row kb }
{
    table[row * columns + kb]
}

// The first row from `from` on that column kb fills, or the last row.
fn next_filled(table: &[u8], kb: usize, m: usize, columns: usize, from: usize) -> usize
    requires { Sized table.now kb m columns × (from < m) }
    ensures { NextFilled (column table.now columns kb) m from result }
{
    for row in from..m - 1 {
        if first_entry(table, kb, columns, row) != EMPTY {
            return row;
        }
    }
    m - 1
}

fn first_right(table: &[u8], kb: usize, m: usize, columns: usize) -> bool
    requires { Sized table.now kb m columns }
    ensures { result ≡ first_column m (column table.now columns kb) }
{
    let outer = first_entry(table, kb, columns, 0);
    if outer == EMPTY {
        return false;
    }
    let middle = next_filled(table, kb, m, columns, 1);
    if middle + 1 == m {
        return false;
    }
    if first_entry(table, kb, columns, middle) != MIDDLE {
        return false;
    }
    let last = next_filled(table, kb, m, columns, middle + 1);
    if last + 1 < m {
        return false;
    }
    first_entry(table, kb, columns, last) == outer
}

// Whether n entries from `from` on are empty: at most 10, too few for the straight loop of `rest_empty`, by which judging takes a fifth longer.
fn are_empty(table: &[u8], from: usize, n: usize) -> bool
    requires { from + n ≤ length table.now }
    ensures { result ≡ all_below n (empty_from table.now from) }
{
    table[from..from + n].iter().all(|e| *e == EMPTY)
}

// A row's first entries after column kb: empty but for the last of them.
#[tactic(auto, using(crate::proofs::Walk::before_later))]
fn before_right(table: &[u8], first: usize, n: usize) -> bool
    requires { first + n ≤ length table.now }
    ensures { result ≡ before_right table.now first n }
{
    n == 0 || are_empty(table, first, n - 1) && table[first + (n - 1)] == STEP
}

// The entries behind them: empty but for the first.
#[tactic(auto, unfolding(crate::specs::Steps::Walk::behind_right))]
fn behind_right(table: &[u8], own: usize, later: usize) -> bool
    requires { own + later < length table.now }
    ensures { result ≡ behind_right table.now own later }
{
    table[own] == STEP && are_empty(table, own + 1, later)
}

// The columns after column kb, in a row.
#[tactic(auto, using(crate::proofs::Walk::row_in_turn))]
fn row_right(table: &[u8], kb: usize, m: usize, columns: usize, row: usize) -> bool
    requires { Sized table.now kb m columns × (row < m) }
    ensures { result ≡ row_right table.now kb m columns row }
{
    let first = row * columns + kb + 1;
    before_right(table, first, row)
        && (row + 1 == m || behind_right(table, first + row, m - (row + 2)))
}

fn rows_right(table: &[u8], kb: usize, m: usize, columns: usize) -> bool
    requires { Sized table.now kb m columns }
    ensures { result ≡ all_below m (row_right table.now kb m columns) }
{
    (0..m).all(|row| row_right(table, kb, m, columns, row))
}

#[tactic(auto, using(crate::proofs::Walk::stairs_are))]
fn is_staircase(table: &[u8], kb: usize, m: usize, columns: usize) -> bool
    requires { Sized table.now kb m columns }
    ensures { result ≡ staircase table.now kb m columns }
{
    first_right(table, kb, m, columns) && rows_right(table, kb, m, columns)
}

// Whether a row's extension columns are empty: they are up to 37, so it looks at each, with no early way out, and the loop is straight.
fn rest_empty(table: &[u8], from: usize, n: usize) -> bool
    requires { from + n ≤ length table.now }
    ensures { result ≡ all_below n (empty_from table.now from) }
{
    let mut empty = true;
    for e in &table[from..from + n] {
        empty &= *e == EMPTY;
    }
    empty
}

// A staircase row in the extension columns.
fn row_ends(table: &[u8], kb: usize, m: usize, x: usize, columns: usize, row: usize) -> bool
    requires { Whole table.now kb m x columns × (row < m) }
    ensures { result ≡ row_ends table.now kb m x columns row }
{
    let first = row * columns + (kb + m);
    rest_empty(table, first, x)
}

fn rows_end(table: &[u8], kb: usize, m: usize, x: usize, columns: usize) -> bool
    requires { Whole table.now kb m x columns }
    ensures { result ≡ all_below m (row_ends table.now kb m x columns) }
{
    (0..m).all(|row| row_ends(table, kb, m, x, columns, row))
}

// An extension row in its own column and behind it.
#[tactic(auto, using(crate::proofs::Extension::extension_at))]
fn extension_row(table: &[u8], kb: usize, m: usize, x: usize, columns: usize, i: usize) -> bool
    requires { Whole table.now kb m x columns × (i < x) }
    ensures { result ≡ extension_row table.now kb m x columns i }
{
    let row = m + i;
    let own = row * columns + (kb + row);
    table[own] == STEP && rest_empty(table, own + 1, x - (i + 1))
}

fn extension_rows(table: &[u8], kb: usize, m: usize, x: usize, columns: usize) -> bool
    requires { Whole table.now kb m x columns }
    ensures { result ≡ all_below x (extension_row table.now kb m x columns) }
{
    (0..x).all(|i| extension_row(table, kb, m, x, columns, i))
}

#[tactic(auto, unfolding(crate::specs::Staircase::extended))]
fn is_extended(table: &[u8], kb: usize, m: usize, x: usize, columns: usize) -> bool
    requires { Whole table.now kb m x columns }
    ensures { result ≡ extended table.now kb m x columns }
{
    rows_end(table, kb, m, x, columns) && extension_rows(table, kb, m, x, columns)
}

#[tactic(auto, using(crate::proofs::Extension::stepped))]
fn is_right(table: &[u8], kb: usize, m: usize, x: usize, columns: usize) -> bool
    requires { Whole table.now kb m x columns }
    ensures { result ≡ (staircase table.now kb m columns && extended table.now kb m x columns) }
{
    is_staircase(table, kb, m, columns) && is_extended(table, kb, m, x, columns)
}

// A table of a record whose tables can be read.
fn has_stairs(profile: &[u8], i: usize) -> bool
    requires { (shape_right profile.now ≡ true) × (i < t profile.now) }
    ensures { result ≡ stairs_at profile.now i }
{
    let kb = parts::kb(profile);
    let m = parts::m(profile);
    let x = parts::x(profile);
    is_right(parts::table(profile, i), kb, m, x, parts::columns(profile))
}

// Every table of such a record.
pub fn staircases(profile: &[u8]) -> bool
    requires { shape_right profile.now ≡ true }
    ensures { result ≡ staircases profile.now }
{
    (0..parts::t(profile)).all(|i| has_stairs(profile, i))
}
