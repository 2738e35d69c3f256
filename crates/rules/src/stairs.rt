// The rules of a table: its staircase (document 01, "Shelf and profile records") and its extension (document 02, CR 3), each with the row and the column where it is broken.
ghost use Rattle.std.specs.Prelude.{◌≡◌, not, eqb, position, ℕ, suc, ◌+◌, ◌-◌, ◌*◌, ◌≤◌, ◌<◌, length};
ghost use Rattle.bits.specs.Numbers.{answered};
ghost use Rattle.profile.specs.Record.{entry};
ghost use Rattle.profile.specs.Staircase.{next_due, next_column, row_ends, extension_row};
ghost use Rattle.profile.specs.Steps.Shape.{Sized, Whole};
ghost use Rattle.profile.specs.Steps.Walk.{column, next_right, empty_from};
ghost use Rattle.rules.specs.Rules.{first_not, between_rules, first_rules, extension_rules, row_rules, stair_rules, table_rule};
ghost use Rattle.rules.specs.Steps.Walks.{FirstNot, FirstWith};
ghost use Rattle.rules.specs.Steps.Sizes.{Filled, SpotOf, ExtensionRow, ExtensionSpot};

use crate::first::{first_found, first_not};
use crate::record_rule::Rule;
use profile::inner::EMPTY;

// The rule that a table breaks first, and the row and the column where.
#[derive(Clone, Copy)]
pub struct Spot {
    pub rule: Rule,
    pub row: usize,
    pub column: usize,
}

// The shift of column kb in the middle row, and of the columns after it in their two rows; in an extension row, of its own column.
const MIDDLE: u8 = 0;

const STEP: u8 = 0;

// What column kb holds in a row.
fn first_entry(table: &[u8], kb: usize, columns: usize, row: usize) -> u8
    requires { row * columns + kb < length table.now }
    ensures { result ≡ entry table.now columns row kb }
{
    table[row * columns + kb]
}

// The first row from `from` on, before the last one, that column kb fills.
fn next_filled(table: &[u8], kb: usize, m: usize, columns: usize, from: usize) -> Option<usize>
    requires { Sized table.now kb m columns × (from < m) }
    ensures { Filled (column table.now columns kb) m from result }
{
    for row in from..m - 1 {
        if first_entry(table, kb, columns, row) != EMPTY {
            return Some(row);
        }
    }
    None
}

// The rules of column kb behind those of its outer rows being filled: of the rows between, and of the shifts.
fn of_between(table: &[u8], kb: usize, m: usize, columns: usize) -> Option<Spot>
    requires { Sized table.now kb m columns }
    ensures { (x : ℕ) → SpotOf table.now kb m x columns (answered (between_rules m (column table.now columns kb))) result }
{
    let Some(middle) = next_filled(table, kb, m, columns, 1) else {
        return Some(Spot {
            rule: Rule::Between,
            row: 1,
            column: kb,
        });
    };
    if let Some(second) = next_filled(table, kb, m, columns, middle + 1) {
        return Some(Spot {
            rule: Rule::Between,
            row: second,
            column: kb,
        });
    }
    let bottom = m - 1;
    let last = bottom * columns + kb;
    if table[kb] != table[last] {
        return Some(Spot {
            rule: Rule::Outer,
            row: bottom,
            column: kb,
        });
    }
    if first_entry(table, kb, columns, middle) != MIDDLE {
        return Some(Spot {
            rule: Rule::Middle,
            row: middle,
            column: kb,
        });
    }
    None
}

// The rules of column kb, whatever extension the table has.
fn of_first(table: &[u8], kb: usize, m: usize, columns: usize) -> Option<Spot>
    requires { Sized table.now kb m columns }
    ensures { (x : ℕ) → SpotOf table.now kb m x columns (answered (first_rules m (column table.now columns kb))) result }
{
    if table[kb] == EMPTY {
        return Some(Spot {
            rule: Rule::TopEmpty,
            row: 0,
            column: kb,
        });
    }
    let bottom = m - 1;
    let last = bottom * columns + kb;
    if table[last] == EMPTY {
        return Some(Spot {
            rule: Rule::LastEmpty,
            row: bottom,
            column: kb,
        });
    }
    of_between(table, kb, m, columns)
}

// "Column kb+j, for j from 1 to m−1, holds 0 in rows j−1 and j and is empty elsewhere": what column kb + i + 1 is to hold in a row.
fn next_due(i: usize, row: usize) -> u8
    ensures { result ≡ next_due (suc i) row }
{
    if row == i {
        return STEP;
    }
    if row < i {
        return EMPTY;
    }
    if row - i == 1 {
        return STEP;
    }
    EMPTY
}

fn is_next(table: &[u8], kb: usize, columns: usize, i: usize, row: usize) -> bool
    requires { (row * columns + (kb + suc i) < length table.now) × (length table.now ≤ 2400) }
    ensures { result ≡ next_right table.now kb columns row i }
{
    table[row * columns + kb + 1 + i] == next_due(i, row)
}

// The first row in which column kb + i + 1 is wrong.
fn row_off(table: &[u8], kb: usize, m: usize, columns: usize, i: usize) -> Option<usize>
    requires { Sized table.now kb m columns × (suc i < m) × (length table.now ≤ 2400) }
    ensures { FirstNot m (λ row. next_right table.now kb columns row i) result }
{
    first_not(m, |row| is_next(table, kb, columns, i, row))
}

// The first of n columns behind column kb that is wrong, and the row where it is.
fn column_off(table: &[u8], kb: usize, m: usize, columns: usize, n: usize) -> Option<(usize, usize)>
    requires { Sized table.now kb m columns × (n < m) × (length table.now ≤ 2400) }
    ensures { FirstWith n (λ i. next_column m (suc i) (column table.now columns (kb + suc i))) (λ i row. (row < m) × (row ≡ first_not m (λ r. next_right table.now kb columns r i))) result }
{
    first_found(n, |i| row_off(table, kb, m, columns, i))
}

fn filled_in(entries: &[u8]) -> Option<usize>
    ensures { result ≡ position (λ x. not (eqb x 255)) entries.now }
{
    entries.iter().position(|entry| *entry != EMPTY)
}

// The first of n entries from `from` on that is filled.
fn first_filled(table: &[u8], from: usize, n: usize) -> Option<usize>
    requires { from + n ≤ length table.now }
    ensures { FirstNot n (empty_from table.now from) result }
{
    filled_in(&table[from..from + n])
}

// "staircase rows are empty in all extension columns": the first row that is not, and the first of those columns that it fills.
fn row_on(table: &[u8], kb: usize, m: usize, x: usize, columns: usize) -> Option<(usize, usize)>
    requires { Whole table.now kb m x columns }
    ensures { FirstWith m (row_ends table.now kb m x columns) (λ row k. (k < x) × (k ≡ first_not x (empty_from table.now (row * columns + (kb + m))))) result }
{
    first_found(m, |row| first_filled(table, row * columns + (kb + m), x))
}

// "In extension row m+i, column kb+m+i holds 0, later columns are empty".
fn of_extension_row(
    table: &[u8],
    kb: usize,
    m: usize,
    x: usize,
    columns: usize,
    i: usize,
) -> Option<Spot>
    requires { Whole table.now kb m x columns × (i < x) }
    ensures { ExtensionRow table.now kb m x columns i result }
{
    let row = m + i;
    let column = kb + row;
    let own = row * columns + column;
    if table[own] != STEP {
        return Some(Spot {
            rule: Rule::OwnColumn,
            row,
            column,
        });
    }
    let k = first_filled(table, own + 1, x - (i + 1))?;
    Some(Spot {
        rule: Rule::LaterColumn,
        row,
        column: column + 1 + k,
    })
}

// The first extension row that is wrong, with what is wrong there.
fn extension_off(
    table: &[u8],
    kb: usize,
    m: usize,
    x: usize,
    columns: usize,
) -> Option<(usize, Spot)>
    requires { Whole table.now kb m x columns }
    ensures { FirstWith x (extension_row table.now kb m x columns) (λ i spot. ExtensionSpot table.now kb m x columns i spot) result }
{
    first_found(x, |i| of_extension_row(table, kb, m, x, columns, i))
}

// The rules of the extension rows.
fn of_extension(table: &[u8], kb: usize, m: usize, x: usize, columns: usize) -> Option<Spot>
    requires { Whole table.now kb m x columns }
    ensures { SpotOf table.now kb m x columns (answered (extension_rules table.now kb m x columns)) result }
{
    let (_, spot) = extension_off(table, kb, m, x, columns)?;
    Some(spot)
}

// The rules of the extension columns in the staircase rows, and those behind them.
fn of_rows(table: &[u8], kb: usize, m: usize, x: usize, columns: usize) -> Option<Spot>
    requires { Whole table.now kb m x columns }
    ensures { SpotOf table.now kb m x columns (answered (row_rules table.now kb m x columns)) result }
{
    if let Some((row, k)) = row_on(table, kb, m, x, columns) {
        return Some(Spot {
            rule: Rule::RowExtended,
            row,
            column: kb + m + k,
        });
    }
    of_extension(table, kb, m, x, columns)
}

// The rules of the columns after column kb, and those behind them.
fn of_columns(table: &[u8], kb: usize, m: usize, x: usize, columns: usize) -> Option<Spot>
    requires { Whole table.now kb m x columns }
    ensures { SpotOf table.now kb m x columns (answered (stair_rules table.now kb m x columns)) result }
{
    if let Some((i, row)) = column_off(table, kb, m, columns, m - 1) {
        return Some(Spot {
            rule: Rule::Column,
            row,
            column: kb + (i + 1),
        });
    }
    of_rows(table, kb, m, x, columns)
}

// All rules of a table.
pub fn of_table(table: &[u8], kb: usize, m: usize, x: usize, columns: usize) -> Option<Spot>
    requires { Whole table.now kb m x columns }
    ensures { SpotOf table.now kb m x columns (table_rule table.now kb m x columns) result }
{
    if let Some(spot) = of_first(table, kb, m, columns) {
        return Some(spot);
    }
    of_columns(table, kb, m, x, columns)
}
