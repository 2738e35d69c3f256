// Checking where the table is known to go with z and the word's length is right.
ghost use Rattle.std.specs.Prelude.{◌≡◌, ◌*◌, length};
ghost use Rattle.parity.specs.Matrix.{checks};
ghost use Rattle.parity.specs.Steps.Grouped.{Shape};

use crate::{Checker, plain};

// Whether the word checks, by the checker that is asked for. Both have this contract, so the choice decides nothing.
pub fn checks_by(
    checker: Checker,
    table: &[u8],
    rows: usize,
    columns: usize,
    z: usize,
    word: &[u8],
) -> bool
    requires { Shape table.now rows columns z × (length word.now ≡ columns * z) }
    ensures { result ≡ checks table.now rows columns z word.now }
{
    match checker {
        Checker::Quick => parity::inner::checks(table, rows, columns, z, word),
        Checker::Plain => plain::rows_even(table, rows, columns, z, word),
    }
}
