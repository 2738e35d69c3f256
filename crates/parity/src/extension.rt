// The parity columns past the staircase: each is its own row's sum over all columns before it.
ghost use Rattle.std.specs.Prelude.{◌+◌, ◌*◌, ◌<◌};
ghost use Rattle.parity.specs.Steps.Grouped.{Codable, Begun};
ghost use Rattle.parity.specs.Steps.Runs.{lanes, Run, copied, Sums, Adding};

use crate::run::LANES;
use crate::{run, sums};

// Row n's sum is column kb + n, which is `own`: it is copied there, and then added as a column.
fn lay_own(
    table: &[u8],
    rows: usize,
    columns: usize,
    z: usize,
    n: usize,
    own: usize,
    word: &mut [u8],
    sums: &mut [u8],
)
    requires { Adding table.now rows columns z word.old own sums.old × (n < rows) × (own < columns) }
    ensures { Run z (copied sums.old (n * lanes)) word.old (own * z) word.new × Sums table.now rows columns z word.new (own + 1) 0 sums.new }
{
    run::copy_bits(word, own * z, sums, n * LANES, z);
    sums::add_columns(table, rows, columns, z, own, own + 1, word, sums);
}

// The columns of the rows past the staircase, in a word whose staircase is laid. The sums hold all columns before them.
pub fn lay_later(
    table: &[u8],
    kb: usize,
    m: usize,
    rows: usize,
    columns: usize,
    z: usize,
    word: &mut [u8],
    sums: &mut [u8],
)
    requires { Codable table.now kb m rows columns z word.old × Begun table.now kb m columns z word.old m word.old × Sums table.now rows columns z word.old (kb + m) 0 sums.old }
    ensures { Begun table.now kb m columns z word.old rows word.new }
{
    for n in m..rows {
        lay_own(table, rows, columns, z, n, kb + n, word, sums);
    }
}
