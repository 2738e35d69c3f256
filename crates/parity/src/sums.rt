// The sums of all rows of a table over the columns of a word, column by column.
ghost use Rattle.std.specs.Prelude.{◌≡◌, ◌+◌, ◌*◌, ◌≤◌, ◌<◌, length};
ghost use Rattle.bits.specs.Bits.{AreBits};
ghost use Rattle.bits.specs.Ranges.{all_below};
ghost use Rattle.profile.specs.Record.{empty};
ghost use Rattle.parity.specs.Matrix.{checks};
ghost use Rattle.parity.specs.Steps.Runs.{lanes, span, Run, entered, Doubled, Sums, Adding, even_row};

use crate::run;
use crate::run::LANES;
use profile::inner::EMPTY;

// A column's group of z bits twice, one after the other: what a shift s turns round is then one straight run from s on. What a run of all lanes takes in behind the
// group is written over, or lies behind both.
fn double(word: &[u8], base: usize, z: usize, g: &mut [u8])
    requires { (0 < z) × (z ≤ 81) × (base + z ≤ length word.now) × (length g.old ≡ 192) × AreBits g.old }
    ensures { Doubled word.now base z g.new }
{
    if base + LANES <= word.len() {
        run::copy_bits(g, 0, word, base, LANES);
        return run::copy_bits(g, z, word, base, LANES);
    }
    run::copy_bits(g, 0, word, base, z);
    run::copy_bits(g, z, word, base, z)
}

// Row i of a shift s has its one in column i + s: where its run begins in a doubled group.
fn run_start(s: u8, z: usize) -> usize
    requires { s < z }
    ensures { (result ≡ s) × (result < z) }
{
    s as usize
}

// What the entry s adds to the z rows of its square, whose sums start at `at`: nothing where it is empty.
fn add_entry(s: u8, g: &[u8], z: usize, sums: &mut [u8], at: usize)
    requires { ((s ≡ empty → ⊥) → s < z) × (z ≤ 81) × (length g.now ≡ 192) × (at + lanes ≤ length sums.old) × AreBits g.now × AreBits sums.old }
    ensures { Run (span z) (entered sums.old at s g.now) sums.old at sums.new }
{
    if s != EMPTY {
        run::xor_row(sums, at, g, run_start(s, z), z);
    }
}

// Column j into the sums of all rows. g is room for its doubled group.
fn add_column(
    table: &[u8],
    rows: usize,
    columns: usize,
    z: usize,
    j: usize,
    word: &[u8],
    g: &mut [u8],
    sums: &mut [u8],
)
    requires { Adding table.now rows columns z word.now j sums.old × (j < columns) × (length g.old ≡ 192) × AreBits g.old }
    ensures { AreBits g.new × Sums table.now rows columns z word.now (j + 1) 0 sums.new }
{
    double(word, j * z, z, g);
    for i in 0..rows {
        add_entry(table[i * columns + j], g, z, sums, i * LANES);
    }
}

// The columns `from` .. `to` − 1 into the sums, which hold those before.
pub fn add_columns(
    table: &[u8],
    rows: usize,
    columns: usize,
    z: usize,
    from: usize,
    to: usize,
    word: &[u8],
    sums: &mut [u8],
)
    requires { Adding table.now rows columns z word.now from sums.old × (from ≤ to) × (to ≤ columns) }
    ensures { Sums table.now rows columns z word.now to 0 sums.new }
{
    let mut g = [0u8; 192];
    for j in from..to {
        add_column(table, rows, columns, z, j, word, &mut g, sums);
    }
}

// Whether the z sums of row i are 0. Every one is looked at, with no early way out, so that the loop is straight.
fn is_even(sums: &[u8], z: usize, i: usize) -> bool
    requires { (i * lanes + z ≤ length sums.now) × (i < 40) × (z ≤ 81) }
    ensures { result ≡ even_row sums.now z i }
{
    let at = i * LANES;
    let end = at + z;
    !bits::inner::some_over(0, &sums[at..end])
}

fn all_even(sums: &[u8], z: usize, rows: usize) -> bool
    requires { (length sums.now ≡ rows * lanes) × (rows ≤ 40) × (z ≤ 81) }
    ensures { result ≡ all_below rows (even_row sums.now z) }
{
    (0..rows).all(|row| is_even(sums, z, row))
}

// Whether all rows sum to even numbers over the whole word.
pub fn are_even(
    table: &[u8],
    rows: usize,
    columns: usize,
    z: usize,
    word: &[u8],
    sums: &mut [u8],
) -> bool
    requires { Adding table.now rows columns z word.now 0 sums.old }
    ensures { result ≡ checks table.now rows columns z word.now }
{
    add_columns(table, rows, columns, z, 0, columns, word, sums);
    all_even(sums, z, rows)
}
