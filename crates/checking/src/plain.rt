// The plain checker, to be read beside a printed matrix: each row of the spread-out matrix is summed over the word, element by element.
ghost use Rattle.std.specs.Prelude.{◌≡◌, ◌++◌, ◌*◌, ◌≤◌, ◌<◌, length, drop};
ghost use Rattle.parity.specs.Matrix.{spread, bit_at, checks};
ghost use Rattle.parity.specs.Steps.Grouped.{Shape};
ghost use Rattle.checking.specs.Sums.{row_sum, row_sums};
ghost use Rattle.checking.specs.Steps.Spread.{HasRow};

use profile::inner::EMPTY;

// The element of the spread-out matrix in a row and at a place, both counted over the whole of it: "Shift s stands for the z by z matrix whose row i has its one
// in column (i+s) mod z. Empty stands for zeros."
fn element(table: &[u8], columns: usize, z: usize, row: usize, place: usize) -> u32
    requires { HasRow table.now columns z row × (place < columns * z) }
    ensures { (result ≡ spread table.now columns z row place) × (result < 2) }
{
    let s = table[row / z * columns + place / z];
    if s == EMPTY {
        return 0;
    }
    let one = (row % z + usize::from(s)) % z;
    if place % z == one {
        return 1;
    }
    0
}

// The bit at a place of the word: "a filler place is marked 2", and is "read as 0".
fn bit(word: &[u8], place: usize) -> u32
    requires { place < length word.now }
    ensures { (result ≡ bit_at word.now place) × (result < 256) }
{
    match word[place] {
        2 => 0,
        x => x as u32,
    }
}

// The sum of a row over the word, modulo two.
pub fn row_sum(table: &[u8], columns: usize, z: usize, word: &[u8], row: usize) -> u32
    requires { HasRow table.now columns z row × (length word.now ≡ columns * z) }
    ensures { (result ≡ row_sum table.now columns z word.now row) × (result < 2) }
{
    let places = columns * z;
    let mut sum = 0;
    for place in 0..places {
        sum = (sum + element(table, columns, z, row, place) * bit(word, place)) % 2;
    }
    sum
}

// "a word has (kb+m+x)·z bits" (document 02, CR 3), and it "checks when every row of the spread-out matrix sums to an even number over it".
pub fn rows_even(table: &[u8], rows: usize, columns: usize, z: usize, word: &[u8]) -> bool
    requires { Shape table.now rows columns z × (length word.now ≡ columns * z) }
    ensures { result ≡ checks table.now rows columns z word.now }
{
    (0..rows * z).all(|row| row_sum(table, columns, z, word, row) == 0)
}

// Writes the sum of every row over the word, modulo two.
pub fn put_sums(table: &[u8], rows: usize, columns: usize, z: usize, word: &[u8], out: &mut [u8])
    requires { Shape table.now rows columns z × (length word.now ≡ columns * z) × (rows * z ≤ length out.old) }
    ensures { out.new ≡ row_sums table.now rows columns z word.now ++ drop (rows * z) out.old }
{
    for (row, sum) in out[..rows * z].iter_mut().enumerate() {
        *sum = row_sum(table, columns, z, word, row) as u8;
    }
}
