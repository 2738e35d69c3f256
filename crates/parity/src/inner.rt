// For the crates above: whether a z and a length are the profile's; coding and checking where the table is known to go with z and the word's length is right.
ghost use Rattle.std.specs.Prelude.{◌≡◌, cond, ◌+◌, ◌*◌, ◌≤◌, length, IfOk};
ghost use Rattle.bits.specs.Refusals.{number_of};
ghost use Rattle.profile.specs.Promises.{judged};
ghost use Rattle.parity.specs.Matrix.{checks};
ghost use Rattle.parity.specs.Promises.{unfit};
ghost use Rattle.parity.specs.Steps.Gate.{size_at};
ghost use Rattle.parity.specs.Steps.Grouped.{Shape, Codable, Begun, Solution};
ghost use Rattle.parity.specs.Steps.Runs.{Sums};

use crate::run::LANES;
use crate::{extension, stairs, sums};
use bits::number::Refusal;

// Which of the profile's sizes z is, where w is n groups of z places. The product is made only of a z that is a size.
pub fn admit_size(profile: &[u8], z: usize, n: usize, w: &[u8]) -> Result<usize, Refusal>
    requires { (judged profile.now ≡ 0) × (n ≤ 60) }
    ensures number { number_of result ≡ cond (unfit profile.now z n w.now) 8 0 }
    ensures found { IfOk result (λ i. i ≡ size_at profile.now z) }
{
    let Some(index) = profile::inner::index_of(profile, z) else {
        return Err(Refusal::Parameter);
    };
    if w.len() == n * z {
        return Ok(index);
    }
    Err(Refusal::Parameter)
}

// Most tables have few rows: these are given less room, so that no more is cleared for a small block than it takes. Both users choose the room themselves: one that
// lends it to a closure would have to say what the closure makes of it, which is longer.
const FEW: usize = 12;

const MOST: usize = 40;

// Whether the word checks: every row of the spread-out matrix sums to an even number over it.
pub fn checks(table: &[u8], rows: usize, columns: usize, z: usize, word: &[u8]) -> bool
    requires { Shape table.now rows columns z × (length word.now ≡ columns * z) }
    ensures { result ≡ checks table.now rows columns z word.now }
{
    let n = rows * LANES;
    if rows <= FEW {
        let mut few = [0u8; FEW * LANES];
        return sums::are_even(table, rows, columns, z, word, &mut few[..n]);
    }
    let mut many = [0u8; MOST * LANES];
    sums::are_even(table, rows, columns, z, word, &mut many[..n])
}

// Lays the staircase's m columns. `room` holds the sums of all rows, zeros at first, and then those over the columns 0 .. kb.
fn climb(
    table: &[u8],
    kb: usize,
    m: usize,
    rows: usize,
    columns: usize,
    z: usize,
    word: &mut [u8],
    room: &mut [u8],
)
    requires { Codable table.now kb m rows columns z word.old × Sums table.now rows columns z word.old 0 0 room.old }
    ensures { Begun table.now kb m columns z word.old m word.new × Sums table.now rows columns z word.new (kb + 1) 0 room.new }
{
    sums::add_columns(table, rows, columns, z, 0, kb, word, room);
    stairs::lay_first(room, m, z, word, kb * z);
    sums::add_columns(table, rows, columns, z, kb, kb + 1, word, room);
    stairs::lay_next(room, m, z, word, (kb + 1) * z);
}

// Writes the parity places of the word behind its systematic ones: the staircase, and where there are rows past it their columns, over all that stands before.
fn solve(
    table: &[u8],
    kb: usize,
    m: usize,
    rows: usize,
    columns: usize,
    z: usize,
    word: &mut [u8],
    room: &mut [u8],
)
    requires { Codable table.now kb m rows columns z word.old × Sums table.now rows columns z word.old 0 0 room.old }
    ensures { Solution table.now kb m rows columns z word.old word.new }
{
    climb(table, kb, m, rows, columns, z, word, room);
    if m < rows {
        sums::add_columns(table, rows, columns, z, kb + 1, kb + m, word, room);
        extension::lay_later(table, kb, m, rows, columns, z, word, room);
    }
}

// Writes the parity places of the word whose systematic places, bits and filler marks, stand in front.
pub fn code(
    table: &[u8],
    kb: usize,
    m: usize,
    rows: usize,
    columns: usize,
    z: usize,
    word: &mut [u8],
)
    requires { Codable table.now kb m rows columns z word.old }
    ensures { Solution table.now kb m rows columns z word.old word.new }
{
    let n = rows * LANES;
    if rows <= FEW {
        let mut few = [0u8; FEW * LANES];
        return solve(table, kb, m, rows, columns, z, word, &mut few[..n]);
    }
    let mut many = [0u8; MOST * LANES];
    solve(table, kb, m, rows, columns, z, word, &mut many[..n])
}
