// A record taken apart for showing. It was judged, so its numbers are small; whatever they are, there is an answer.
ghost use Rattle.std.specs.Prelude.{◌≤◌, ◌<◌};

use console::parts;
use text::octets;

// The numbers of a table and its record.
#[derive(Clone, Copy)]
pub struct Shape {
    pub kb: usize,
    pub m: usize,
    pub x: usize,
    pub kind: usize,
    pub t: usize,
    pub z: usize,
    // Where the table begins in the record.
    pub at: usize,
}

// Table i of a record, counted from 0.
pub fn of(record: &[u8], i: usize) -> Shape {
    let pair = parts::stretch(record, 10 + parts::times(4, i), 4);
    Shape {
        kb: octets::least(parts::two_octets(record, 0), 20),
        m: octets::least(parts::two_octets(record, 2), 12),
        x: octets::least(parts::two_octets(record, 4), 37),
        kind: parts::two_octets(record, 6),
        t: octets::least(parts::two_octets(record, 8), 3),
        z: octets::least(parts::two_octets(pair, 0), 81),
        at: parts::two_octets(pair, 2),
    }
}

impl Shape {
    pub fn rows(self) -> usize
        ensures { result ≤ 80 }
    {
        octets::least(self.m, 40) + octets::least(self.x, 40)
    }

    pub fn columns(self) -> usize
        ensures { result ≤ 120 }
    {
        octets::least(self.kb, 40) + self.rows()
    }

    // The first column behind the staircase.
    pub fn behind(self) -> usize
        ensures { result ≤ 80 }
    {
        octets::least(self.kb, 40) + octets::least(self.m, 40)
    }
}

// The entry in a row and a column: a shift, or EMPTY.
pub fn entry(record: &[u8], shape: Shape, row: usize, column: usize) -> usize
    ensures { result < 256 }
{
    let table = parts::stretch(record, shape.at, record.len());
    let entries = parts::stretch(table, parts::times(row, shape.columns()), shape.columns());
    parts::octet(entries, column)
}

// "255 for empty"
pub const EMPTY: usize = 255;
