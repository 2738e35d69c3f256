// How far the reading of a shelf's text has come.
use crate::fault::{Expected, Fault, Misjudged};
use bits::number::Refusal;
use reasons::side::Side;

#[derive(Clone, Copy)]
pub enum Phase {
    // No record is begun, or the last one is whole.
    Between,
    // A record is begun, and each of its tables that is begun is whole.
    Tables,
    // A table is begun.
    Rows,
    // A refused record is begun, with its refusal; its octets are due.
    Octets(Refusal),
}

#[derive(Clone, Copy)]
pub struct State {
    pub side: Side,
    // The line, counted from 1, and the one that the record begins with.
    pub line: usize,
    pub head: usize,
    pub phase: Phase,
    // Whole records, and the octets that they fill of the store of records.
    pub entries: usize,
    pub used: usize,
    // The record that is begun, or the last one.
    pub tenant: usize,
    pub profile: usize,
    pub kb: usize,
    pub m: usize,
    pub x: usize,
    pub kind: usize,
    // Its tables so far, their sizes, and the octets that they fill of the store of tables.
    pub t: usize,
    pub sizes: [usize; 3],
    pub filled: usize,
    // The rows of a table, or the octets, that are still due.
    pub due: usize,
}

pub fn begin(side: Side) -> State {
    State {
        side,
        line: 0,
        head: 0,
        phase: Phase::Between,
        entries: 0,
        used: 0,
        tenant: 0,
        profile: 0,
        kb: 0,
        m: 0,
        x: 0,
        kind: 0,
        t: 0,
        sizes: [0; 3],
        filled: 0,
        due: 0,
    }
}

impl State {
    pub fn next_line(mut self) -> Self {
        self.line = self.line.saturating_add(1);
        self
    }

    // The fault of a line in which something else was expected at a place.
    pub fn fault(self, from: usize, expected: Expected) -> Fault {
        Fault::Unexpected {
            line: self.line,
            from,
            expected,
        }
    }

    // The fault of a record that is judged otherwise than the text says.
    pub fn misjudged(self, verdict: Result<(), Refusal>) -> Fault {
        Fault::Misjudged(Misjudged {
            line: self.head,
            tenant: self.tenant,
            profile: self.profile,
            start: self.used,
            size: self.filled,
            verdict,
        })
    }

    pub fn rows(self) -> usize {
        self.m.saturating_add(self.x)
    }

    pub fn columns(self) -> usize {
        self.kb.saturating_add(self.rows())
    }

    // The row of the table that is begun, counted from 1, which is due.
    pub fn row_due(self) -> Expected {
        let rows = self.rows();
        Expected::Row {
            row: rows.saturating_sub(self.due).saturating_add(1),
            rows,
        }
    }

    // The z of the last table that is begun, or 0.
    pub fn size(self) -> usize {
        match self.t {
            1..=3 => self.sizes[self.t - 1],
            _ => 0,
        }
    }
}
