// Which rule of document 01 a shelf or a profile record breaks first, and where: numbers and places, to which the desk puts the words.
#![tactic(auto)]

mod entries;
mod first;
mod pairs;
pub mod record_rule;
pub mod shelf_rule;
mod stairs;
mod tables;

ghost use Rattle.std.specs.Prelude.{◌≡◌};
ghost use Rattle.rules.specs.Faults.{broken, wrong};
ghost use Rattle.rules.specs.Promises.{ShelfRule, RecordRule};

use shelf::inner::entry;

// The rule that a shelf breaks first; the entry, 0 where none is concerned; and the octet where, both counted from 0.
#[derive(Clone, Copy)]
pub struct ShelfFault {
    pub rule: shelf_rule::Rule,
    pub entry: usize,
    pub at: usize,
}

// The same of a record: the table, the row and the column, 0 where none is concerned, and the octet where.
#[derive(Clone, Copy)]
pub struct RecordFault {
    pub rule: record_rule::Rule,
    pub table: usize,
    pub row: usize,
    pub column: usize,
    pub at: usize,
}

// What C is answered of a shelf: the number of the rule, 0 for none.
#[repr(C)]
#[derive(Clone, Copy)]
pub struct Broken {
    pub rule: usize,
    pub entry: usize,
    pub at: usize,
}

impl From<Option<ShelfFault>> for Broken {
    ghost from_gives = { λ answer r. r ≡ broken answer };

    fn from(answer: Option<ShelfFault>) -> Broken {
        match answer {
            Some(fault) => Broken {
                rule: fault.rule.number(),
                entry: fault.entry,
                at: fault.at,
            },
            None => Broken {
                rule: 0,
                entry: 0,
                at: 0,
            },
        }
    }
}

// What C is answered of a record.
#[repr(C)]
#[derive(Clone, Copy)]
pub struct Wrong {
    pub rule: usize,
    pub table: usize,
    pub row: usize,
    pub column: usize,
    pub at: usize,
}

impl From<Option<RecordFault>> for Wrong {
    ghost from_gives = { λ answer r. r ≡ wrong answer };

    fn from(answer: Option<RecordFault>) -> Wrong {
        match answer {
            Some(fault) => Wrong {
                rule: fault.rule.number(),
                table: fault.table,
                row: fault.row,
                column: fault.column,
                at: fault.at,
            },
            None => Wrong {
                rule: 0,
                table: 0,
                row: 0,
                column: 0,
                at: 0,
            },
        }
    }
}

// The rule that a shelf breaks first.
pub fn of_shelf(private: bool, octets: &[u8]) -> Option<ShelfFault>
    ensures { ShelfRule private octets.now (broken result) }
{
    let size = octets.len();
    if size < 2 {
        return Some(entries::of_count(shelf_rule::Rule::NoCount, size));
    }
    let count = entry::count(octets);
    if 64 < count {
        return Some(entries::of_count(shelf_rule::Rule::Count, 0));
    }
    if size < 2 + 8 * count {
        return Some(entries::of_count(shelf_rule::Rule::EntriesCut, size));
    }
    entries::of_entries(private, octets, count)
}

// The rule that a record breaks first.
pub fn of_record(octets: &[u8]) -> Option<RecordFault>
    ensures { RecordRule octets.now (wrong result) }
{
    let size = octets.len();
    if size < 10 {
        return Some(pairs::of_whole(record_rule::Rule::NoHeader, size));
    }
    pairs::of_header(octets)
}
