// The rules of a profile record, in document 01's order ("Shelf and profile records", with document 02, CR 3), each with its number: up to Entry those of number 5,
// then those of number 6.
ghost use Rattle.std.specs.Prelude.{◌≡◌};
ghost use Rattle.rules.specs.Faults.{record_number};

#[derive(Clone, Copy, Debug, PartialEq, Eq)]
pub enum Rule {
    NoHeader = 1,
    Kb = 2,
    M = 3,
    X = 4,
    Rows = 5,
    Type = 6,
    Type1Extended = 7,
    T = 8,
    PairsCut = 9,
    Z = 10,
    ZRising = 11,
    FirstOffset = 12,
    NextOffset = 13,
    End = 14,
    Entry = 15,
    TopEmpty = 16,
    LastEmpty = 17,
    Between = 18,
    Outer = 19,
    Middle = 20,
    Column = 21,
    RowExtended = 22,
    OwnColumn = 23,
    LaterColumn = 24,
}

impl Rule {
    pub fn number(self) -> usize
        ensures { result ≡ record_number self }
    {
        self as usize
    }
}
