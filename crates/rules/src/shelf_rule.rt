// The rules of a shelf, in document 01's order ("Shelf and profile records"), each with its number.
ghost use Rattle.std.specs.Prelude.{◌≡◌};
ghost use Rattle.rules.specs.Faults.{shelf_number};

#[derive(Clone, Copy, Debug, PartialEq, Eq)]
pub enum Rule {
    NoCount = 1,
    Count = 2,
    EntriesCut = 3,
    Pairs = 4,
    FirstOffset = 5,
    NextOffset = 6,
    End = 7,
    Size = 8,
    Tenant = 9,
}

impl Rule {
    pub fn number(self) -> usize
        ensures { result ≡ shelf_number self }
    {
        self as usize
    }
}
