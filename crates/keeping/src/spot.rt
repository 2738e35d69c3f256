// Where the entry of a tenant and a profile number stands on a private shelf, or belongs.
ghost use Rattle.std.specs.Prelude.{◌≡◌, true, ◌+◌, ◌<◌, ◌≤◌};
ghost use Rattle.shelf.specs.Shelf.{count, private_shelf};
ghost use Rattle.keeping.specs.Steps.Places.{Spotted, freed};

use shelf::inner::{entry, find};

// `at` entries have a pair below the one that is asked for, and the `gone` behind them, 1 or none, have that pair: a count and no flag, since what stays begins
// at at + gone and the new shelf has count + 1 - gone entries.
#[derive(Clone, Copy)]
pub struct Spot {
    pub at: usize,
    pub gone: usize,
}

pub fn of(private: &[u8], tenant: usize, profile: usize) -> Spot
    requires { (private_shelf private.now ≡ true) × (tenant < 65536) × (profile < 65536) }
    ensures { Spotted private.now tenant profile result.at result.gone }
{
    let asked = tenant * 65536 + profile;
    let at = find::place_of(private, asked);
    if at < entry::count(private) && entry::pair(private, at) == asked {
        return Spot { at, gone: 1 };
    }
    Spot { at, gone: 0 }
}

// The octets that the entry takes up, its head and its record.
pub fn freed(private: &[u8], spot: Spot) -> usize
    requires { (private_shelf private.now ≡ true) × (spot.gone ≤ 1) × (spot.at + spot.gone ≤ count private.now) }
    ensures { result ≡ freed private.now spot.at spot.gone }
{
    if spot.gone == 0 {
        return 0;
    }
    8 + entry::size(private, spot.at)
}
