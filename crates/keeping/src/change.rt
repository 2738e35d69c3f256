// A change of a private shelf before it is written: its refusal, or where it is made and how many octets the new shelf has.
ghost use Rattle.std.specs.Prelude.{◌≡◌, true, ◌+◌, ◌<◌, ◌≤◌};
ghost use Rattle.shelf.specs.Shelf.{count, private_shelf};
ghost use Rattle.keeping.specs.Entries.{entries_put, entries_left};
ghost use Rattle.keeping.specs.Promises.{put_number, remove_number};
ghost use Rattle.keeping.specs.Steps.Places.{Within, Roomed, Changes};

use crate::spot;
use crate::spot::Spot;
use bits::number::Refusal;
use shelf::inner::{entry, form};

#[derive(Clone, Copy)]
pub struct Change {
    pub spot: Spot,
    pub size: usize,
}

// 26 and 11 for a record of n octets that goes to its place.
fn with_room(private: &[u8], spot: Spot, n: usize, lent: usize) -> Result<Change, Refusal>
    requires { (private_shelf private.now ≡ true) × (spot.gone ≤ 1) × (spot.at + spot.gone ≤ count private.now) }
    ensures { Roomed private.now spot.at spot.gone n lent result }
{
    if 64 < entry::count(private) + 1 - spot.gone {
        return Err(Refusal::FullShelf);
    }
    if 65535 < n {
        return Err(Refusal::FullShelf);
    }
    let size = private.len() - spot::freed(private, spot) + 8 + n;
    if 65535 < size {
        return Err(Refusal::FullShelf);
    }
    within(spot, size, lent)
}

// 11 for a new shelf of so many octets.
fn within(spot: Spot, size: usize, lent: usize) -> Result<Change, Refusal>
    ensures { Within spot.at spot.gone size lent result }
{
    if lent < size {
        return Err(Refusal::ShortOutput);
    }
    Ok(Change { spot, size })
}

// Putting a record: 1, 2, 5, 6, 26, 11.
pub fn putting(
    private: &[u8],
    tenant: usize,
    profile: usize,
    octets: &[u8],
    lent: usize,
) -> Result<Change, Refusal>
    requires { (tenant < 65536) × (profile < 65536) }
    ensures { Changes private.now tenant profile (entries_put private.now tenant profile octets.now) lent (put_number private.now tenant profile octets.now lent) result }
{
    if tenant == 0 {
        return Err(Refusal::TenantZero);
    }
    if !form::well_formed(true, private) {
        return Err(Refusal::PrivateShelf);
    }
    profile::judge(octets)?;
    let place = spot::of(private, tenant, profile);
    with_room(private, place, octets.len(), lent)
}

// Removing one: 1, 2, 4, 11.
pub fn removing(
    private: &[u8],
    tenant: usize,
    profile: usize,
    lent: usize,
) -> Result<Change, Refusal>
    requires { (tenant < 65536) × (profile < 65536) }
    ensures { Changes private.now tenant profile (entries_left private.now tenant profile) lent (remove_number private.now tenant profile lent) result }
{
    if tenant == 0 {
        return Err(Refusal::TenantZero);
    }
    if !form::well_formed(true, private) {
        return Err(Refusal::PrivateShelf);
    }
    let place = spot::of(private, tenant, profile);
    if place.gone == 0 {
        return Err(Refusal::NoRecord);
    }
    let size = private.len() - spot::freed(private, place);
    within(place, size, lent)
}
