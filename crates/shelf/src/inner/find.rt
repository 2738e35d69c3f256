// Which record a tenant is given, and where it lies: each shelf is searched once.
ghost use Rattle.std.specs.Prelude.{◌≡◌, true, ◌+◌, ◌*◌, ◌≤◌, ◌<◌, length};
ghost use Rattle.shelf.specs.Shelf.{count, private_shelf, public_shelf};
ghost use Rattle.shelf.specs.Steps.Walking.{PairsRise};
ghost use Rattle.shelf.specs.Steps.Finding.{Parted, Entry, entry_found, Looked};

use crate::inner::{Found, entry};
use bits::number::Refusal;

// How many entries have a pair below the one that is asked for: pairs rise.
pub fn place_of(shelf: &[u8], asked: usize) -> usize
    requires { (2 + 8 * count shelf.now ≤ length shelf.now) × PairsRise shelf.now }
    ensures { Parted shelf.now asked result result }
{
    let end = 2 + 8 * entry::count(shelf);
    let (heads, _) = shelf[2..end].as_chunks::<8>();
    heads.partition_point(|head| entry::pair_in(head) < asked)
}

// The entry of a tenant and a profile number, where there is one.
fn entry_of(shelf: &[u8], tenant: usize, profile: usize) -> Option<usize>
    requires { (2 + 8 * count shelf.now ≤ length shelf.now) × PairsRise shelf.now × (tenant < 65536) × (profile < 65536) }
    ensures { Entry shelf.now tenant profile result }
{
    let asked = tenant * 65536 + profile;
    let k = place_of(shelf, asked);
    if k < entry::count(shelf) && entry::pair(shelf, k) == asked {
        return Some(k);
    }
    None
}

fn found_at(own: bool, shelf: &[u8], k: usize) -> Found
    requires { 10 + 8 * k ≤ length shelf.now }
    ensures { result ≡ entry_found own shelf.now k }
{
    let at = entry::offset(shelf, k);
    let size = entry::size(shelf, k);
    Found { own, at, size }
}

// "It answers the tenant's own record, else the public record of that number."
pub fn choose(
    private: &[u8],
    public: &[u8],
    tenant: usize,
    profile: usize,
) -> Result<Found, Refusal>
    requires { (1 ≤ tenant) × (private_shelf private.now ≡ true) × (public_shelf public.now ≡ true) × (tenant < 65536) × (profile < 65536) }
    ensures { Looked private.now public.now tenant profile result }
{
    if let Some(k) = entry_of(private, tenant, profile) {
        return Ok(found_at(true, private, k));
    }
    if let Some(k) = entry_of(public, 0, profile) {
        return Ok(found_at(false, public, k));
    }
    Err(Refusal::NoRecord)
}
