// Writing the new shelf: its count, its heads, and its records, which are stretches of the old shelf and the record that is put.
ghost use Rattle.std.specs.Prelude.{◌≡◌, true, ◌+◌, ◌-◌, ◌*◌, ◌<◌, ◌≤◌, length};
ghost use Rattle.std.proofs.lemmas.List.Edits.{sets};
ghost use Rattle.shelf.specs.Shelf.{count, tenant, profile, size, private_shelf};
ghost use Rattle.keeping.specs.Entries.{entries_from, entries_put, entries_left, two_octets, head, heads, records, shelf_of};
ghost use Rattle.keeping.specs.Steps.Places.{Ready};

use crate::spot::Spot;
use shelf::inner::entry;

// "All numbers here are two octets, high octet first."
fn put_number(out: &mut [u8], at: usize, n: usize)
    requires { (n < 65536) × (at + 2 ≤ length out.old) }
    ensures { out.new ≡ sets out.old at (two_octets n) }
{
    out[at] = (n / 256) as u8;
    out[at + 1] = (n % 256) as u8;
}

fn put_head(out: &mut [u8], at: usize, tenant: usize, profile: usize, offset: usize, size: usize)
    requires { (tenant < 65536) × (profile < 65536) × (offset < 65536) × (size < 65536) × (at + 8 ≤ length out.old) }
    ensures { out.new ≡ sets out.old at (head tenant profile offset size) }
{
    put_number(out, at, tenant);
    put_number(out, at + 2, profile);
    put_number(out, at + 4, offset);
    put_number(out, at + 6, size);
}

// The heads of the entries from `from` to `to`, whose records begin at `offset` on the new shelf; answers where the next one begins.
fn put_heads(
    private: &[u8],
    from: usize,
    to: usize,
    out: &mut [u8],
    at: usize,
    offset: usize,
) -> usize
    requires { (private_shelf private.now ≡ true) × (from ≤ to) × (to ≤ count private.now) × (at + 8 * (to - from) ≤ length out.old) × (offset + length (records (entries_from private.now (to - from) from)) ≤ 65535) }
    ensures { (out.new ≡ sets out.old at (heads offset (entries_from private.now (to - from) from))) × (result ≡ offset + length (records (entries_from private.now (to - from) from))) }
{
    let mut next = offset;
    let mut place = at;
    for k in from..to {
        next = put_entry(private, k, out, place, next);
        place += 8;
    }
    next
}

fn put_entry(private: &[u8], k: usize, out: &mut [u8], at: usize, offset: usize) -> usize
    requires { (private_shelf private.now ≡ true) × (k < count private.now) × (at + 8 ≤ length out.old) × (offset < 65536) }
    ensures { (out.new ≡ sets out.old at (head (tenant private.now k) (profile private.now k) offset (size private.now k))) × (result ≡ offset + size private.now k) }
{
    let size = entry::size(private, k);
    put_head(
        out,
        at,
        entry::tenant(private, k),
        entry::profile(private, k),
        offset,
        size,
    );
    offset + size
}

// The records of the entries from `from` to `to`, which stand one behind the other on the old shelf as well.
fn put_records(private: &[u8], from: usize, to: usize, out: &mut [u8], at: usize)
    requires { (private_shelf private.now ≡ true) × (from ≤ to) × (to ≤ count private.now) × (at + length (records (entries_from private.now (to - from) from)) ≤ length out.old) }
    ensures { out.new ≡ sets out.old at (records (entries_from private.now (to - from) from)) }
{
    let start = entry::due(private, from);
    let end = entry::due(private, to);
    bits::inner::lay(private, start, out, at, end - start);
}

// The shelf with a record put at its place.
pub fn with_record(
    private: &[u8],
    spot: Spot,
    tenant: usize,
    profile: usize,
    octets: &[u8],
    out: &mut [u8],
    size: usize,
)
    requires { (tenant < 65536) × (profile < 65536) × Ready private.now tenant profile spot.at spot.gone (entries_put private.now tenant profile octets.now) size (length out.old) }
    ensures { out.new ≡ sets out.old 0 (shelf_of (entries_put private.now tenant profile octets.now)) }
{
    let count = entry::count(private);
    let at = spot.at;
    let behind = at + spot.gone;
    let kept = count + 1 - spot.gone;
    let first = 2 + 8 * kept;
    let n = octets.len();
    put_number(out, 0, kept);
    let mine = put_heads(private, 0, at, out, 2, first);
    put_head(out, 2 + 8 * at, tenant, profile, mine, n);
    put_heads(private, behind, count, out, 10 + 8 * at, mine + n);
    put_records(private, 0, at, out, first);
    bits::inner::lay(octets, 0, out, mine, n);
    put_records(private, behind, count, out, mine + n);
}

// The shelf without the record at a place.
pub fn without_record(
    private: &[u8],
    spot: Spot,
    tenant: usize,
    profile: usize,
    out: &mut [u8],
    size: usize,
)
    requires { (spot.gone ≡ 1) × Ready private.now tenant profile spot.at spot.gone (entries_left private.now tenant profile) size (length out.old) }
    ensures { out.new ≡ sets out.old 0 (shelf_of (entries_left private.now tenant profile)) }
{
    let count = entry::count(private);
    let at = spot.at;
    let behind = at + 1;
    let kept = count - 1;
    let first = 2 + 8 * kept;
    put_number(out, 0, kept);
    let next = put_heads(private, 0, at, out, 2, first);
    put_heads(private, behind, count, out, 2 + 8 * at, next);
    put_records(private, 0, at, out, first);
    put_records(private, behind, count, out, next);
}
