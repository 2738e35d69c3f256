// Whether a shelf is well formed (document 01, "Shelf and profile records"), in one walk over its entries. The sizes go first, so that what
// is read is there. "Record contents are not judged here."
ghost use Rattle.std.specs.Prelude.{◌≡◌, true, ◌&&◌, ◌+◌, ◌*◌, ◌≤◌, eqb, leb, length};
ghost use Rattle.shelf.specs.Shelf.{offset, well_formed};
ghost use Rattle.shelf.specs.Steps.Walking.{sizes_right, tenants_right, pair, entries_right};

use crate::inner::entry;

// The count and the entries stand in the shelf.
fn sizes_right(shelf: &[u8]) -> bool
    ensures { result ≡ sizes_right shelf.now }
{
    if shelf.len() < 2 {
        return false;
    }
    if 65535 < shelf.len() {
        return false;
    }
    let count = entry::count(shelf);
    if 64 < count {
        return false;
    }
    2 + 8 * count <= shelf.len()
}

// "Every tenant is 0 in a public shelf and 1 or more in a private one": tenants do not fall, so one of them tells.
fn tenants_right(private: bool, shelf: &[u8]) -> bool
    requires { sizes_right shelf.now ≡ true }
    ensures { result ≡ tenants_right private shelf.now }
{
    let count = entry::count(shelf);
    if count == 0 {
        return true;
    }
    if private {
        return 1 <= entry::tenant(shelf, 0);
    }
    entry::tenant(shelf, count - 1) == 0
}

fn entry_right(shelf: &[u8], k: usize, least: usize, due: usize) -> bool
    requires { 10 + 8 * k ≤ length shelf.now }
    ensures { result ≡ (leb least (pair shelf.now k) && eqb (offset shelf.now k) due) }
{
    least <= entry::pair(shelf, k) && entry::offset(shelf, k) == due
}

// The least pair and the offset that are due are carried along, so that each entry is read once.
fn entries_right(shelf: &[u8]) -> bool
    requires { sizes_right shelf.now ≡ true }
    ensures { result ≡ entries_right shelf.now }
{
    let count = entry::count(shelf);
    let mut least = 0;
    let mut due = 2 + 8 * count;
    for k in 0..count {
        if !entry_right(shelf, k, least, due) {
            return false;
        }
        least = entry::pair(shelf, k) + 1;
        due += entry::size(shelf, k);
    }
    shelf.len() == due
}

pub fn well_formed(private: bool, shelf: &[u8]) -> bool
    ensures { result ≡ well_formed private shelf.now }
{
    sizes_right(shelf) && tenants_right(private, shelf) && entries_right(shelf)
}
