// Reading a shelf: its count, and the four numbers of an entry, the first two also as one (document 01, "Shelf and profile records").
ghost use Rattle.std.specs.Prelude.{◌≡◌, ◌+◌, ◌*◌, ◌≤◌, ◌<◌, length};
ghost use Rattle.shelf.specs.Shelf.{count, tenant, profile, offset, size, offset_due};
ghost use Rattle.shelf.specs.Steps.Walking.{pair, pair_in};

pub fn count(shelf: &[u8]) -> usize
    requires { 2 ≤ length shelf.now }
    ensures { (result ≡ count shelf.now) × (result < 65536) }
{
    bits::inner::number_at(shelf, 0)
}

pub fn tenant(shelf: &[u8], k: usize) -> usize
    requires { 10 + 8 * k ≤ length shelf.now }
    ensures { (result ≡ tenant shelf.now k) × (result < 65536) }
{
    bits::inner::number_at(shelf, 2 + 8 * k)
}

pub fn profile(shelf: &[u8], k: usize) -> usize
    requires { 10 + 8 * k ≤ length shelf.now }
    ensures { (result ≡ profile shelf.now k) × (result < 65536) }
{
    bits::inner::number_at(shelf, 4 + 8 * k)
}

// The same of an entry that is at hand.
pub fn pair_in(head: &[u8; 8]) -> usize
    ensures { (result ≡ pair_in head.now) × (result < 4294967296) }
{
    bits::inner::number_at(head, 0) * 65536 + bits::inner::number_at(head, 2)
}

// One number to compare where two would be: it is below another exactly where the pair is.
pub fn pair(shelf: &[u8], k: usize) -> usize
    requires { 10 + 8 * k ≤ length shelf.now }
    ensures { (result ≡ pair shelf.now k) × (result < 4294967296) }
{
    tenant(shelf, k) * 65536 + profile(shelf, k)
}

pub fn offset(shelf: &[u8], k: usize) -> usize
    requires { 10 + 8 * k ≤ length shelf.now }
    ensures { (result ≡ offset shelf.now k) × (result < 65536) }
{
    bits::inner::number_at(shelf, 6 + 8 * k)
}

pub fn size(shelf: &[u8], k: usize) -> usize
    requires { 10 + 8 * k ≤ length shelf.now }
    ensures { (result ≡ size shelf.now k) × (result < 65536) }
{
    bits::inner::number_at(shelf, 8 + 8 * k)
}

// "Each next offset is the end of the record before": where record k is due to start; asked past the last one, where the shelf is due to end.
pub fn due(shelf: &[u8], k: usize) -> usize
    requires { (2 + 8 * count shelf.now ≤ length shelf.now) × (k ≤ count shelf.now) }
    ensures { (result ≡ offset_due shelf.now k) × (result < 524288) }
{
    if k == 0 {
        return 2 + 8 * count(shelf);
    }
    offset(shelf, k - 1) + size(shelf, k - 1)
}
