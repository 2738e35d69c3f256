// For the layers above that want a lookup's number and its stretch at once: each shelf is judged once and searched once.
pub mod entry;
pub mod find;
pub mod form;

ghost use Rattle.std.specs.Prelude.{◌≡◌};
ghost use Rattle.shelf.specs.Steps.Finding.{stretch_of, place_of, Inside, Looked};

use bits::number::Refusal;

// Where the octets lie: in the private shelf where `own`, else in the public one. A place and not a reference, so that one lookup serves the stretch, the
// hosted calls and those who tell the place.
#[derive(Clone, Copy)]
pub struct Found {
    pub own: bool,
    pub at: usize,
    pub size: usize,
}

// The refusals 1 to 4 in their order. Both shelves are judged before one is searched, so that what the search reads is there.
pub fn look(private: &[u8], public: &[u8], tenant: u16, profile: u16) -> Result<Found, Refusal>
    ensures { Looked private.now public.now tenant profile result }
{
    if tenant == 0 {
        return Err(Refusal::TenantZero);
    }
    if !form::well_formed(true, private) {
        return Err(Refusal::PrivateShelf);
    }
    if !form::well_formed(false, public) {
        return Err(Refusal::PublicShelf);
    }
    find::choose(private, public, tenant as usize, profile as usize)
}

// The octets that were found, where they lie: nothing is copied.
pub fn stretch<'a>(private: &'a [u8], public: &'a [u8], found: Found) -> &'a [u8]
    requires { Inside private.now public.now found }
    ensures { (result.now ≡ stretch_of private.now public.now found) × (result.ref_ptr ≡ place_of private.entry.ref_ptr public.entry.ref_ptr found) }
{
    let start = found.at;
    let end = start + found.size;
    if found.own {
        return &private[start..end];
    }
    &public[start..end]
}
