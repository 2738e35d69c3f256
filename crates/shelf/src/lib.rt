// Shelves: the record that a tenant is given, and the hosted calls, which look it up first. Coding and checking are known by their promises only.
#![tactic(auto)]

pub mod inner;

ghost use Rattle.std.specs.Prelude.{◌≡◌};
ghost use Rattle.shelf.specs.Lookup.{lookup_number};
ghost use Rattle.bits.specs.Refusals.{number_of, written};
ghost use Rattle.checking.specs.Promises.{verdict};
ghost use Rattle.shelf.specs.Promises.{stretch_or, LookedUp, HostedSent, HostedReceived, HostedChecked};

use crate::inner::{look, stretch};
use bits::count::{CodedBits, Terms};
use bits::number::Refusal;
use checking::Checker;

// "What is handed back is that stretch of one shelf or the other, not a copy."
pub fn lookup<'a>(
    private: &'a [u8],
    public: &'a [u8],
    tenant: u16,
    profile: u16,
) -> Result<&'a [u8], Refusal>
    ensures number { number_of result ≡ lookup_number private.now public.now tenant profile }
    ensures stretch { LookedUp private.entry public.entry tenant profile (stretch_or public.entry result) }
{
    let found = look(private, public, tenant, profile)?;
    Ok(stretch(private, public, found))
}

// Sends a transport block with the profile that a tenant is given: the refusal of the lookup, else what sending answers.
pub fn hosted_send<'a>(
    private: &'a [u8],
    public: &'a [u8],
    tenant: u16,
    profile: u16,
    block: &[u8],
    terms: Terms,
    g: CodedBits,
    out: &mut [u8],
) -> Result<usize, Refusal>
    ensures { HostedSent private.now public.now tenant profile block.now terms g.0 out.old (written result) out.new }
{
    let given = stretch(private, public, look(private, public, tenant, profile)?);
    coding::send(given, block, terms, g, out)
}

// Receives radio bits with the profile that a tenant is given, the same way.
pub fn hosted_receive<'a>(
    private: &'a [u8],
    public: &'a [u8],
    tenant: u16,
    profile: u16,
    a: usize,
    terms: Terms,
    bits: &[u8],
    checker: Checker,
    out: &mut [u8],
) -> Result<usize, Refusal>
    ensures { HostedReceived private.now public.now tenant profile a terms bits.now out.old (written result) out.new }
{
    let record = stretch(private, public, look(private, public, tenant, profile)?);
    coding::receive(record, a, terms, bits, checker, out)
}

// Checks one word of bits with the profile that a tenant is given, the same way: for those who hold a word beside a printed matrix.
pub fn hosted_check<'a>(
    private: &'a [u8],
    public: &'a [u8],
    tenant: u16,
    profile: u16,
    z: usize,
    word: &[u8],
    checker: Checker,
) -> Result<bool, Refusal>
    ensures { HostedChecked private.now public.now tenant profile z word.now (verdict result) }
{
    let printed = stretch(private, public, look(private, public, tenant, profile)?);
    checking::check_word(printed, z, word, checker)
}
