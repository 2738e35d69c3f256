// Transport blocks: sent and received with a record at hand, or with the one that a tenant is given.
ghost use Rattle.std.specs.Prelude.{◌≡◌, false};
ghost use Rattle.coding.specs.Promises.{Sent, Received};
ghost use Rattle.shelf.specs.Promises.{HostedSent, HostedReceived, HostedChecked};
ghost use Rattle.abi.specs.Promises.{Held, Nothing};

use crate::blocks::checker;
use crate::shelves::too_large;
use bits::count::{CodedBits, Terms};
use bits::number::{Refusal, Written};
use checking::Verdict;

pub fn kuambyte_send(
    profile: &[u8],
    block: &[u8],
    terms: Terms,
    g: usize,
    out: &mut [u8],
) -> Written
    ensures { Sent profile.now block.now terms g out.old result out.new }
{
    Written::from(coding::send(profile, block, terms, CodedBits(g), out))
}

pub fn kuambyte_receive(
    profile: &[u8],
    a: usize,
    terms: Terms,
    bits: &[u8],
    checker: u32,
    out: &mut [u8],
) -> Written
    ensures { Received profile.now a terms bits.now out.old result out.new }
{
    Written::from(coding::receive(profile, a, terms, bits, checker::of(checker), out))
}

pub fn kuambyte_hosted_send<'a>(
    private: &'a [u8],
    public: &'a [u8],
    tenant: usize,
    profile: usize,
    block: &[u8],
    terms: Terms,
    g: usize,
    out: &mut [u8],
) -> Written
    ensures { Held tenant profile (Nothing 4 out.old result out.new) (HostedSent private.now public.now tenant profile block.now terms g out.old result out.new) }
{
    if too_large(tenant, profile) {
        return Written::from(Err(Refusal::NoRecord));
    }
    Written::from(shelf::hosted_send(
        private,
        public,
        tenant as u16,
        profile as u16,
        block,
        terms,
        CodedBits(g),
        out,
    ))
}

pub fn kuambyte_hosted_receive<'a>(
    private: &'a [u8],
    public: &'a [u8],
    tenant: usize,
    profile: usize,
    a: usize,
    terms: Terms,
    bits: &[u8],
    checker: u32,
    out: &mut [u8],
) -> Written
    ensures { Held tenant profile (Nothing 4 out.old result out.new) (HostedReceived private.now public.now tenant profile a terms bits.now out.old result out.new) }
{
    if too_large(tenant, profile) {
        return Written::from(Err(Refusal::NoRecord));
    }
    Written::from(shelf::hosted_receive(
        private,
        public,
        tenant as u16,
        profile as u16,
        a,
        terms,
        bits,
        checker::of(checker),
        out,
    ))
}

pub fn kuambyte_hosted_check<'a>(
    private: &'a [u8],
    public: &'a [u8],
    tenant: usize,
    profile: usize,
    z: usize,
    word: &[u8],
    checker: u32,
) -> Verdict
    ensures { Held tenant profile (result ≡ record { number = 4; checks = false }) (HostedChecked private.now public.now tenant profile z word.now result) }
{
    if too_large(tenant, profile) {
        return Verdict::from(Err(Refusal::NoRecord));
    }
    Verdict::from(shelf::hosted_check(
        private,
        public,
        tenant as u16,
        profile as u16,
        z,
        word,
        checker::of(checker),
    ))
}
