// The calls of the library that more than one command makes, each in one place.
ghost use Rattle.std.specs.Prelude.{◌≤◌, IfOk};

use crate::asked::Parameters;
use crate::shelves::Shelves;
use advice::Least;
use bits::number::Refusal;
use checking::Checker;

pub fn send<'a>(
    shelves: Shelves<'a>,
    asked: Parameters,
    block: &[u8],
    bits: &mut [u8],
) -> Result<usize, Refusal> {
    shelf::hosted_send(
        shelves.private,
        shelves.public,
        asked.tenant,
        asked.profile,
        block,
        asked.terms,
        asked.g,
        bits,
    )
}

// The checker that is asked for with --plain, or without it.
pub fn checker(plain: bool) -> Checker {
    if plain {
        return Checker::Plain;
    }
    Checker::Quick
}

pub fn receive<'a>(
    shelves: Shelves<'a>,
    asked: Parameters,
    bits: &[u8],
    checker: Checker,
    block: &mut [u8],
) -> Result<usize, Refusal> {
    shelf::hosted_receive(
        shelves.private,
        shelves.public,
        asked.tenant,
        asked.profile,
        // More than is read of a command is no A of a block, as 0 is none, and so it is refused.
        asked.octets.checked_mul(8).unwrap_or(0),
        asked.terms,
        bits,
        checker,
        block,
    )
}

// The least G with which every code block has room. The blocks with the larger share are no more than all blocks, so that the others can be counted.
pub fn least(record: &[u8], asked: Parameters) -> Result<Least, Refusal>
    ensures { IfOk result (λ least. least.larger ≤ least.blocks) }
{
    advice::least_bits(record, asked.octets, asked.terms)
}
