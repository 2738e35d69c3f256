// The least G with which every code block has room, in words.
ghost use Rattle.std.specs.Prelude.{◌≤◌};

use crate::asked::Parameters;
use crate::calls;
use advice::Least;
use bits::count::CodedBits;
use console::page;

// Puts the least G, and the blocks' shares of it, behind the text; `room` is the word for what it has, where that was not said before.
pub fn put(record: &[u8], asked: Parameters, room: &[u8], page: &mut [u8], at: usize) -> usize {
    let Ok(least) = calls::least(record, asked) else {
        let a = page::put(b"no G up to 65536 has", page, at);
        return page::put(room, page, a);
    };
    put_least(least, room, page, at)
}

fn put_least(least: Least, room: &[u8], page: &mut [u8], at: usize) -> usize
    requires { least.larger ≤ least.blocks }
{
    let a = page::form(b"G # is the least that has", &[least.bits.0], page, at);
    let b = page::put(room, page, a);
    let c = page::put(b" (", page, b);
    let d = put_shares(least, page, c);
    page::put(b")", page, d)
}

// Puts how the blocks share the least G: "4 blocks of 178", or "2 blocks of 16 and 4 of 14" where the first ones have more.
pub fn put_shares(least: Least, page: &mut [u8], at: usize) -> usize
    requires { least.larger ≤ least.blocks }
{
    if least.larger == 0 {
        return put_alike(least.blocks, least.first, page, at);
    }
    let a = put_alike(least.larger, least.first, page, at);
    let others = least.blocks - least.larger;
    page::form(b" and # of #", &[others, least.last.0], page, a)
}

// Puts so many blocks that have the same share.
fn put_alike(blocks: usize, share: CodedBits, page: &mut [u8], at: usize) -> usize {
    let numbers = [blocks, share.0];
    if blocks == 1 {
        return page::form(b"# block of #", &numbers, page, at);
    }
    page::form(b"# blocks of #", &numbers, page, at)
}
