// What each answered number means: the one place where the words for it stand (document 01, "Numbers that are answered").
use crate::page;
use bits::number::Refusal;

// The highest number that a call may answer; a number is the exit status too.
pub const HIGHEST: u32 = 26;

// Puts the meaning of a number behind the text, or nothing where it has none.
pub fn line(number: u32, page: &mut [u8], at: usize) -> usize {
    page::put(meaning(number), page, at)
}

fn meaning(number: u32) -> &'static [u8] {
    match number {
        0 => b"done",
        1 => b"the asking tenant is 0",
        2 => b"the private shelf is not well formed",
        3 => b"the public shelf is not well formed",
        4 => b"neither shelf has the record",
        5 => b"the profile record is not well formed",
        6 => b"a table of the profile is no staircase, or its extension is wrong",
        7 => b"the transport block is not 1 to 2048 octets",
        8 => b"N_L, Q_m, G or E is not one that can be sent with",
        9 =>
            b"the block takes more than 64 code blocks, or in edition 2 a code block has no room beside its checksum",
        10 => b"G has fewer symbol places than there are code blocks",
        11 => b"the output is shorter than the result",
        12 => b"a received octet is over 1",
        13 => b"there is no room for all coded bits",
        14 => b"nothing is sent as these bits",
        15 =>
            b"unused: never answered, since every code block has parity bits with which it checks",
        16 => b"the redundancy version is over 3, or is not 0 and the profile is of Type 1",
        17 => b"the control word is not 6 to 128 bits",
        19 => b"the edition is not 1 or 2",
        26 => b"the shelf has no room: it would have over 64 entries or 65535 octets",
        _ => b"",
    }
}

// Puts the meaning of a refusal.
pub fn put(refusal: Refusal, page: &mut [u8], at: usize) -> usize {
    line(refusal.number(), page, at)
}

pub fn exit_status(refusal: Refusal) -> i32 {
    refusal as i32
}
