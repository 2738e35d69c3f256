// The names that a linker finds: each function of `abi` once more, with its promise, as C calls it. A library that other crates stand on exports nothing itself.
#![tactic(auto)]

mod blocks;
mod control_words;
mod records;
mod shelves;
mod sums;
mod transport;
