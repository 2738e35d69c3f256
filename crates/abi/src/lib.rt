// The library for C and Rust: every public call under the name that `abi_c` exports, over numbers, octets and structs that lie in memory as C's do. Nothing is
// decided here: each function answers what the call below promises. include/kuambyte.h says it to C, rust/kuambyte to Rust.
#![tactic(auto)]

pub mod blocks;
pub mod control_words;
pub mod records;
pub mod shelves;
pub mod sums;
pub mod transport;
