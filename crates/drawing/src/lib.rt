// The command `show`: a profile record as a grid of shifts, or its spread-out matrix as a picture.
#![tactic(auto)]

mod grid;
mod parted;
mod picture;
pub mod show;
