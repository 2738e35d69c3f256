// Packing: from the text that people write a shelf in to the shelf, and back.
#![tactic(auto)]

mod fault;
mod heads;
mod line;
pub mod pack;
mod rooms;
mod rows;
mod state;
pub mod unpack;
mod whole;
