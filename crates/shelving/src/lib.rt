// The commands that look at a shelf and keep it.
#![tactic(auto)]

pub mod listing;
pub mod put;
pub mod remove;
