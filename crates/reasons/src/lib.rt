// Reasons: which rule of document 01 a shelf or a record breaks first, in its words, and where. Which one it is, `rules` says.
#![tactic(auto)]

pub mod records;
pub mod shelves;
pub mod side;
