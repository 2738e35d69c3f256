// The commands of the hosted calls, and what the other commands share with them: what is asked, the calls, the shelves and the refusals.
#![tactic(auto)]

pub mod asked;
pub mod calls;
pub mod check;
pub mod least;
pub mod lookup;
pub mod receive;
pub mod refusal;
pub mod send;
pub mod shelves;
