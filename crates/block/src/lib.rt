// One code block: its places, its parity bits and its share of the radio bits, and the way back from a stretch of received bits.
#![tactic(auto)]

pub mod inner;
