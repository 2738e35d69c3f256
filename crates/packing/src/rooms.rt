// How much there is of each thing, at most.

// One character more than the longest text has: some four for each octet of the largest shelf, and half as much again for comments.
pub const TEXT: usize = 400_000;

// The octets of three tables of the largest kind.
pub const TABLES: usize = 7200;

// The entries of a shelf, without its count.
pub const ENTRIES: usize = 512;
