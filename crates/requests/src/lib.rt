// Requests and answers as docs/REQUESTS.md gives them: from a line's octets to the octets of its answer.
#![tactic(auto)]

pub mod answers;
mod check;
mod checker;
mod crc;
mod crc24b;
mod crcappend;
mod crcm;
mod crcoct;
mod crctest;
mod encode;
mod hcheck;
mod hrecv;
mod hsend;
mod judge;
pub mod lines;
mod lookup;
mod names;
mod near;
mod output;
mod plan;
mod put;
mod rate;
mod recv;
mod remove;
mod send;
mod sums;
mod tbback;
mod tbenc;
mod tbrm;
mod tbsend;
