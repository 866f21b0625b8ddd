// Sets as bits of a number, sets of records as two words, what is kept of a list, and big-endian numbers.
#![tactic(auto)]

pub mod bits;
pub mod compact;
pub mod number;
pub mod record_set;
