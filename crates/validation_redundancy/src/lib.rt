// Redundancy: the tables of the search, and the search.
#![tactic(auto)]

mod masks;
pub mod search;
mod tables;
