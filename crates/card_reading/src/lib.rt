// Reading a card, and the line that tells of it.
#![tactic(auto)]

pub mod check;
pub mod read;
