// Writing a card.
#![tactic(auto)]

pub mod write;
