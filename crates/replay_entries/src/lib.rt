// One call of a replay on a ledger, and the line of its answer.
#![tactic(auto)]

pub mod entry;
pub mod line;
pub mod shown;
