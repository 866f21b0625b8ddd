// Conflict and baseline of a directive: the search for a request.
#![tactic(auto)]

pub mod baseline;
pub mod conflict;
pub mod minutes;
