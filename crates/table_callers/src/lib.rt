// Callers of a table, and what its contracts alone let them promise.
#![tactic(auto)]

pub mod places;
pub mod ranks;
