// Theory: what tables, local consistency, rounds and ranks are, and the theorems about them.
#![tactic(auto)]

pub mod reason;
