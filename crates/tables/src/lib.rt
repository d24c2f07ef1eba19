// Tables: interval Markov tables over the caller's memory, and the calls on them.
#![tactic(auto)]

mod arguments;
pub mod band;
pub mod load;
pub mod places;
mod reasons;
mod rounds;
pub mod table;
mod tally;
pub mod verdict;
