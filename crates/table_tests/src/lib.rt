// Tests of tables: small tables worked out by hand, refusals, verdicts, held bands, and lines of 256 states.
#![tactic(auto)]

#[cfg(test)]
mod held_bands;
#[cfg(test)]
mod helpers;
#[cfg(test)]
mod lines;
#[cfg(test)]
mod loads;
#[cfg(test)]
mod refusals_in_order;
#[cfg(test)]
mod small_tables;
#[cfg(test)]
mod verdicts;
