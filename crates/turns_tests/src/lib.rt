//! Tests of a table's turns, of callers in threads, and of the tables of two leaves that are asked at once.
#![tactic(auto)]

#[cfg(test)]
mod fleets;
#[cfg(test)]
mod rows;
#[cfg(test)]
mod turns;
