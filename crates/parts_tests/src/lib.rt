//! Tests of public calls below the leaf that no run of the program shows.
#![tactic(auto)]

#[cfg(test)]
mod lines;
#[cfg(test)]
mod memory;
#[cfg(test)]
mod queries;
