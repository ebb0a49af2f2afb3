//! Tests of the waves of a rollover, of its watches, and of a fleet that is driven through them.
#![tactic(auto)]

#[cfg(test)]
mod drives;
#[cfg(test)]
mod plans;
#[cfg(test)]
mod watches;
