//! Tests of a standing query: what it asks for, when it is stale, and what it tells.
#![tactic(auto)]

#[cfg(test)]
mod rows;
#[cfg(test)]
mod stales;
#[cfg(test)]
mod tells;
