//! Tests of a leaf's tables that are moved into a region of columns and taken back: a worked example, two tables with a
//! cut, and crashes.
#![tactic(auto)]

#[cfg(test)]
mod crashes;
#[cfg(test)]
mod drains;
#[cfg(test)]
mod steps;
#[cfg(test)]
mod tables;
#[cfg(test)]
mod two_tables;
#[cfg(test)]
mod worked;
