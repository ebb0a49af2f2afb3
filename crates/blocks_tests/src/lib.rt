//! Tests of blocks of rows, of how a table's rows stand in blocks and a tail, and of queries over them.
#![tactic(auto)]

#[cfg(test)]
mod blocks;
#[cfg(test)]
mod rows;
#[cfg(test)]
mod runs;
#[cfg(test)]
mod scans;
#[cfg(test)]
mod tables;
