//! A query over sealed blocks and a tail of rows. A block outside the query's range of times is skipped. Of each other
//! block only the columns that the query names are read.
#![tactic(auto)]

mod aggregates;
mod block;
mod columns;
mod decoded;
mod finding;
mod folding;
mod grouping;
mod guesses;
mod joining;
mod keys_seen;
mod laying;
mod names;
mod narrowing;
mod parts;
mod places;
mod ranking;
mod reading;
mod rows;
mod scanning;
mod slots;
mod threads;
mod times;
mod view;

pub use scanning::scan;
