//! The leaves of a fleet, and how each command of a script is played over them, and printed.
#![tactic(auto)]

mod act;
mod answer;
mod ask;
mod begin;
mod call;
mod commands;
mod crew;
mod end;
mod entries;
mod lend;
mod meet;
mod meet_all;
mod members;
mod restarts;
mod rolled;
mod rollover;
mod slots;
mod tail;
mod take_back;

pub use crew::Crew;
