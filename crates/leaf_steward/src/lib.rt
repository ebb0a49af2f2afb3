//! The steward of a leaf. Each call at its tables makes one entry, or one for each table, with a note of it. It also
//! brings records to the log.
#![tactic(auto)]

mod entries;
mod log;
mod notes;
mod seats;

pub use log::StewardLog;
pub use notes::Notes;
pub use seats::Seats;
