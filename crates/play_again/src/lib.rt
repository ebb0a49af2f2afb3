//! Runs over berths with known bases: those that an earlier run left, or any over which leaves may begin.
#![tactic(auto)]

mod kept;
mod known;
mod laws;
mod over;

pub use kept::{Choice, KeptTables, KnownBerths};
pub use known::{keep, run_keeping, run_known, run_twice};
pub use laws::something_is_known;
pub use over::{has_base_after_crash, has_base_where_opened, has_empty_base, run_over};
