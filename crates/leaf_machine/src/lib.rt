//! A leaf over tables that callers share: at rest, serving its tables, shutting them, or copying them into its region.
#![tactic(auto)]

mod copying;
mod down;
mod faults;
mod laws;
mod preparing;
mod shut_tables;
mod start;
mod up;

pub use copying::{Copied, Copying, RegionFault};
pub use down::Down;
pub use faults::StartFault;
pub use laws::{begins_where_opened, begins_where_ready, leaves_begin};
pub use leaf_steward::Notes;
pub use leaf_words::{Note, Way, What, WhyDisk};
pub use preparing::{PrepareFault, Prepared, Preparing};
pub use up::{FlushReply, Up};
