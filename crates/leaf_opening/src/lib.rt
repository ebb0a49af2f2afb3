//! How a leaf comes to its tables: from its region, else from its log.
#![tactic(auto)]

mod laws;
mod opening;
mod ways;

pub use laws::answers_are_one;
pub use leaf_words::{Way, WhyDisk};
pub use opening::{Opened, open_tables};
pub use ways::OpenFault;
