//! How a start came to its tables, and what a steward notes of an entry. The leaf and its printed lines share these
//! words.
#![tactic(auto)]

mod note;
mod ways;

pub use note::{Note, What};
pub use ways::{Way, WhyDisk};
