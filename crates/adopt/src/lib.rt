//! Takes the columns of a region back one by one, and cuts each off the region once it was read.
#![tactic(auto)]

mod adopting;
mod cells;
mod finding;
mod finishing;
mod found;
mod lists;
mod spans;
mod starting;
mod tables;
mod taken;

pub use adopting::find;
pub use found::{AdoptStep, Adopted, Adoption, Found};
pub use leaf_words::WhyDisk;
pub use region_reading::AdoptFault;
pub use starting::adopt;
pub use taken::Adopt;
