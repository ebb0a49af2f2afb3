//! What is read of a region, without a change to it.
#![tactic(auto)]

mod block;
mod fault;
mod lists;
mod looked;
mod looking;
mod region;

pub use block::read_block;
pub use fault::AdoptFault;
pub use looked::Looked;
pub use looking::{look, look_at};
pub use region::{Front, read_front, read_piece};
