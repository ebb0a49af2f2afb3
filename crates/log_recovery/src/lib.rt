//! The tables that a leaf's log gives back.
#![tactic(auto)]

mod apply;
mod fault;
mod recovered;
mod recovery;

pub use fault::RecoveryFault;
pub use recovered::Recovered;
pub use recovery::recover;
