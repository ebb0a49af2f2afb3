//! The whole program as one call, `run`, over its words, source, sink and berths.
#![tactic(auto)]

mod bases;
mod berths;
mod inspecting;
mod laws;
mod program;
mod script;
mod soaking;
mod standing;
mod tables;

pub use bases::{Bases, EmptyBerths};
pub use laws::complete;
pub use program::run;
pub use run_ends::{Status, fault_text};
pub use script_text::Why;
