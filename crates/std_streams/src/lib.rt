//! Standard input as a source, and standard output as a sink.
#![tactic(auto)]

mod standard;

pub use standard::{StdSink, StdSource};
