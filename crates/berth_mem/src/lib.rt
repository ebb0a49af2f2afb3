//! A source, a sink and a berth in memory, which tell all that they hold and may be made to fail.
#![tactic(auto)]

mod berth;
mod bytes;
mod faults;
mod pick;
mod puts;
mod record;
mod stream;

pub use berth::MemBerth;
pub use faults::{Fail, Fails, Method};
pub use stream::{MemSink, MemSource};
