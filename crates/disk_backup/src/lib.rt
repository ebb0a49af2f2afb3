//! The gated log on a berth's disk: records, each after an open gate, up to the first gate that is not open.
#![tactic(auto)]

mod fault;
mod gate;
mod halves;
mod laws;
mod log;
mod reader;
mod scan;
mod step;

pub use fault::{DiskFault, LogFault};
pub use laws::logs_are_read_once;
pub use log::BackupLog;
pub use step::{FlushRecord, LogScan, LogStep};
