// A log that is being read, and what each step gives.
ghost use Rattle.std.specs.Prelude.{◌<◌, ◌^◌};

use crate::log::BackupLog;
use leaf_model::{Text, Writes};
use std::marker::Model;

/// The writes of one flush of a table, and whether its record's kind allows sets.
#[derive(Drop)]
pub struct FlushRecord {
    pub sets: bool,
    pub table: Text,
    pub writes: Writes,
}

/// A log that is being read. Contracts see the place of the next gate, and the number of bytes of the disk.
#[derive(Drop)]
pub struct LogScan {
    pub(crate) at: u64,
    pub(crate) len: u64,
    ghost in_range: { at < len },
    ghost short: { len < 2 ^ 63 },
}

impl Model for LogScan {
    ghost use Rattle.disk_backup.specs.State.{ScanState};

    ghost Value = { ScanState };

    ghost view = { λ scan. record { at = scan.at; len = scan.len } };
}

/// A record and the scan after it, or the log at its end.
#[derive(Drop)]
pub enum LogStep {
    Record(LogScan, FlushRecord),
    Ended(BackupLog),
}
