// What a log gives back.
use disk_backup::BackupLog;
use table_state::Tables;

/// The tables, in the order of the names that were asked for, and the log at its end, which owes nothing.
#[derive(Drop)]
pub struct Recovered {
    pub tables: Tables,
    pub log: BackupLog,
}
