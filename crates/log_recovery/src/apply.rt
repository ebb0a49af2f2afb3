// Applying a record to the table of its name.
ghost use Rattle.std.specs.Prelude.{◌≡◌, ◌+◌, ◌-◌, ◌<◌, ◌≤◌, ◌^◌, List, [], ◌∷◌, ◌++◌, length, map, IfErr, IfOk, OnOk};
ghost use Rattle.std.specs.List.{AllByRecursion};
ghost use Rattle.leaf_model.specs.Writes.{IsWrite};
ghost use Rattle.row_records.specs.Records.{LogRecord, IsRecord};
ghost use Rattle.disk_backup.specs.Scanning.{record_is};
ghost use Rattle.row_model.specs.Names.{AreDistinct};
ghost use Rattle.table_state.specs.Tables.{Table, added_count, bare, columns_most};
ghost use Rattle.log_recovery.specs.Recovery.{AreFew, TellsLogName, recovered_tables};
ghost use Rattle.log_recovery.specs.Applying.{Applies, HasApplied, MayApply, ReplaysAll};

use crate::fault::RecoveryFault;
use disk_backup::FlushRecord;
use leaf_model::{Names, Write};
use std::alloc::{AllocError, Global};
use std::collections::VecDeque;
use table_state::{AddFault, TableState};

/// One table for each name, in their order, each without a write.
pub fn empty_tables(alloc: Global, names: &Names) -> Result<Vec<TableState>, AllocError>
    ensures empty { IfOk result (λ tables. tables.items ≡ recovered_tables names.now []) }
    ensures columns { IfOk result (λ tables.
        AreFew names.now [] (map (λ (t : Table). columns_most t.store) tables.items)) }
{
    let mut tables = Vec::new(alloc);
    for _name in names.as_slice() {
        tables.push(TableState::new(alloc))?;
    }
    Ok(tables)
}

/// Applies a record to the table of its name. Each of its writes is replayed, in their order.
#[tactic(auto, using(crate::proofs::Places::stands_nowhere))]
pub fn apply(
    tables: &mut Vec<TableState>,
    names: &Names,
    flush: FlushRecord,
) -> Result<(), RecoveryFault>
    requires distinct { AreDistinct names.now }
    requires record { IsRecord (record_is flush) }
    requires may { MayApply names.now (length flush.writes) (map bare tables.old.items) }
    ensures does { (records : List LogRecord) → HasApplied names.now records (map bare tables.old.items)
        → Applies names.now records (record_is flush) result (map bare tables.new.items) }
    ensures named { IfErr result TellsLogName }
    ensures columns { OnOk result ((records : List LogRecord)
        → AreFew names.now records (map (λ (t : Table). columns_most t.store) tables.old.items)
        → AreFew names.now (records ++ record_is flush ∷ [])
        (map (λ (t : Table). columns_most t.store) tables.new.items)) }
{
    match names.place_of(flush.table.as_str().as_bytes()) {
        None => Err(RecoveryFault::Stranger(flush.table)),
        Some(place) => Ok(replay_all(&mut tables[place], flush.writes.into_inner())?),
    }
}

fn replay_all(table: &mut TableState, writes: Vec<Write>) -> Result<(), AddFault>
    requires few { length table.old.contents.rows ≤ 2 ^ 40 }
    requires writes { AllByRecursion IsWrite writes.items }
    requires room { table.old.writes + length writes.items < 2 ^ 64 }
    ensures does { ReplaysAll table.old writes.items result table.new }
    ensures columns { columns_most table.new.store ≤ columns_most table.old.store + added_count writes.items }
{
    let mut rest = VecDeque::from_vec(writes);
    while let Some(write) = rest.pop_front() {
        table.replay(write)?;
    }
    Ok(())
}
