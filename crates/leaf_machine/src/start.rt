// How a leaf at rest starts to serve its tables.
ghost use Rattle.std.specs.Prelude.{◌≡◌, ℕ, List, Option, IfOk, IfErr, IsTrue, length};
ghost use Rattle.leaf_model.specs.declared.writes.Write.{Write};
ghost use Rattle.row_records.specs.Records.{LogRecord};
ghost use Rattle.berth_face.specs.Causes.{Rose};
ghost use Rattle.berth_face.specs.Berth.{Passes};
ghost use Rattle.disk_backup.specs.Scanning.{BeginsScan};
ghost use Rattle.leaf_words.specs.declared.ways.Way.TheVariants as way;
ghost use Rattle.region_layout.specs.Names.{AreNames};
ghost use Rattle.leaf_opening.specs.Starts.{IsWayOf};
ghost use Rattle.crash_moments.specs.Left.{NamedStates};
ghost use Rattle.crash_states.specs.Standing.{Rests};
ghost use Rattle.leaf_steward.specs.Seated.{AreFounded, watched_by};
ghost use Rattle.leaf_steward.specs.Making.{Makes};
ghost use Rattle.leaf_machine.specs.declared.faults.StartFault.TheVariants as fault;
ghost use Rattle.leaf_machine.specs.Starts.{CameUp, IsExactStart, IsStartRefused, IsStart, StartGoesOn, berth_after, seats_after};
ghost use Rattle.leaf_machine.specs.Started.{Finds, Started};

use crate::down::Down;
use crate::faults::{StartFault, told};
use crate::up::Up;
use berth_face::{Berth, Gate};
use leaf_model::Names;
use leaf_opening::{OpenFault, Opened, open_tables};
use leaf_steward::{Notes, StewardLog};
use leaf_words::Way;
use std::alloc::Global;
use std::sync::Wait;
use std::thread::Threads;

impl<'t, B: Berth> Down<'t, B> {
    /// Starts the leaf. It closes an open flag first. It adopts the tables of the region's image, or else reads the log
    /// to its end and replays each record. A table that neither names is empty. Then it opens and notes each table. If
    /// a seat is worn, nothing is touched. The disk then reads as before, but for the first byte of a disk of at most
    /// one byte.
    pub fn start<R: Wait + Threads + Sync, G: Gate>(
        self,
        rt: &R,
        alloc: Global,
        gate: &G,
        notes: &mut Notes,
    ) -> Result<(Up<'t, B>, Way), (Down<'t, B>, StartFault)>
        ensures start { IsStart self.entry.0 self.entry.1 notes.new result }
        ensures made { Makes (B.meaning self.entry.1).clock (B.meaning (berth_after result)).clock self.entry.0
            notes.new (seats_after result) }
        // If the berth tells its contents: whatever bytes these are, and in particular what a leaf left.
        ensures came { IsTrue (B.meaning self.entry.1).tells
            → IfOk result (λ x. CameUp self.entry.0.names (B.meaning self.entry.1) (B.meaning x.0.1) notes.new x.0.0
            x.1) }
        ensures way { IsTrue (B.meaning self.entry.1).tells
            → IfOk result (λ x. IsWayOf (B.meaning self.entry.1).held.region x.1) }
        ensures refused { IsTrue (B.meaning self.entry.1).tells
            → IfErr result (λ x. IsStartRefused self.entry.0.names (B.meaning self.entry.1) (B.meaning x.0.1) x.1) }
        // The answer is the one that the bytes of region and disk decide.
        ensures exact { IsTrue (B.meaning self.entry.1).tells
            → IsExactStart self.entry.0.names (B.meaning self.entry.1).held result }
        // The disk reads as before; only of a disk of at most one byte the first byte may have been written.
        ensures disk { IsTrue (B.meaning self.entry.1).tells
            → BeginsScan (length (B.meaning self.entry.1).held.disk) (B.meaning self.entry.1).held.disk
            (B.meaning (berth_after result)).held.disk }
        // At each moment since the call began, all that a crash may leave belongs to the tables as they stood then.
        ensures crash { (others : NamedStates) (least : List ℕ → List Write) (next : Option LogRecord)
            → IsTrue (B.meaning self.entry.1).tells → AreFounded self.entry.0
            → Rests (watched_by self.entry.0) others least next (B.meaning self.entry.1)
            → StartGoesOn B.meaning self.entry.0 (B.meaning self.entry.1) others least next result }
        // On each berth, whether it tells its contents or not.
        ensures time { Passes (B.meaning self.entry.1) (B.meaning (berth_after result)) }
        ensures region_cause { IfErr result (λ x. x.1 ≡ fault.RegionFault
            → Rose (B.meaning self.entry.1).region_faults (B.meaning x.0.1).region_faults) }
        ensures disk_cause { IfErr result (λ x. x.1 ≡ fault.DiskFault
            → Rose (B.meaning self.entry.1).disk_faults (B.meaning x.0.1).disk_faults) }
        ensures reads { IfOk result (λ x. x.1 ≡ way.Memory
            → (B.meaning x.0.1).disk_reads ≡ (B.meaning self.entry.1).disk_reads) }
    {
        self.start_on(rt, alloc, gate, notes)
    }

    // Starts the leaf. One clause has all that `start` ensures.
    fn start_on<R: Wait + Threads + Sync, G: Gate>(
        self,
        rt: &R,
        alloc: Global,
        gate: &G,
        notes: &mut Notes,
    ) -> Result<(Up<'t, B>, Way), (Down<'t, B>, StartFault)>
        ensures { Started B.meaning self.entry.0 self.entry.1 notes.new result }
    {
        notes.clear();
        self.seats.sits();
        if let Some(table) = self.seats.worn() {
            return Err((self, StartFault::Worn(table)));
        }
        let Down {
            mut seats,
            mut berth,
        } = self;
        match open_on(alloc, seats.names(), &mut berth) {
            Ok(opened) => {
                let Opened { tables, log, way } = opened;
                seats.open_all(rt, tables, &berth, gate, notes);
                let up = Up {
                    seats,
                    log: StewardLog::of(log),
                    berth,
                };
                Ok((up, way))
            }
            Err(fault) => Err((Down { seats, berth }, told(fault))),
        }
    }
}

// Opens the tables of these names. One clause has all that is known of it.
fn open_on<B: Berth>(alloc: Global, names: &Names, berth: &mut B) -> Result<Opened, OpenFault>
    requires names { AreNames names.now }
    ensures { Finds names.now result (B.meaning berth.old) (B.meaning berth.new) }
{
    open_tables(alloc, names, berth)
}
