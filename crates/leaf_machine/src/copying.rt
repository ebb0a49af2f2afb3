// A leaf that copies its tables into the region.
ghost use Rattle.std.specs.Prelude.{◌≡◌, ◌≢◌, ℕ, List, IsTrue};
ghost use Rattle.leaf_model.specs.declared.writes.Write.{Write};
ghost use Rattle.berth_face.specs.Causes.{HasCause};
ghost use Rattle.berth_face.specs.Berth.{Passes};
ghost use Rattle.berth_face.specs.Moments.{Meanwhile};
ghost use Rattle.drain_copy.specs.declared.step.Next.TheVariants as next;
ghost use Rattle.drain_copy.specs.Draining.{IsInRoom};
ghost use Rattle.drain_copy.specs.Regions.{IsCutOrBegun};
ghost use Rattle.crash_states.specs.Standing.{Copies};
ghost use Rattle.leaf_steward.specs.Seated.{AreFounded, watched_by};
ghost use Rattle.leaf_steward.specs.Making.{Makes};
ghost use Rattle.leaf_machine.specs.States.{RestsOn};
ghost use Rattle.leaf_machine.specs.Copies.{CopyGoesOn, CopySteps, DrainMade, IsCopyStep, IsInImage, LeavesRegion, berth_of_copy, seats_of_copy};

use crate::down::Down;
use berth_face::{Berth, Gate};
pub use drain_copy::RegionFault;
use drain_copy::{Drain, DrainStep};
use leaf_steward::{Notes, Seats};
use std::marker::Model;
use std::sync::Wait;
use std::thread::Threads;

/// A leaf that copies its tables into the region. It borrows the tables, which are all shut, and owns the steward's
/// seats, the plan of the copy and the berth. Contracts see these.
#[derive(Drop)]
pub struct Copying<'t, B: Berth> {
    pub(crate) seats: Seats<'t>,
    pub(crate) drain: Drain,
    pub(crate) berth: B,
}

impl<'t, B: Berth> Model for Copying<'t, B> {
    ghost use Rattle.leaf_machine.specs.States as state;

    ghost Value = { state.Copying × B };

    ghost view = { λ leaf. (record { seated = leaf.seats; drain = leaf.drain }, leaf.berth) };

    ghost invariant = { λ leaf. state.IsCopying (record { seated = leaf.seats; drain = leaf.drain })
        (B.meaning leaf.berth) };
}

/// After a step of the copy: a leaf that copies on, or a leaf at rest that handed all tables over.
#[derive(Drop)]
pub enum Copied<'t, B: Berth> {
    More(Copying<'t, B>),
    Finished(Down<'t, B>),
}

impl<'t, B: Berth> Copying<'t, B> {
    /// Makes one step of the copy: begins the region; writes a column and frees it; writes the directory; or writes the
    /// flag and notes each table as handed over. After a fault of the region the leaf is at rest. It takes no memory.
    pub fn step<R: Wait + Threads + Sync, G: Gate>(
        self,
        rt: &R,
        gate: &G,
        notes: &mut Notes,
    ) -> Result<Copied<'t, B>, (Down<'t, B>, RegionFault)>
        ensures step { IsCopyStep self.entry.0 notes.new result }
        ensures made { Makes (B.meaning self.entry.1).clock (B.meaning (berth_of_copy result)).clock self.entry.0.seated
            notes.new (seats_of_copy result) }
        // At each moment since the call began, all that a crash may leave belongs to the tables as they stood then.
        ensures crash { IsTrue (B.meaning self.entry.1).tells → AreFounded self.entry.0.seated
            → CopyGoesOn B.meaning self.entry.0 (B.meaning self.entry.1) result }
        // What the region holds once the copy is over.
        ensures region { IsTrue (B.meaning self.entry.1).tells → AreFounded self.entry.0.seated
            → (writes : List ℕ → List Write)
            → Copies (watched_by self.entry.0.seated) self.entry.0.drain writes (B.meaning self.entry.1)
            → LeavesRegion B.meaning self.entry.0 result }
        // The columns that are still held and the region together are never longer than the image; while a column is
        // written, by at most the longest column.
        ensures room { IsTrue (B.meaning self.entry.1).tells → AreFounded self.entry.0.seated
            → IsInImage B.meaning self.entry.0 result }
        ensures inside { IsTrue (B.meaning self.entry.1).tells → AreFounded self.entry.0.seated
            → self.entry.0.drain.next ≢ next.Begin
            → Meanwhile (IsInRoom self.entry.0.drain) (B.meaning self.entry.1) (B.meaning (berth_of_copy result)) }
        // At each moment of the first step the region is a prefix of what it was, which is being cut, or has at most 16
        // bytes.
        ensures begun { IsTrue (B.meaning self.entry.1).tells → self.entry.0.drain.next ≡ next.Begin
            → Meanwhile (IsCutOrBegun (B.meaning self.entry.1).held.region) (B.meaning self.entry.1)
            (B.meaning (berth_of_copy result)) }
        ensures time { Passes (B.meaning self.entry.1) (B.meaning (berth_of_copy result)) }
        ensures cause { HasCause (B.meaning self.entry.1).region_faults (B.meaning (berth_of_copy result)).region_faults
            result }
        ensures reads { (B.meaning (berth_of_copy result)).disk_reads ≡ (B.meaning self.entry.1).disk_reads }
    {
        self.copy_on(rt, gate, notes)
    }

    // Makes one step of the copy. One clause has all that `step` ensures.
    fn copy_on<R: Wait + Threads + Sync, G: Gate>(
        self,
        rt: &R,
        gate: &G,
        notes: &mut Notes,
    ) -> Result<Copied<'t, B>, (Down<'t, B>, RegionFault)>
        ensures { CopySteps B.meaning self.entry.0 (B.meaning self.entry.1) notes.new result }
    {
        notes.clear();
        self.seats.sits();
        let Copying {
            mut seats,
            mut drain,
            mut berth,
        } = self;
        match drain_on(&mut drain, &mut berth) {
            Ok(DrainStep::Finished) => {
                seats.hand_over(rt, &berth, gate, notes);
                Ok(Copied::Finished(Down { seats, berth }))
            }
            Ok(DrainStep::Begun | DrainStep::Column { .. } | DrainStep::Directory) => Ok(
                Copied::More(Copying {
                    seats,
                    drain,
                    berth,
                }),
            ),
            Err(fault) => Err((Down { seats, berth }, fault)),
        }
    }

    /// Gives the copy up, and leaves a closed region. Makes no entry: each table is already shut.
    pub fn kill(self) -> Down<'t, B>
        ensures leaf { result ≡ (self.entry.0.seated, self.entry.1) }
        ensures crash { (writes : List ℕ → List Write) → AreFounded self.entry.0.seated
            → Copies (watched_by self.entry.0.seated) self.entry.0.drain writes (B.meaning self.entry.1)
            → RestsOn self.entry.0.seated result.0 (B.meaning self.entry.1) (B.meaning result.1) }
    {
        Down {
            seats: self.seats,
            berth: self.berth,
        }
    }

    /// Gives the berth back as it is, without an entry.
    pub fn abandon(self) -> B
        ensures { result ≡ self.entry.1 }
    {
        self.berth
    }
}

// Makes one step of the drain. One clause has all that is known of it.
fn drain_on<B: Berth>(drain: &mut Drain, berth: &mut B) -> Result<DrainStep, RegionFault>
    requires more { drain.old.next ≢ next.Nothing }
    ensures { DrainMade drain.old drain.new result (B.meaning berth.old) (B.meaning berth.new) }
{
    drain.step(berth)
}
