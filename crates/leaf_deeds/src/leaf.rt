// One leaf, and the deeds of its steward.
ghost use Rattle.std.specs.Prelude.{◌≡◌, ◌<◌, false, [], length, slice_set, IsOk};
ghost use Rattle.berth_face.specs.Berth.{Passes};
ghost use Rattle.leaf_history.specs.History.{LegalFrom};
ghost use Rattle.turnstile.specs.Seats.{IsSeatOf, LearnsOthers, SeesAlso};
ghost use Rattle.crash_moments.specs.Left.{NamedStates};
ghost use Rattle.leaf_table.specs.Turns.{is_founded, start_of};
ghost use Rattle.leaf_table.specs.Calls.{SeatView, base_seen, seen_of};
ghost use Rattle.leaf_steward.specs.Seated.{AreFounded, AtPlace};
ghost use Rattle.script_text.specs.Orders.{IsOfTables};
ghost use Rattle.printed_lines.specs.declared.line.Ending.TheVariants as ending;
ghost use Rattle.printed_lines.specs.declared.line.Deed.TheVariants.{Start};
ghost use Rattle.transcript.specs.Counts.{reads_disk};
ghost use Rattle.leaf_moves.specs.Stage.{Carries, LeafStands, with_seats};
ghost use Rattle.leaf_moves.specs.Steps.{FlushMoves, KillMoves, StartMoves, IsDownLeaf, ending_of, ending_of_flush};
ghost use Rattle.leaf_deeds.specs.Held.{KeepsSeats, leaf_state, berth_of, seats_of};
ghost use Rattle.leaf_deeds.specs.Deeds.{DeedDoes};
ghost use Rattle.leaf_deeds.specs.Moves.{Drains, FaultRose};

use crate::drain;
use berth_face::{Berth, Gate};
use leaf_machine::{Down, FlushReply, Notes, Preparing, StartFault, Up};
use leaf_table::Seat;
use printed_lines::{Deed, Ending};
use std::alloc::Global;
use std::sync::Wait;
use std::thread::Threads;

/// One leaf: at rest, serving its tables, or shutting them. A leaf never rests between two commands while it copies.
#[derive(Drop)]
pub enum OneLeaf<'t, B: Berth> {
    Down(Down<'t, B>),
    Up(Up<'t, B>),
    Preparing(Preparing<'t, B>),
}

impl<'t, B: Berth> OneLeaf<'t, B> {
    /// Lets the steward's seat at table `table` and a caller's seat learn what the other has seen.
    pub fn meet(&mut self, table: u32, seat: &mut Seat)
        requires table { table < length (seats_of self.old).tables }
        requires seats { length (seats_of self.old).seats ≡ length (seats_of self.old).tables }
        requires seat { AtPlace (λ t v. IsSeatOf seat.old t.site
            × LegalFrom (is_founded (base_seen t)) (start_of (base_seen t)) (seen_of seat.old)) (seats_of self.old)
            table }
        ensures learns { AtPlace (λ t v. (w : SeatView)
            × (leaf_state self.new ≡ with_seats (leaf_state self.old) (slice_set (seats_of self.old).seats table w))
            × SeesAlso v seat.old w × LearnsOthers v w) (seats_of self.old) table }
        ensures seat { AtPlace (λ t v. IsSeatOf seat.new t.site × SeesAlso seat.old v seat.new
            × LearnsOthers seat.old seat.new
            × LegalFrom (is_founded (base_seen t)) (start_of (base_seen t)) (seen_of seat.new)) (seats_of self.old)
            table }
        ensures berth { berth_of self.new ≡ berth_of self.old }
        ensures stands { (base : NamedStates) → AreFounded (seats_of self.old)
            → LeafStands base (leaf_state self.old) (B.meaning (berth_of self.old))
            → LeafStands base (leaf_state self.new) (B.meaning (berth_of self.new)) }
    {
        let met = match self {
            OneLeaf::Down(leaf) => leaf.meet(table, seat),
            OneLeaf::Up(leaf) => leaf.meet(table, seat),
            OneLeaf::Preparing(leaf) => leaf.meet(table, seat),
        };
        match met {
            Ok(()) => {}
            Err(_) => unreachable!(),
        }
    }

    /// Does a deed of the leaf's steward. Gives how it ended; `notes` gets the notes of its entries.
    pub fn deed<R: Wait + Threads + Sync, G: Gate>(
        self,
        rt: &R,
        alloc: Global,
        gate: &G,
        deed: Deed,
        notes: &mut Notes,
    ) -> (OneLeaf<'t, B>, Ending)
        requires none { notes.old ≡ [] }
        requires table { IsOfTables (length (seats_of self).tables) deed }
        ensures does { DeedDoes deed (B.meaning (berth_of self.entry)) (B.meaning (berth_of result.0))
            (leaf_state self.entry) notes.new result.1 (leaf_state result.0) }
        ensures keeps { KeepsSeats (seats_of self.entry) (seats_of result.0) }
        ensures time { Passes (B.meaning (berth_of self.entry)) (B.meaning (berth_of result.0)) }
    {
        match deed {
            Deed::Start => self.start(rt, alloc, gate, notes),
            Deed::Flush(table) => {
                let mut leaf = self;
                let ending = leaf.flush(rt, table, gate, notes);
                (leaf, ending)
            }
            Deed::Drain(stop) => self.drain(rt, alloc, gate, stop, notes),
            Deed::Kill => self.kill(rt, gate, notes),
        }
    }

    /// Starts a leaf that is down.
    fn start<R: Wait + Threads + Sync, G: Gate>(
        self,
        rt: &R,
        alloc: Global,
        gate: &G,
        notes: &mut Notes,
    ) -> (OneLeaf<'t, B>, Ending)
        requires { notes.old ≡ [] }
        ensures moves { StartMoves (B.meaning (berth_of self.entry)) (B.meaning (berth_of result.0))
            (leaf_state self.entry) notes.new result.1 (leaf_state result.0) }
        ensures carries { Carries (leaf_state self.entry) (leaf_state result.0) notes.new
            (B.meaning (berth_of self.entry)) (B.meaning (berth_of result.0)) }
        ensures keeps { KeepsSeats (seats_of self.entry) (seats_of result.0) }
        ensures time { Passes (B.meaning (berth_of self.entry)) (B.meaning (berth_of result.0)) }
        ensures cause { FaultRose result.1 (B.meaning (berth_of self.entry)) (B.meaning (berth_of result.0)) }
        ensures reads { reads_disk Start result.1 ≡ false → (B.meaning (berth_of result.0)).disk_reads
            ≡ (B.meaning (berth_of self.entry)).disk_reads }
    {
        match self {
            OneLeaf::Up(up) => (OneLeaf::Up(up), Ending::NotDown),
            OneLeaf::Preparing(leaf) => (OneLeaf::Preparing(leaf), Ending::NotDown),
            OneLeaf::Down(down) => match down.start(rt, alloc, gate, notes) {
                Ok((up, way)) => (OneLeaf::Up(up), Ending::Started(way)),
                Err((down, fault)) => (OneLeaf::Down(down), ending_of(fault)),
            },
        }
    }

    /// Flushes a table of a leaf that is up.
    fn flush<R: Wait + Threads + Sync, G: Gate>(
        &mut self,
        rt: &R,
        table: u32,
        gate: &G,
        notes: &mut Notes,
    ) -> Ending
        requires notes { notes.old ≡ [] }
        requires table { table < length (seats_of self.old).tables }
        ensures moves { FlushMoves table (B.meaning (berth_of self.old)) (B.meaning (berth_of self.new))
            (leaf_state self.old) notes.new result (leaf_state self.new) }
        ensures carries { Carries (leaf_state self.old) (leaf_state self.new) notes.new (B.meaning (berth_of self.old))
            (B.meaning (berth_of self.new)) }
        ensures keeps { KeepsSeats (seats_of self.old) (seats_of self.new) }
        ensures time { Passes (B.meaning (berth_of self.old)) (B.meaning (berth_of self.new)) }
        ensures cause { FaultRose result (B.meaning (berth_of self.old)) (B.meaning (berth_of self.new)) }
        ensures reads { (B.meaning (berth_of self.new)).disk_reads ≡ (B.meaning (berth_of self.old)).disk_reads }
    {
        match self {
            OneLeaf::Down(_) => Ending::NotUp,
            OneLeaf::Preparing(_) => Ending::NotUp,
            OneLeaf::Up(up) => ending_of_flush(up.flush(rt, table, gate, notes)),
        }
    }

    /// Kills a leaf that is not down. What its tables hold is dropped.
    fn kill<R: Wait + Threads + Sync, G: Gate>(
        self,
        rt: &R,
        gate: &G,
        notes: &mut Notes,
    ) -> (OneLeaf<'t, B>, Ending)
        requires { notes.old ≡ [] }
        ensures moves { KillMoves (B.meaning (berth_of self.entry)) (B.meaning (berth_of result.0))
            (leaf_state self.entry) notes.new result.1 (leaf_state result.0) }
        ensures carries { Carries (leaf_state self.entry) (leaf_state result.0) notes.new
            (B.meaning (berth_of self.entry)) (B.meaning (berth_of result.0)) }
        ensures keeps { KeepsSeats (seats_of self.entry) (seats_of result.0) }
        ensures berth { berth_of result.0 ≡ berth_of self.entry }
        ensures cause { FaultRose result.1 (B.meaning (berth_of self.entry)) (B.meaning (berth_of result.0)) }
    {
        match self {
            OneLeaf::Down(down) => (OneLeaf::Down(down), Ending::NotUp),
            OneLeaf::Up(up) => (OneLeaf::Down(up.kill(rt, gate, notes)), Ending::Done),
            OneLeaf::Preparing(leaf) => {
                leaf.shuts();
                (OneLeaf::Down(leaf.kill(rt, gate, notes)), Ending::Done)
            }
        }
    }

    /// Drains a leaf that is not down. If the steps run out first, it kills the leaf.
    fn drain<R: Wait + Threads + Sync, G: Gate>(
        self,
        rt: &R,
        alloc: Global,
        gate: &G,
        stop: Option<u32>,
        notes: &mut Notes,
    ) -> (OneLeaf<'t, B>, Ending)
        requires { notes.old ≡ [] }
        ensures drains { Drains (B.meaning (berth_of self.entry)) (B.meaning (berth_of result.0))
            (leaf_state self.entry) stop notes.new result.1 (leaf_state result.0) }
        ensures keeps { KeepsSeats (seats_of self.entry) (seats_of result.0) }
        ensures time { Passes (B.meaning (berth_of self.entry)) (B.meaning (berth_of result.0)) }
        ensures cause { FaultRose result.1 (B.meaning (berth_of self.entry)) (B.meaning (berth_of result.0)) }
    {
        match self {
            OneLeaf::Down(down) => (OneLeaf::Down(down), Ending::NotUp),
            OneLeaf::Up(up) => drain::drain(rt, alloc, gate, up.prepare(alloc), stop, notes),
            OneLeaf::Preparing(leaf) => drain::drain(rt, alloc, gate, leaf, stop, notes),
        }
    }

    /// Gives the berth back as it is.
    pub fn abandon(self) -> B
        ensures { result ≡ berth_of self.entry }
    {
        match self {
            OneLeaf::Down(down) => down.abandon(),
            OneLeaf::Up(up) => up.abandon(),
            OneLeaf::Preparing(leaf) => leaf.abandon(),
        }
    }
}

fn ending_of(fault: StartFault) -> Ending
    ensures { result ≡ ending_of fault }
{
    match fault {
        StartFault::RegionFault => Ending::FaultRegion,
        StartFault::DiskFault => Ending::FaultDisk,
        StartFault::DiskDamaged => Ending::FaultDamaged,
        StartFault::Stranger(name) => Ending::FaultStranger(name),
        StartFault::NoMemory => Ending::FaultMemory,
        StartFault::Worn(table) => Ending::FaultWorn(table),
    }
}

fn ending_of_flush(reply: FlushReply) -> Ending
    ensures { result ≡ ending_of_flush reply }
{
    match reply {
        FlushReply::Flushed => Ending::Done,
        FlushReply::DiskFault => Ending::FaultDisk,
        FlushReply::Worn => Ending::Worn,
    }
}
