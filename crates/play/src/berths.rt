// Plays the items of a script over the berths.
ghost use Rattle.std.specs.Prelude.{◌≡◌, ◌+◌, ◌≤◌, List, [], length, map, OnOk, OnErr, IfOk, IfSome, None, IsErrOf, IsOk};
ghost use Rattle.std.specs.List.{AllByRecursion};
ghost use Rattle.std.specs.Io.KnownBytes.{Appends};
ghost use Rattle.berth_face.specs.Causes.{Rose};
ghost use Rattle.script_text.specs.Fits.{AreItems, TellAbove, TellsDeclared, declared_by, declared_in};
ghost use Rattle.printed_lines.specs.Lines.{lines_text, IsOf};
ghost use Rattle.transcript.specs.Leaving.{IsWritten};
ghost use Rattle.player.specs.Crew.{AllPass, HasAll};
ghost use Rattle.standing_feed.specs.declared.follower.Follower.{Follower};
ghost use Rattle.transcript_standing.specs.Followed.{AreFollowers};
ghost use Rattle.play.specs.Standing.{MayRun};
ghost use Rattle.play.specs.Played.{AreBases, LeavesBerths, leaves_in};
ghost use Rattle.berth_face.specs.Streams.{WritesFront};
ghost use Rattle.lane_play.specs.Went.{told_lines};
ghost use Rattle.play.specs.Shortened.{IfShort, RunShort, StopsAt, StopsShort};
ghost use Rattle.play.specs.Runs.{Advances, IsEnd, IsFleetOf, RunSoFar};

use crate::bases::Bases;
use crate::standing::play_followed;
use crate::tables::{NewTables, new_tables};
use berth_face::{Berth, Gate, Sink};
use leaf_model::Names;
use player::Crew;
use printed_lines::{Line, put_lines};
use rollover_watch::Watch;
use run_ends::{Status, write_all};
use script_text::{Command, FleetShape, Item, Items};
use standing_feed::Followers;
use std::alloc::{AllocError, Global};
use std::collections::VecDeque;
use std::sync::Wait;
use std::thread::Threads;

const PIECE: usize = 1_024; // lines that are put together and written at once

/// Why the lines of an item were not all written.
#[derive(Clone, Copy, Debug, PartialEq, Eq)]
enum WriteError {
    Failed,
    NoMemory,
}

/// The number of leaves of the fleet of these items.
pub fn leaf_count(items: &Items) -> usize
    requires { AreItems items.now }
    ensures { result ≡ leaves_in items.now }
{
    match items.as_slice() {
        [
            Item::One(
                Command::Fleet {
                    machines,
                    per_machine,
                    ..
                },
            ),
            ..
        ] => *machines as usize * *per_machine as usize,
        _ => 0,
    }
}

/// The fleet of these items. None if there is no item.
fn plan_of(items: &Items) -> Result<Option<FleetShape>, AllocError>
    requires { AreItems items.now }
    ensures none { IfOk result (λ found. found ≡ None → items.now ≡ []) }
    ensures plan { IfOk result (λ found. IfSome found (λ plan. IsFleetOf items.now plan)) }
{
    match items.as_slice() {
        [
            Item::One(
                Command::Fleet {
                    machines,
                    per_machine,
                    tables,
                },
            ),
            ..
        ] => Ok(Some(FleetShape {
            machines: *machines,
            per_machine: *per_machine,
            names: tables.copy()?,
        })),
        _ => Ok(None),
    }
}

/// Plays the items of a script over the first berths, and puts these back in their places.
pub fn play_items<N: Bases, R: Wait + Threads + Sync, K: Sink, B: Berth, G: Gate>(
    rt: &R,
    alloc: Global,
    items: Items,
    sink: &mut K,
    berths: &mut Vec<B>,
    gate: &G,
    watches: &mut Vec<Box<dyn Watch>>,
) -> Status
    requires items { AreItems items }
    requires told { TellAbove 0 items }
    requires few { declared_in items ≤ 16 }
    requires enough { leaves_in items ≤ length berths.old.items }
    requires bases { AreBases N.base B.meaning berths.old.items }
    ensures done { result ≡ Status.Done
        → IsWritten B.meaning berths.old.items berths.new.items N.base items (K.written sink.old) (K.written sink.new)
        (map (λ watch. held watch) watches.old.items) (map (λ watch. held watch) watches.new.items) }
    ensures short { IfShort result (StopsShort B.meaning berths.old.items berths.new.items N.base items
        (K.written sink.old) (K.written sink.new)
        (map (λ watch. held watch) watches.old.items) (map (λ watch. held watch) watches.new.items)) }
    ensures ends { IsEnd result }
    ensures write_fault { result ≡ Status.WriteFault → Rose (K.faults sink.old) (K.faults sink.new) }
    ensures berths { LeavesBerths B.meaning (leaves_in items) berths.old.items berths.new.items }
{
    match plan_of(&items) {
        Ok(Some(plan)) => {
            play_over::<N, R, K, B, G>(rt, alloc, &plan, items, sink, berths, gate, watches)
        }
        Ok(None) => Status::Done,
        Err(_) => Status::NoMemory,
    }
}

/// Plays the items of a fleet over the first berths.
fn play_over<N: Bases, R: Wait + Threads + Sync, K: Sink, B: Berth, G: Gate>(
    rt: &R,
    alloc: Global,
    plan: &FleetShape,
    items: Items,
    sink: &mut K,
    berths: &mut Vec<B>,
    gate: &G,
    watches: &mut Vec<Box<dyn Watch>>,
) -> Status
    requires plan { IsFleetOf items plan.now }
    requires told { TellAbove 0 items }
    requires few { declared_in items ≤ 16 }
    requires enough { leaves_in items ≤ length berths.old.items }
    requires bases { AreBases N.base B.meaning berths.old.items }
    ensures done { result ≡ Status.Done
        → IsWritten B.meaning berths.old.items berths.new.items N.base items (K.written sink.old) (K.written sink.new)
        (map (λ watch. held watch) watches.old.items) (map (λ watch. held watch) watches.new.items) }
    ensures short { IfShort result (StopsShort B.meaning berths.old.items berths.new.items N.base items
        (K.written sink.old) (K.written sink.new)
        (map (λ watch. held watch) watches.old.items) (map (λ watch. held watch) watches.new.items)) }
    ensures ends { IsEnd result }
    ensures write_fault { result ≡ Status.WriteFault → Rose (K.faults sink.old) (K.faults sink.new) }
    ensures berths { LeavesBerths B.meaning (leaves_in items) berths.old.items berths.new.items }
{
    let Ok(copy) = plan.names.copy() else {
        return Status::NoMemory;
    };
    let leaves = plan.machines * plan.per_machine;
    let Ok(made) = new_tables::<N>(alloc, leaves, &plan.names) else {
        return Status::NoMemory;
    };
    let NewTables {
        tables,
        stewards,
        callers,
    } = made;
    let Ok(crew) = Crew::new(
        alloc,
        copy,
        plan.machines,
        plan.per_machine,
        &tables,
        stewards,
        callers,
        berths,
    ) else {
        return Status::NoMemory;
    };
    let mut crew = crew;
    let status = play_all::<N, R, K, B, G>(
        rt,
        alloc,
        &plan.names,
        &mut crew,
        items.into_inner(),
        sink,
        gate,
        watches,
    );
    crew.abandon(berths);
    status
}

/// Plays items, one after another, and writes the lines of each.
fn play_all<'t, N: Bases, R: Wait + Threads + Sync, K: Sink, B: Berth, G: Gate>(
    rt: &R,
    alloc: Global,
    names: &Names,
    crew: &mut Crew<'t, B>,
    items: Vec<Item>,
    sink: &mut K,
    gate: &G,
    watches: &mut Vec<Box<dyn Watch>>,
) -> Status
    requires names { crew.old.fleet.names ≡ names.now }
    requires may_play { AllByRecursion (MayRun crew.old.fleet) items.items }
    requires told { TellAbove 0 items.items }
    requires few { declared_in items.items ≤ 16 }
    requires all { HasAll crew.old.fleet crew.old.holds }
    requires begun { RunSoFar N.base B.meaning crew.old.fleet crew.old.holds (K.written sink.old)
        (K.written sink.old)
        (map (λ watch. held watch) watches.old.items) (map (λ watch. held watch) watches.old.items) [] []
        crew.old.holds }
    ensures done { result ≡ Status.Done → (followers : List Follower)
        × RunSoFar N.base B.meaning crew.old.fleet crew.old.holds (K.written sink.old) (K.written sink.new)
        (map (λ watch. held watch) watches.old.items) (map (λ watch. held watch) watches.new.items) items.items
        followers crew.new.holds }
    ensures short { IfShort result (RunShort N.base B.meaning crew.old.fleet crew.old.holds
        (K.written sink.old) (K.written sink.new)
        (map (λ watch. held watch) watches.old.items) (map (λ watch. held watch) watches.new.items) items.items
        crew.new.holds) }
    ensures ends { IsEnd result }
    ensures write_fault { result ≡ Status.WriteFault → Rose (K.faults sink.old) (K.faults sink.new) }
    ensures time { AllPass B.meaning crew.old.holds crew.new.holds }
    ensures all { HasAll crew.new.fleet crew.new.holds }
{
    let mut step: u32 = 0;
    let mut followers = Followers::new(alloc);
    let mut rest = VecDeque::from_vec(items);
    while let Some(item) = rest.pop_front() {
        pass_before(gate, &item, &mut step);
        match play_next(
            rt,
            alloc,
            names,
            crew,
            &mut followers,
            item,
            sink,
            gate,
            watches,
        ) {
            Ok(()) => {}
            Err(WriteError::Failed) => return Status::WriteFault,
            Err(WriteError::NoMemory) => return Status::NoMemory,
        }
    }
    Status::Done
}

/// Passes the gate before a command outside bursts, as lane 0, with the command's index among such commands.
fn pass_before<G: Gate>(gate: &G, item: &Item, step: &mut u32) {
    if matches!(item, Item::One(_)) {
        gate.pass(0, *step);
        *step = step.wrapping_add(1);
    }
}

/// Plays an item, lets the standing queries follow it, and writes its lines.
fn play_next<'t, R: Wait + Threads + Sync, K: Sink, B: Berth, G: Gate>(
    rt: &R,
    alloc: Global,
    names: &Names,
    crew: &mut Crew<'t, B>,
    followers: &mut Followers,
    item: Item,
    sink: &mut K,
    gate: &G,
    watches: &mut Vec<Box<dyn Watch>>,
) -> Result<(), WriteError>
    requires names { crew.old.fleet.names ≡ names.now }
    requires may_play { MayRun crew.old.fleet item }
    requires told { TellsDeclared (length followers.old.list.items) item }
    requires followers { AreFollowers crew.old.fleet followers.old.list.items }
    requires few { length followers.old.list.items + declared_by item ≤ 16 }
    requires all { HasAll crew.old.fleet crew.old.holds }
    ensures played { OnOk result (Advances B.meaning crew.old.fleet followers.old.list.items followers.new.list.items
        crew.old.holds crew.new.holds (K.written sink.old) (K.written sink.new)
        (map (λ watch. held watch) watches.old.items) (map (λ watch. held watch) watches.new.items) item) }
    ensures stops { OnErr result (StopsAt B.meaning crew.old.fleet followers.old.list.items crew.old.holds
        crew.new.holds (K.written sink.old) (K.written sink.new)
        (map (λ watch. held watch) watches.old.items) (map (λ watch. held watch) watches.new.items) item) }
    ensures fleet { crew.new.fleet ≡ crew.old.fleet }
    ensures followers { AreFollowers crew.old.fleet followers.new.list.items }
    ensures count { OnOk result (length followers.new.list.items ≡ length followers.old.list.items + declared_by item) }
    ensures all { HasAll crew.new.fleet crew.new.holds }
    ensures time { AllPass B.meaning crew.old.holds crew.new.holds }
    ensures failed { IsErrOf result WriteError.Failed → Rose (K.faults sink.old) (K.faults sink.new) }
    ensures later { K.faults sink.old ≤ K.faults sink.new }
{
    let lines = play_followed(rt, alloc, gate, crew, followers, watches, item);
    write_lines(alloc, names, lines, sink)
}

/// Writes the lines of an item. NoMemory if there was no memory for them.
fn write_lines<K: Sink>(
    alloc: Global,
    names: &Names,
    lines: Result<Vec<Line>, AllocError>,
    sink: &mut K,
) -> Result<(), WriteError>
    requires { IfOk lines (λ lines. AllByRecursion (IsOf names.now) lines.items) }
    ensures made { OnOk result (IsOk lines) }
    ensures written { OnOk result
        (IfOk lines (λ lines. Appends (K.written sink.old) (K.written sink.new) (lines_text names.now lines.items))) }
    ensures front { IfOk lines (λ lines. WritesFront (K.written sink.old) (K.written sink.new)
        (lines_text names.now lines.items)) }
    ensures none { told_lines lines ≡ None → K.written sink.new ≡ K.written sink.old }
    ensures failed { IsErrOf result WriteError.Failed → Rose (K.faults sink.old) (K.faults sink.new) }
    ensures later { K.faults sink.old ≤ K.faults sink.new }
{
    let Ok(lines) = lines else {
        return Err(WriteError::NoMemory);
    };
    write_pieces(alloc, names, lines.as_slice(), sink)
}

/// Writes lines, piece by piece.
fn write_pieces<K: Sink>(
    alloc: Global,
    names: &Names,
    lines: &[Line],
    sink: &mut K,
) -> Result<(), WriteError>
    requires { AllByRecursion (IsOf names.now) lines.now }
    ensures written { OnOk result (Appends (K.written sink.old) (K.written sink.new) (lines_text names.now lines.now)) }
    ensures front { WritesFront (K.written sink.old) (K.written sink.new) (lines_text names.now lines.now) }
    ensures failed { IsErrOf result WriteError.Failed → Rose (K.faults sink.old) (K.faults sink.new) }
    ensures later { K.faults sink.old ≤ K.faults sink.new }
{
    let mut text = Vec::new(alloc);
    for piece in lines.chunks(PIECE) {
        write_piece(&mut text, names, piece, sink)?;
    }
    Ok(())
}

/// Writes a piece of lines with one call. `text` is scratch space.
fn write_piece<K: Sink>(
    text: &mut Vec<u8>,
    names: &Names,
    piece: &[Line],
    sink: &mut K,
) -> Result<(), WriteError>
    requires { AllByRecursion (IsOf names.now) piece.now }
    ensures written { OnOk result (Appends (K.written sink.old) (K.written sink.new) (lines_text names.now piece.now)) }
    ensures front { WritesFront (K.written sink.old) (K.written sink.new) (lines_text names.now piece.now) }
    ensures failed { IsErrOf result WriteError.Failed → Rose (K.faults sink.old) (K.faults sink.new) }
    ensures later { K.faults sink.old ≤ K.faults sink.new }
{
    text.clear();
    if put_lines(text, names, piece).is_err() {
        return Err(WriteError::NoMemory);
    }
    match write_all(text.as_slice(), sink) {
        Ok(()) => Ok(()),
        Err(_) => Err(WriteError::Failed),
    }
}
