// Plays items with their standing queries: declares them, tells them, and lets them follow the lines of each item.
ghost use Rattle.std.specs.Prelude.{◌≡◌, ◌+◌, ◌<◌, ◌≤◌, ◌++◌, ◌∷◌, [], IfOk, OnOk, length, map, true, false};
ghost use Rattle.std.specs.List.{AllByRecursion};
ghost use Rattle.printed_lines.specs.Lines.{IsOf};
ghost use Rattle.printed_lines.specs.declared.line.Line.TheVariants.{Declared};
ghost use Rattle.script_text.specs.declared.command.Command.TheVariants.{Standing, Tell};
ghost use Rattle.script_text.specs.Fits.{TellsDeclared, declared_by};
ghost use Rattle.standing_query.specs.Spread.{spread};
ghost use Rattle.standing_feed.specs.Following.{StayInPlace, new_follower, table_place_of};
ghost use Rattle.transcript.specs.Pieces.{place_among};
ghost use Rattle.transcript_standing.specs.Followed.{AreFollowers, IsFollower, TellsState};
ghost use Rattle.player.specs.Asked.{AreGroups, IfGroups};
ghost use Rattle.player.specs.Crew.{AllPass, HasAll};
ghost use Rattle.lane_play.specs.Went.{OrNothing, told_lines};
ghost use Rattle.play.specs.Standing.{DoesSo, FollowsLines, IsBefore, ItemDid, MayRun, MayRunAlone, PlaysOwn, SettlesBy, TellsBy, TellsLine, TellsSo};

use berth_face::{Berth, Gate};
use bursts::{play_burst, play_one};
use leaf_model::Query;
use leaf_table::Reply;
use player::Crew;
use printed_lines::{Line, WhyUntold};
use rollover_watch::Watch;
use script_text::{Item, Part, RunOrder};
use standing_feed::{Follower, Followers};
use std::alloc::{AllocError, Global};
use std::sync::Wait;
use std::thread::Threads;

/// Plays an item, and lets each standing query follow its lines. Gives the lines. Err if memory runs out: all leaves,
/// seats and watches are back.
pub fn play_followed<'t, R: Wait + Threads + Sync, B: Berth, G: Gate>(
    rt: &R,
    alloc: Global,
    gate: &G,
    crew: &mut Crew<'t, B>,
    followers: &mut Followers,
    watches: &mut Vec<Box<dyn Watch>>,
    item: Item,
) -> Result<Vec<Line>, AllocError>
    requires may { MayRun crew.old.fleet item }
    requires told { TellsDeclared (length followers.old.list.items) item }
    requires followers { AreFollowers crew.old.fleet followers.old.list.items }
    requires few { length followers.old.list.items + declared_by item ≤ 16 }
    requires all { HasAll crew.old.fleet crew.old.holds }
    ensures did { OrNothing (ItemDid B.meaning crew.old.fleet item
        (FollowsLines item followers.old.list.items followers.new.list.items) followers.old.list.items crew.old.holds
        (map (λ watch. held watch) watches.old.items) (told_lines result) crew.new.holds
        (map (λ watch. held watch) watches.new.items)) crew.old.holds (map (λ watch. held watch) watches.old.items)
        (told_lines result) crew.new.holds (map (λ watch. held watch) watches.new.items) }
    ensures fleet { (crew.new.fleet ≡ crew.old.fleet) × (crew.new.tables ≡ crew.old.tables) }
    ensures all { HasAll crew.new.fleet crew.new.holds }
    ensures time { AllPass B.meaning crew.old.holds crew.new.holds }
    ensures lines_fit { IfOk result (λ lines. AllByRecursion (IsOf crew.old.fleet.names) lines.items) }
    ensures followers { AreFollowers crew.old.fleet followers.new.list.items }
    ensures count { OnOk result (length followers.new.list.items ≡ length followers.old.list.items + declared_by item) }
{
    let notes = followers.note(alloc, &item)?;
    let lines = play_any(rt, alloc, gate, crew, followers, watches, item)?;
    followers.follow(alloc, notes, lines.as_slice())?;
    Ok(lines)
}

// Plays an item, by the crew or by the run itself.
fn play_any<'t, R: Wait + Threads + Sync, B: Berth, G: Gate>(
    rt: &R,
    alloc: Global,
    gate: &G,
    crew: &mut Crew<'t, B>,
    followers: &mut Followers,
    watches: &mut Vec<Box<dyn Watch>>,
    item: Item,
) -> Result<Vec<Line>, AllocError>
    requires may { MayRun crew.old.fleet item }
    requires told { TellsDeclared (length followers.old.list.items) item }
    requires followers { AreFollowers crew.old.fleet followers.old.list.items }
    requires few { length followers.old.list.items + declared_by item ≤ 16 }
    requires all { HasAll crew.old.fleet crew.old.holds }
    ensures did { OrNothing (ItemDid B.meaning crew.old.fleet item (IsBefore followers.new.list.items)
        followers.old.list.items crew.old.holds (map (λ watch. held watch) watches.old.items) (told_lines result)
        crew.new.holds (map (λ watch. held watch) watches.new.items)) crew.old.holds
        (map (λ watch. held watch) watches.old.items) (told_lines result) crew.new.holds
        (map (λ watch. held watch) watches.new.items) }
    ensures fleet { (crew.new.fleet ≡ crew.old.fleet) × (crew.new.tables ≡ crew.old.tables) }
    ensures all { HasAll crew.new.fleet crew.new.holds }
    ensures time { AllPass B.meaning crew.old.holds crew.new.holds }
    ensures lines_fit { IfOk result (λ lines. AllByRecursion (IsOf crew.old.fleet.names) lines.items) }
    ensures followers { AreFollowers crew.old.fleet followers.new.list.items }
    ensures count { OnOk result (length followers.new.list.items ≡ length followers.old.list.items + declared_by item) }
    ensures places { StayInPlace followers.old.list.items followers.new.list.items }
{
    match item {
        Item::One(command) => match command.split() {
            Part::Leaves(order) => play_one(rt, alloc, gate, crew, watches, order),
            Part::Run(RunOrder::Declare { leaf, query }) => declare(
                alloc, crew, followers, leaf, query,
            ),
            Part::Run(RunOrder::Tell(standing)) => tell(rt, alloc, gate, crew, followers, standing),
        },
        Item::Burst(lanes) => play_burst(rt, alloc, gate, crew, watches, lanes.into_inner()),
    }
}

// Declares a standing query.
fn declare<'t, B: Berth>(
    alloc: Global,
    crew: &Crew<'t, B>,
    followers: &mut Followers,
    leaf: u32,
    query: Query,
) -> Result<Vec<Line>, AllocError>
    requires may { MayRunAlone crew.now.fleet (Standing leaf query) }
    requires followers { AreFollowers crew.now.fleet followers.old.list.items }
    requires few { length followers.old.list.items + 1 ≤ 16 }
    ensures lines { IfOk result (λ lines. lines.items ≡ Declared (length followers.old.list.items) ∷ []) }
    ensures declared { OnOk result (followers.new.list.items ≡ followers.old.list.items
        ++ new_follower leaf (place_among query.table crew.now.fleet.names) query ∷ []) }
    ensures followers { AreFollowers crew.now.fleet followers.new.list.items }
    ensures count { OnOk result (length followers.new.list.items ≡ length followers.old.list.items + 1) }
    ensures places { StayInPlace followers.old.list.items followers.new.list.items }
{
    let mut lines = Vec::with_capacity(alloc, 1)?;
    let number = followers.count();
    let table = crew.place_of(query.table.as_str());
    followers.declare(alloc, leaf, table, query)?;
    lines.push_reserved(Line::Declared(number));
    Ok(lines)
}

// Lets a standing query tell. If its state is stale, the leaf's table is asked first.
fn tell<'t, R: Wait + Threads + Sync, B: Berth, G: Gate>(
    rt: &R,
    alloc: Global,
    gate: &G,
    crew: &mut Crew<'t, B>,
    followers: &mut Followers,
    standing: u32,
) -> Result<Vec<Line>, AllocError>
    requires there { standing < length followers.old.list.items }
    requires followers { AreFollowers crew.old.fleet followers.old.list.items }
    requires all { HasAll crew.old.fleet crew.old.holds }
    ensures plays { PlaysOwn B.meaning crew.old.fleet (Tell standing)
        (DoesSo crew.old.fleet (Tell standing) followers.old.list.items result followers.new.list.items) crew.old.holds
        result crew.new.holds }
    ensures fleet { (crew.new.fleet ≡ crew.old.fleet) × (crew.new.tables ≡ crew.old.tables) }
    ensures all { HasAll crew.new.fleet crew.new.holds }
    ensures time { AllPass B.meaning crew.old.holds crew.new.holds }
    ensures followers { AreFollowers crew.old.fleet followers.new.list.items }
    ensures count { length followers.new.list.items ≡ length followers.old.list.items }
    ensures places { StayInPlace followers.old.list.items followers.new.list.items }
{
    let follower = &mut followers.list[standing as usize];
    if follower.standing.stale() {
        tell_stale(rt, alloc, gate, crew, follower, standing)
    } else {
        tell_fresh(alloc, follower, standing)
    }
}

// The line of a fresh query.
fn tell_fresh(
    alloc: Global,
    follower: &mut Follower,
    standing: u32,
) -> Result<Vec<Line>, AllocError>
    requires fresh { follower.old.standing.stale ≡ false }
    ensures same { follower.new ≡ follower.old }
    ensures told { IfOk result (λ lines. TellsLine standing follower.old lines.items) }
{
    let mut lines = Vec::with_capacity(alloc, 1)?;
    lines.push_reserved(told_line(alloc, follower, standing)?);
    Ok(lines)
}

fn told_line(alloc: Global, follower: &mut Follower, standing: u32) -> Result<Line, AllocError>
    requires fresh { follower.old.standing.stale ≡ false }
    ensures same { follower.new ≡ follower.old }
    ensures told { IfOk result (TellsState standing follower.old) }
{
    let rows = follower.tell(alloc)?;
    Ok(Line::Told {
        standing,
        number: follower.standing.upto(),
        rows,
    })
}

// Asks the table of a stale query. Gives the line of that, and what the query then tells.
fn tell_stale<'t, R: Wait + Threads + Sync, B: Berth, G: Gate>(
    rt: &R,
    alloc: Global,
    gate: &G,
    crew: &mut Crew<'t, B>,
    follower: &mut Follower,
    standing: u32,
) -> Result<Vec<Line>, AllocError>
    requires stale { follower.old.standing.stale ≡ true }
    requires is { IsFollower crew.old.fleet follower.old }
    requires all { HasAll crew.old.fleet crew.old.holds }
    ensures plays { PlaysOwn B.meaning crew.old.fleet (Tell standing)
        (TellsSo crew.old.fleet standing follower.old result follower.new) crew.old.holds result crew.new.holds }
    ensures fleet { (crew.new.fleet ≡ crew.old.fleet) × (crew.new.tables ≡ crew.old.tables) }
    ensures all { HasAll crew.new.fleet crew.new.holds }
    ensures time { AllPass B.meaning crew.old.holds crew.new.holds }
    ensures place { table_place_of follower.new ≡ table_place_of follower.old }
{
    let (line, reply) = crew.ask_leaf(
        rt,
        gate,
        follower.leaf,
        follower.table,
        follower.standing.spread(),
    );
    let told = told_behind(alloc, follower, reply, standing)?;
    two_lines(alloc, line, told)
}

// What a standing query tells after this reply to its spread.
fn told_behind(
    alloc: Global,
    follower: &mut Follower,
    reply: Reply,
    standing: u32,
) -> Result<Line, AllocError>
    requires stale { follower.old.standing.stale ≡ true }
    requires groups { IfGroups reply (AreGroups (spread follower.old.standing.query)) }
    ensures place { table_place_of follower.new ≡ table_place_of follower.old }
    ensures told { TellsBy standing follower.old reply result follower.new }
{
    match settle(follower, reply) {
        Ok(()) => told_line(alloc, follower, standing),
        Err(why) => Ok(Line::Untold { standing, why }),
    }
}

// Makes a stale state fresh by the reply to its spread. Err says why it stays stale.
fn settle(follower: &mut Follower, reply: Reply) -> Result<(), WhyUntold>
    requires stale { follower.old.standing.stale ≡ true }
    requires groups { IfGroups reply (AreGroups (spread follower.old.standing.query)) }
    ensures place { table_place_of follower.new ≡ table_place_of follower.old }
    ensures settles { SettlesBy reply follower.old result follower.new }
{
    match reply {
        Reply::Groups { number, groups } => {
            follower.settle(number, groups);
            Ok(())
        }
        Reply::Shut { .. } => Err(WhyUntold::Shut),
        Reply::Worn => Err(WhyUntold::Worn),
        Reply::Added { .. } | Reply::Removed { .. } | Reply::Full { .. } | Reply::NoMemory { .. } =>
            Err(WhyUntold::Memory),
    }
}

fn two_lines(alloc: Global, first: Line, second: Line) -> Result<Vec<Line>, AllocError>
    ensures { IfOk result (λ lines. lines.items ≡ first ∷ second ∷ []) }
{
    let mut lines = Vec::with_capacity(alloc, 2)?;
    lines.push_reserved(first);
    lines.push_reserved(second);
    Ok(lines)
}
