// What the commands of an item mean to a table.
ghost use Rattle.std.specs.Prelude.{◌≡◌, ◌++◌, IfOk, OnOk, option_to_list};
ghost use Rattle.std.specs.List.{flat_map};
ghost use Rattle.standing_feed.specs.Hearing.{meant_by, meant_in, meant_lane, place_in, some_when};
ghost use Rattle.standing_feed.specs.declared.meant.Meant.TheVariants.{Add};

use crate::meant::Meant;
use crate::place::QueryPlace;
use leaf_model::Rows;
use script_text::{Command, Commands, Item};
use std::alloc::{AllocError, Global};

/// The calls of callers by which an item will print lines of the table, lane by lane.
pub fn meant_in(alloc: Global, place: &QueryPlace, item: &Item) -> Result<Vec<Meant>, AllocError>
    ensures { IfOk result (λ calls. calls.items ≡ meant_in (place_in place.now) item.now) }
{
    let mut calls = Vec::new(alloc);
    match item {
        Item::One(command) => put_meant(place, &mut calls, command)?,
        Item::Burst(lanes) => put_lanes(place, &mut calls, lanes.as_slice())?,
    }
    Ok(calls)
}

fn put_lanes(
    place: &QueryPlace,
    calls: &mut Vec<Meant>,
    lanes: &[Commands],
) -> Result<(), AllocError>
    ensures { OnOk result (calls.new.items ≡ calls.old.items ++ flat_map (meant_lane (place_in place.now)) lanes.now) }
{
    for lane in lanes {
        put_lane(place, calls, lane.as_slice())?;
    }
    Ok(())
}

fn put_lane(place: &QueryPlace, calls: &mut Vec<Meant>, lane: &[Command]) -> Result<(), AllocError>
    ensures { OnOk result (calls.new.items ≡ calls.old.items ++ meant_lane (place_in place.now) lane.now) }
{
    for command in lane {
        put_meant(place, calls, command)?;
    }
    Ok(())
}

fn put_meant(
    place: &QueryPlace,
    calls: &mut Vec<Meant>,
    command: &Command,
) -> Result<(), AllocError>
    ensures { OnOk result (calls.new.items ≡ calls.old.items
        ++ option_to_list (meant_by (place_in place.now) command.now)) }
{
    if let Some(call) = meant_by(place, command)? {
        calls.push(call)?;
    }
    Ok(())
}

fn meant_by(place: &QueryPlace, command: &Command) -> Result<Option<Meant>, AllocError>
    ensures { IfOk result (λ call. call ≡ meant_by (place_in place.now) command.now) }
{
    match command {
        Command::Add { leaf, table, rows } => add_meant(place.at.is_at(*leaf, *table), rows),
        Command::Expire {
            leaf,
            table,
            horizon,
        } => Ok(some_when(place.at.is_at(*leaf, *table), Meant::Expire(*horizon))),
        Command::Keep { leaf, table, .. } => {
            Ok(some_when(place.at.is_at(*leaf, *table), Meant::Keep))
        }
        Command::Query(query) => Ok(some_when(
            query.table.as_str() == place.name.as_str(),
            Meant::Ask,
        )),
        Command::Tail { table, rows, .. } => {
            Ok(Some(Meant::Tail(copy_when(*table == place.at.table, rows)?)))
        }
        Command::Fleet { .. }
        | Command::Flush { .. }
        | Command::Drain { .. }
        | Command::Kill(_)
        | Command::Start(_)
        | Command::Rollover(_)
        | Command::Standing { .. }
        | Command::Tell(_) => Ok(None),
    }
}

fn add_meant(is_there: bool, rows: &Rows) -> Result<Option<Meant>, AllocError>
    ensures { IfOk result (λ call. call ≡ some_when is_there (Add rows.now)) }
{
    match copy_when(is_there, rows)? {
        Some(rows) => Ok(Some(Meant::Add(rows))),
        None => Ok(None),
    }
}

fn some_when(is_there: bool, call: Meant) -> Option<Meant>
    ensures { result ≡ some_when is_there call }
{
    if is_there { Some(call) } else { None }
}

fn copy_when(is_there: bool, rows: &Rows) -> Result<Option<Rows>, AllocError>
    ensures { IfOk result (λ copy. copy ≡ some_when is_there rows.now) }
{
    if is_there {
        Ok(Some(rows.copy()?))
    } else {
        Ok(None)
    }
}
