// The watches of a burst, which go with the lane that has a rollover.
ghost use Rattle.std.specs.Prelude.{◌≡◌, map, MatchBool};
ghost use Rattle.bursts.specs.Rolling.{IsHandedOver, has_rollover, is_rollover};

use rollover_watch::Watch;
use script_text::Command;
use std::alloc::Global;
use std::mem::swap;

/// Whether one of these commands is a rollover.
pub fn has_rollover(commands: &[Command]) -> bool
    ensures { result ≡ has_rollover commands.now }
{
    commands.iter().any(|command| is_rollover(command))
}

fn is_rollover(command: &Command) -> bool
    ensures { result ≡ is_rollover command.now }
{
    matches!(command, Command::Rollover(_))
}

/// The watches for a lane: all if it has a rollover, else none.
pub fn hand_over(
    alloc: Global,
    watches: &mut Vec<Box<dyn Watch>>,
    rolls: bool,
) -> Vec<Box<dyn Watch>>
    ensures { IsHandedOver rolls (map (λ watch. held watch) watches.old.items)
        (map (λ watch. held watch) watches.new.items) (map (λ watch. held watch) result.items) }
{
    let mut its = Vec::new(alloc);
    if rolls {
        swap(&mut its, watches);
    }
    its
}

/// Takes back the watches of a lane that has a rollover.
pub fn take_over(watches: &mut Vec<Box<dyn Watch>>, rolls: bool, its: Vec<Box<dyn Watch>>)
    ensures { MatchBool rolls (map (λ watch. held watch) watches.new.items ≡ map (λ watch. held watch) its.items)
        (map (λ watch. held watch) watches.new.items ≡ map (λ watch. held watch) watches.old.items) }
{
    if rolls {
        *watches = its;
    }
}
