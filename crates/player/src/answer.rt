// How a deed ended, in the words of the watches.
ghost use Rattle.std.specs.Prelude.{◌≡◌};
ghost use Rattle.transcript.specs.Watching.{came_by, drained_by, started_by};
ghost use Rattle.player.specs.Commands.{answer_of};

use leaf_words::Way;
use printed_lines::Ending;
use rollover_watch::{Drained, Started};

/// How a deed ended, read as a drain and as a start. Callers look only at the one that it was.
#[derive(Clone, Copy)]
pub struct DeedOutcome {
    pub drained: Drained,
    pub started: Started,
}

impl DeedOutcome {
    pub fn of(ending: &Ending) -> DeedOutcome
        ensures { result ≡ answer_of ending.now }
    {
        DeedOutcome {
            drained: drained_by(ending),
            started: started_by(ending),
        }
    }
}

fn drained_by(ending: &Ending) -> Drained
    ensures { result ≡ drained_by ending.now }
{
    match ending {
        Ending::Done => Drained::Done,
        Ending::NotUp => Drained::NotUp,
        Ending::FaultMemory => Drained::NoMemory,
        Ending::Stopped
        | Ending::NotDown
        | Ending::Worn
        | Ending::Started(_)
        | Ending::FaultRegion
        | Ending::FaultRoom
        | Ending::FaultDisk
        | Ending::FaultDamaged
        | Ending::FaultStranger(_)
        | Ending::FaultWorn(_) => Drained::Fault,
    }
}

fn started_by(ending: &Ending) -> Started
    ensures { result ≡ started_by ending.now }
{
    match ending {
        Ending::Started(way) => came_by(*way),
        Ending::NotDown => Started::NotDown,
        Ending::FaultMemory => Started::NoMemory,
        Ending::Done
        | Ending::Stopped
        | Ending::NotUp
        | Ending::Worn
        | Ending::FaultRegion
        | Ending::FaultRoom
        | Ending::FaultDisk
        | Ending::FaultDamaged
        | Ending::FaultStranger(_)
        | Ending::FaultWorn(_) => Started::Fault,
    }
}

fn came_by(way: Way) -> Started
    ensures { result ≡ came_by way }
{
    match way {
        Way::Memory => Started::Memory,
        Way::Disk(_) => Started::Disk,
    }
}
