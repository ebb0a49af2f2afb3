// A watch that counts.
ghost use Rattle.std.specs.Prelude.{◌≡◌};
ghost use Rattle.rollover_watch.specs.Watches.{raised};
ghost use Rattle.rollover_watch.specs.Counts.{counted};

use crate::event::{RollEvent, Wish};
use crate::line::Line;
use crate::watch::Watch;
use itoa::Buffer;

/// A watch that counts the drains that ended well and the starts that found the tables in memory. It always stays, and
/// keeps no events.
#[derive(Drop)]
pub struct CountWatch {
    drained: u64,
    adopted: u64,
}

impl CountWatch {
    pub fn new() -> CountWatch
        ensures { ⟦<CountWatch as Watch>⟧.held result ≡ counted 0 0 }
    {
        CountWatch {
            drained: 0,
            adopted: 0,
        }
    }
}

impl Watch for CountWatch {
    ghost held = { λ watch. counted watch.drained watch.adopted };

    fn told(&mut self, event: &RollEvent) -> Wish {
        self.drained = raised(self.drained, event.is_drained());
        self.adopted = raised(self.adopted, event.is_adopted());
        Wish::Stay
    }

    fn line(&self, out: &mut Line) {
        out.push_all(b"drained ");
        out.push_all(Buffer::new().format(self.drained).as_bytes());
        out.push_all(b" adopted ");
        out.push_all(Buffer::new().format(self.adopted).as_bytes());
    }
}

/// The count, plus one if the event counts. It saturates.
fn raised(count: u64, counts: bool) -> u64
    ensures { result ≡ raised counts count }
{
    if counts {
        count.saturating_add(1)
    } else {
        count
    }
}
