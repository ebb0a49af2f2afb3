// A watch: it is told the events of rollovers.
ghost use Rattle.std.specs.Prelude.{◌≡◌, ◌++◌, [], take};
ghost use Rattle.rollover_watch.specs.Watches.{Held, HasHeard};

use crate::event::{RollEvent, Wish};
use crate::line::Line;

/// A watch is told the events of rollovers, and has a line to show.
pub trait Watch: Send + Drop {
    /// Its meaning: its line, its counts, the events if it keeps them, and its wish at each event.
    ghost held: { Self → Held };

    /// Tells it an event. Its wish follows from its meaning and the event.
    fn told(&mut self, event: &RollEvent) -> Wish
        ensures wish { result ≡ (held self.old).wish [] event.now }
        ensures heard { HasHeard event.now (held self.old) (held self.new) };

    /// Appends the watch's line. What does not fit is dropped.
    fn line(&self, out: &mut Line)
        ensures { out.new ≡ take 80 (out.old ++ (held self.now).line []) };
}
