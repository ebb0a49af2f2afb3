// One event, told to a list of watches.
ghost use Rattle.std.specs.Prelude.{◌≡◌, [], map};
ghost use Rattle.rollover_watch.specs.Watches.{HasHeard, AreTold, is_halt_asked};

use crate::event::{RollEvent, Wish};
use crate::watch::Watch;

/// Tells one watch.
fn tell(watch: &mut Box<dyn Watch>, event: &RollEvent) -> Wish
    ensures wish { result ≡ (held watch.old).wish [] event.now }
    ensures heard { HasHeard event.now (held watch.old) (held watch.new) }
{
    watch.told(event)
}

/// Tells each watch the event, in the order of the list. A watch that wishes to leave is dropped at once. Returns
/// whether one asked for a halt.
pub fn tell_all(watches: &mut Vec<Box<dyn Watch>>, event: &RollEvent) -> bool
    ensures told { AreTold event.now (map (λ watch. held watch) watches.old.items)
        (map (λ watch. held watch) watches.new.items) }
    ensures halt { result ≡ is_halt_asked event.now (map (λ watch. held watch) watches.old.items) }
{
    let mut halted = false;
    let mut place = 0;
    while place < watches.len() {
        match tell(&mut watches[place], event) {
            Wish::Stay => place += 1,
            Wish::Leave => {
                let _left = watches.remove(place);
            }
            Wish::Halt => {
                halted = true;
                place += 1;
            }
        }
    }
    halted
}
