//! Watches of a rollover: they are told each event, and may leave or ask to halt.
#![tactic(auto)]

mod count_watch;
mod event;
mod line;
mod telling;
mod watch;

pub use count_watch::CountWatch;
pub use event::{Drained, RollEvent, Started, Wish};
pub use line::Line;
pub use telling::tell_all;
pub use watch::Watch;
