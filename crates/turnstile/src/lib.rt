//! An object that threads share by turns. Its calls make one legal history.
#![tactic(auto)]

mod object;
mod plays;
mod seat;
mod steps;
mod turnstile;
mod view;

pub use object::{Clock, Object, TurnEntry};
pub use seat::Seat;
pub use turnstile::Turnstile;
