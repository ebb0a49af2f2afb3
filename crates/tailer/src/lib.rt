//! A tail: rows that go to one of two leaves, which the words of a key draw. The leaf with more free rows gets them.
#![tactic(auto)]

mod calls;
mod replies;
mod sending;
mod tries;
mod trying;

pub use sending::send;
pub use tries::{Sent, Tailed, Tries, Try};
