//! Bit strings and packed codes: numbers of a few bits each, one after the other in bytes.
#![tactic(auto)]

mod decode;
mod limit;
mod packed;
mod packing;
mod presence;
mod width;
mod words;

pub use packed::Packed;
pub use packing::{pack, pack_bits};
pub use presence::PresenceBits;
pub use width::width_of;
