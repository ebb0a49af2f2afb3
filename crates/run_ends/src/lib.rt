//! How a run ends: its status, the text of the status, and how a source is read whole and bytes are written whole.
#![tactic(auto)]

mod faults;
mod status;
mod stream;

pub use faults::fault_text;
pub use status::Status;
pub use stream::{LONGEST_TEXT, PIECE, SourceError, pass_rest, read_all, read_piece, write_all};
