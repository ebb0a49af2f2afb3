//! The text of a script: its commands, or its first fault.
#![tactic(auto)]

mod add;
mod command;
mod drain;
mod earlier;
mod expire;
mod fleet;
mod flush;
mod item;
mod keep;
mod later;
mod line_word;
mod marks;
mod order;
mod parsing;
mod query;
mod reading;
mod rollover;
mod row_parts;
mod script;
mod standing;
mod tail;
mod target;
mod words;

pub use command::{Aim, Command, Commands};
pub use fleet::FleetShape;
pub use item::{Item, Items, LaneList};
pub use order::{Order, Part, RunOrder, TableRequest};
pub use parsing::parse;
pub use row_model::{ScriptFault, Why};
pub use script::Script;
pub use words::time_of;
