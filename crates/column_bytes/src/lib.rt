//! One column of a block as bytes: a header of offsets, presence bits, packed codes, and what the codes stand for.
#![tactic(auto)]

mod column;
mod form;
mod guesses;
mod header;
mod in_order;
mod integers;
mod kind;
mod laws;
mod present;
mod set_codes;
mod set_numbers;
mod set_ref;
mod slots;
mod text_codes;
mod text_set;
mod value;
mod view;
mod writer;

pub use column::{Column, are_of_kind, encode, encode_codes, encode_numbers, encode_refs};
pub use integers::integer_or;
pub use kind::Kind;
pub use laws::one_reading;
pub use set_ref::SetRef;
pub use text_codes::{Dict, code_or, dictionary};
pub use text_set::TextSet;
pub use value::ValueRef;
pub use view::{ColumnView, NoColumn};
