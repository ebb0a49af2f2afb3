//! Reads numbers and dictionaries in the bytes of a column. A dictionary has texts, or texts and sets of them.
#![tactic(auto)]

mod fields;
mod sets;
mod texts;

pub use fields::{i64_at, u32_at, u64_at};
pub use sets::{is_set_dictionary, set_count, text_of_set, texts_in_set};
pub use texts::{is_dictionary, text_count, text_of};
