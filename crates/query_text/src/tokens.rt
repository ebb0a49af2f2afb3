// What a text is cut into.

use leaf_model::{Op, Text};

/// A token of a query's text. An integer out of the range of i64 has no value.
#[derive(Drop)]
pub enum Token {
    /// A letter or `_`, and then letters, digits and `_`.
    Word(Text),
    /// What stands in double quotes.
    Name(Text),
    /// What stands in single quotes.
    Text(Text),
    Int(Option<i64>),
    Comma,
    Open,
    Close,
    Star,
    Compare(Op),
    /// The token of a byte that begins no other.
    Stray,
}

/// A token, and the number of its bytes after its first.
#[derive(Drop)]
pub struct FoundToken {
    pub token: Token,
    pub more: usize,
}
