// What commands mean to a table.
use leaf_model::Rows;

/// A call of callers that will print a line of a table.
#[derive(Drop)]
pub enum Meant {
    Add(Rows),
    /// It removes the rows below this horizon.
    Expire(i64),
    Keep,
    Ask,
    /// The calls of a tail, which a line of its own ends. It has the rows to be added, if they are for this table.
    Tail(Option<Rows>),
}

/// The call that prints its lines now: none, if each is done, or a tail, with the rows that may still be added.
#[derive(Drop)]
pub enum Now {
    Between,
    Tail(Option<Rows>),
}
