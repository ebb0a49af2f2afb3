// The value of a cell that a column lends.

use crate::set_ref::SetRef;

/// The value of a cell that is there; its texts are borrowed from the column.
#[derive(Drop)]
pub enum ValueRef<'a> {
    Int(i64),
    Text(&'a str),
    Set(SetRef<'a>),
}
