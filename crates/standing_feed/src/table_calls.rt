// The calls of an item at a table.
use crate::meant::Meant;
use crate::place::TableAt;

/// The calls of an item at a table.
#[derive(Drop)]
pub struct TableCalls {
    pub at: TableAt,
    pub calls: Vec<Meant>,
}
