// A standing query that follows its leaf's table.
use crate::teller::Teller;

/// A standing query: the leaf and the place of its table, and its state.
#[derive(Drop)]
pub struct Follower {
    pub leaf: u32,
    pub table: u32,
    pub standing: Teller,
}
