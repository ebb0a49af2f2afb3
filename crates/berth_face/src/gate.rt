// The place where tests hold a command or a turn.

/// Lets a test hold a command before it is played, or a caller inside a table's turn. It changes no answer.
pub trait Gate: Sync {
    /// Waits, or not, before a command. In a burst it gets the lane's number and the command's place in the lane, both
    /// from 0; outside bursts 0 and the command's place among those outside bursts.
    fn pass(&self, lane: u32, step: u32);

    /// Called inside a turn of this table of this leaf.
    fn within(&self, leaf: u32, table: u32);
}

/// A gate that holds nobody.
#[derive(Clone, Copy)]
pub struct OpenGate;

impl Gate for OpenGate {
    fn pass(&self, _lane: u32, _step: u32) {}

    fn within(&self, _leaf: u32, _table: u32) {}
}
