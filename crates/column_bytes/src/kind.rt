// The kind of a column.

/// The kind of value that the cells of a column hold. A cell may also be missing.
#[derive(Clone, Copy, PartialEq, Eq)]
pub enum Kind {
    /// Integers of 64 bits.
    Ints,
    /// Texts of at most 65,535 bytes.
    Texts,
    /// Sets of texts.
    Sets,
}
