// The answer of an add.

/// Why an add was refused: the table would pass 2^40 rows, or memory ran out.
#[derive(Clone, Copy, Debug, PartialEq, Eq)]
pub enum AddFault {
    Full,
    NoMemory,
}

/// The numbers of rows of an add that were kept and that were late.
#[derive(Clone, Copy, PartialEq, Eq)]
pub struct Added {
    pub kept: u64,
    pub late: u64,
}
