// The limits of rows, names and texts. The definitions state the same numbers.

/// The most cells of a row. Its time is not a cell.
pub const MAX_CELLS: usize = 1024;

/// The most bytes of a cell's name.
pub const MAX_NAME: usize = 255;

/// The most bytes of a text in a cell, and of all texts of a set together.
pub const MAX_TEXT: usize = 65_535;

/// The most texts of a set.
pub const MAX_MEMBERS: usize = 1024;

/// The most rows of one add or of one tail.
pub const MAX_ROWS: u64 = 100_000;
