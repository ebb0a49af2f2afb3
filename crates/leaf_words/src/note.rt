// Notes: what the steward of a leaf tells of its entries.

/// What an entry did: it opened a table that has so many writes; took or flushed its first so many writes; closed it
/// after so many; or handed it over.
#[derive(Clone, Copy, PartialEq, Eq)]
pub enum What {
    Opened(u64),
    Took(u64),
    Flushed(u64),
    Closed(u64),
    Handed,
}

/// The note of an entry: the index of the table in the leaf, the number of the entry in the table's history, from 1 on,
/// and what it did.
#[derive(Clone, Copy, PartialEq, Eq)]
pub struct Note {
    pub table: u32,
    pub number: u64,
    pub what: What,
}
