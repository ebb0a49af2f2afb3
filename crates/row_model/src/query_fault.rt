// Why a text is no query.

/// Why a text is no query. A place is a byte offset into the text: of the first token that no query goes on with, of
/// the first byte that begins no token, or of the text's end if more has to follow.
#[derive(Clone, Copy, Debug, PartialEq, Eq)]
pub enum QueryFault {
    Syntax(u64),
    /// The fault stands after the table's name, and before the end of the time range.
    NoTime,
    /// An integer may stand here, but this one is out of range.
    TooLarge(u64),
    NoMemory,
}
