// Why a text is no row.

use crate::text::Text;

/// Why a text is no row. `Name` and `Value` carry the name of the member at fault.
#[derive(Debug, Drop)]
pub enum RowFault {
    Json,
    NotObject,
    NoTime,
    TooMany,
    Name(Text),
    Value(Text),
    NoMemory,
}
