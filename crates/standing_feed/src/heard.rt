// An entry that was heard.
ghost use Rattle.std.specs.Prelude.{◌≡◌, IfOk};

use standing_query::Fed;
use std::alloc::AllocError;

/// An entry of a table: its number, and what it feeds to a state.
#[derive(Drop)]
pub struct Heard {
    pub number: u64,
    pub fed: Fed,
}

impl Heard {
    pub fn copy(&self) -> Result<Heard, AllocError>
        ensures { IfOk result (λ copy. copy ≡ self.now) }
    {
        Ok(Heard {
            number: self.number,
            fed: copy_of(&self.fed)?,
        })
    }
}

fn copy_of(fed: &Fed) -> Result<Fed, AllocError>
    ensures { IfOk result (λ copy. copy ≡ fed.now) }
{
    Ok(match fed {
        Fed::Added { rows, late } => Fed::Added {
            rows: rows.copy()?,
            late: *late,
        },
        Fed::Expired { horizon } => Fed::Expired { horizon: *horizon },
        Fed::Kept { removed } => Fed::Kept { removed: *removed },
        Fed::Opened => Fed::Opened,
        Fed::Closed => Fed::Closed,
        Fed::Other => Fed::Other,
    })
}
