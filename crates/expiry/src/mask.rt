// A horizon as a mask.
ghost use Rattle.std.specs.Prelude.{◌≡◌, IfOk};
ghost use Rattle.expiry.specs.Masks.{mask_of};

use std::alloc::{AllocError, Global};

/// The mask of rows with these times: true for each that is not among the first `skip` and whose time is at least the
/// horizon.
pub fn stays(alloc: Global, times: &[i64], skip: u32, horizon: i64) -> Result<Vec<bool>, AllocError>
    ensures { IfOk result (λ mask. mask.items ≡ mask_of times.now skip horizon) }
{
    let mut mask = vec![in alloc; false; times.len()]?;
    for place in skip as usize..times.len() {
        mask[place] = times[place] >= horizon;
    }
    Ok(mask)
}
