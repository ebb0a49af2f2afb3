// Why masks and cuts may stand for a table's rows.
ghost use Rattle.expiry.specs.Laws.{CutsKeep, HorizonsExpire, MasksLeave};

/// A mask leaves the rows that it says. An expiry is a greater horizon over the same rows. A keep is a greater cut of
/// the same rows.
pub fn masks_and_cuts()
    ensures masks { MasksLeave }
    ensures horizons { HorizonsExpire }
    ensures cuts { CutsKeep }
{}
