// What holds of all answers.
ghost use Rattle.leaf_opening.specs.Answers.{OneAnswer};

/// The bytes of region and disk decide at most one answer.
pub fn answers_are_one()
    ensures { OneAnswer }
{}
