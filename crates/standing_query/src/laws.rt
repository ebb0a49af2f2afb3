// The law of a query and its spread.
ghost use Rattle.standing_query.specs.Spread.{IsEnough};

/// No-op; states that the groups of the spread decide those of the query, for all rows.
pub fn spread_is_enough()
    ensures { IsEnough }
{}
