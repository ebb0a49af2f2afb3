// Laws of the standing queries of each run.
ghost use Rattle.transcript_standing.specs.Laws.{FollowOn, FollowToEnd, FollowToStop, TellRight};

/// No-op; states the laws of standing queries that follow the items of a run. At each `tell` a query tells the rows of
/// its table after the last entry that was printed. It asks its table exactly if the lines made it stale. This holds
/// over the histories of each transcript, and also if the run stops after an item.
pub fn standing_queries_follow()
    ensures on { FollowOn }
    ensures end { FollowToEnd }
    ensures stop { FollowToStop }
    ensures right { TellRight }
{}
