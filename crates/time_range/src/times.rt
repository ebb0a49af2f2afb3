// The range of some times.
ghost use Rattle.std.specs.Prelude.{◌<◌, length};
ghost use Rattle.time_range.specs.Ranges.{IsRangeOf};

/// The least and the greatest of some times, and whether they are known never to fall.
#[derive(Debug, Clone, Copy)]
pub struct TimeRange {
    /// The least time.
    pub from: i64,
    /// The greatest time.
    pub to: i64,
    /// If true, no time is below one before it in the list. False claims nothing.
    pub in_order: bool,
}

/// The range of the times, in one pass. There is one time at least.
pub fn range_of(times: &[i64]) -> TimeRange
    requires { 0 < length times.now }
    ensures { IsRangeOf times.now result }
{
    let mut from = times[0];
    let mut to = times[0];
    let mut in_order = true;
    for time in times {
        in_order &= to <= *time;
        from = from.min(*time);
        to = to.max(*time);
    }
    TimeRange { from, to, in_order }
}
