// The places of the grammar.

use leaf_model::{Agg, Op, Query, Text};

/// The words of aggregates.
#[derive(Clone, Copy, PartialEq, Eq)]
pub enum AggWord {
    Count,
    Sum,
    Min,
    Max,
    Avg,
}

/// The tokens that may come next. A number is a place among the selected names, or among the aggregates.
#[derive(Drop)]
pub enum Place {
    Select,
    Item,
    NameEnd,
    Opening(AggWord),
    Inside(AggWord),
    Closing(Agg),
    AggEnd,
    NextAgg,
    Table,
    Where,
    LowTime,
    LowSign,
    LowBound,
    And,
    HighTime,
    HighSign,
    HighBound,
    CondEnd,
    CondName,
    CondOp(Text),
    CondValue(Text, Op),
    By,
    GroupName(u64),
    GroupEnd(u64),
    OrderBy,
    OrderAgg,
    OrderOpening(AggWord),
    OrderInside(AggWord),
    OrderClosing(u64),
    Ordered,
    LimitNumber,
    Last,
}

/// What a token does: the query goes on after it, or no query has this token here.
#[derive(Drop)]
pub enum Move {
    On(Query, Place),
    Stuck,
}
