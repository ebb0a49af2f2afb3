// The query that a text is, or its first fault.
ghost use Rattle.std.specs.Prelude.{◌≡◌, ◌≢◌, Err, IfOk};
ghost use Rattle.row_model.specs.declared.query_fault.QueryFault.TheVariants as fault;
ghost use Rattle.query_text.specs.Grammar.{IsQuery};
ghost use Rattle.query_text.specs.Reading.{takes_int, is_in_range, plain_fault, fault_of, may_end, query_of};

use crate::builders::start;
use crate::places::{Move, Place};
use crate::roles::{is_has, is_number};
use crate::scanner::{next_solid, token_at};
use crate::steps::{is_grouped, step};
use crate::tokens::Token;
use leaf_model::{Query, QueryFault};
use std::alloc::{AllocError, Global};

fn wants_number(place: &Place) -> bool
    ensures { result ≡ takes_int place.now }
{
    match place {
        Place::LowBound | Place::HighBound | Place::LimitNumber => true,
        Place::CondValue(_name, op) => !is_has(*op),
        Place::Select
        | Place::Item
        | Place::NameEnd
        | Place::Opening(_)
        | Place::Inside(_)
        | Place::Closing(_)
        | Place::AggEnd
        | Place::NextAgg
        | Place::Table
        | Place::Where
        | Place::LowTime
        | Place::LowSign
        | Place::And
        | Place::HighTime
        | Place::HighSign
        | Place::CondEnd
        | Place::CondName
        | Place::CondOp(_)
        | Place::By
        | Place::GroupName(_)
        | Place::GroupEnd(_)
        | Place::OrderBy
        | Place::OrderAgg
        | Place::OrderOpening(_)
        | Place::OrderInside(_)
        | Place::OrderClosing(_)
        | Place::Ordered
        | Place::Last => false,
    }
}

fn is_inside_range(place: &Place) -> bool
    ensures { result ≡ is_in_range place.now }
{
    matches!(
        place,
        Place::Where
            | Place::LowTime
            | Place::LowSign
            | Place::LowBound
            | Place::And
            | Place::HighTime
            | Place::HighSign
            | Place::HighBound
    )
}

fn fault_here(place: &Place, at: u64) -> QueryFault
    ensures { result ≡ plain_fault place.now at }
{
    if is_inside_range(place) {
        QueryFault::NoTime
    } else {
        QueryFault::Syntax(at)
    }
}

fn fault_at(place: &Place, at: u64, token: &Token) -> QueryFault
    ensures { result ≡ fault_of place.now at token.now }
{
    if wants_number(place) && is_number(token) {
        QueryFault::TooLarge(at)
    } else {
        fault_here(place, at)
    }
}

fn may_end_here(query: &Query, place: &Place) -> bool
    ensures { result ≡ may_end query.now place.now }
{
    match place {
        Place::CondEnd => !is_grouped(query),
        Place::GroupEnd(i) => query.keys.as_slice().len() as u64 <= *i,
        Place::Ordered | Place::Last => true,
        Place::Select
        | Place::Item
        | Place::NameEnd
        | Place::Opening(_)
        | Place::Inside(_)
        | Place::Closing(_)
        | Place::AggEnd
        | Place::NextAgg
        | Place::Table
        | Place::Where
        | Place::LowTime
        | Place::LowSign
        | Place::LowBound
        | Place::And
        | Place::HighTime
        | Place::HighSign
        | Place::HighBound
        | Place::CondName
        | Place::CondOp(_)
        | Place::CondValue(_, _)
        | Place::By
        | Place::GroupName(_)
        | Place::OrderBy
        | Place::OrderAgg
        | Place::OrderOpening(_)
        | Place::OrderInside(_)
        | Place::OrderClosing(_)
        | Place::LimitNumber => false,
    }
}

/// Reads one token at a time. It holds the query and the token that is read, and nothing else.
fn read(alloc: Global, text: &[u8]) -> Result<Result<Query, QueryFault>, AllocError>
    ensures { IfOk result (λ read. read ≡ query_of text.now) }
{
    let mut query = start(alloc);
    let mut place = Place::Select;
    let mut at = next_solid(text, 0);
    while at < text.len() {
        let found = token_at(alloc, text[at], &text[at + 1..])?;
        let fault = fault_at(&place, at as u64, &found.token);
        match step(query, place, found.token)? {
            Move::Stuck => return Ok(Err(fault)),
            Move::On(next_query, next_place) => {
                query = next_query;
                place = next_place;
            }
        }
        at = next_solid(text, at + 1 + found.more);
    }
    if may_end_here(&query, &place) {
        Ok(Ok(query))
    } else {
        Ok(Err(fault_here(&place, at as u64)))
    }
}

/// Reads a text as a query, or gives its first fault. `TooLarge`: an integer may stand there, and this one's size is
/// wrong. `NoTime`: the fault is after the table and before the end of the range. `Syntax`: elsewhere. `NoMemory` may
/// come at any place. Beside the query it takes memory that grows with the longest token alone.
#[tactic(auto, using(crate::proofs::Meaning::read_query))]
pub fn parse(alloc: Global, text: &[u8]) -> Result<Query, QueryFault>
    ensures exact { result ≢ Err fault.NoMemory → result ≡ query_of text.now }
    ensures is_query { IfOk result IsQuery }
{
    match read(alloc, text) {
        Err(_error) => Err(QueryFault::NoMemory),
        Ok(read) => read,
    }
}
