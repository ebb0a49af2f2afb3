// What a token does where it stands.
ghost use Rattle.std.specs.Prelude.{◌≡◌, IfOk, slice_get};
ghost use Rattle.query_text.specs.Roles.{is_word, name_of_token};
ghost use Rattle.query_text.specs.Reading.{goes_on, has_keys, sign_fits, on_if, is_key, order_or_limit};
ghost use Rattle.query_text.specs.declared.places.Place.TheVariants.{Item, NameEnd, Opening, Inside, Closing, AggEnd, NextAgg, Table, LowSign, LowBound, HighSign, HighBound, CondEnd, CondName, CondOp, CondValue, GroupName, GroupEnd, OrderAgg, OrderOpening, OrderInside, OrderClosing, LimitNumber};

use crate::aggregates::{any_is_kind, any_takes_order, find_agg, is_same_text, take_inside};
use crate::builders::{
    push_agg, push_cond, push_key, set_high, set_limit, set_low, set_order, set_table,
};
use crate::places::{AggWord, Move, Place};
use crate::roles::{
    closes, is_the_comma, is_the_word, kind_in, limit_in, number_in, op_in, opens, take_const_for,
    take_name, take_table,
};
use crate::tokens::Token;
use leaf_model::{Agg, Cond, Op, Query, Text};
use std::alloc::AllocError;

fn on_when(is_so: bool, query: Query, place: Place) -> Move
    ensures { result ≡ on_if is_so query place }
{
    if is_so {
        Move::On(query, place)
    } else {
        Move::Stuck
    }
}

/// Goes on at `place` if the token is this word.
fn on_word(query: Query, token: Token, word: &str, place: Place) -> Move
    ensures { result ≡ on_if (is_word word.now token) query place }
{
    on_when(is_the_word(&token, word), query, place)
}

fn order_here(query: Query, token: &Token) -> Move
    ensures { result ≡ order_or_limit query token.now }
{
    if is_the_word(token, "ORDER") && any_takes_order(query.aggs.as_slice()) {
        Move::On(query, Place::OrderBy)
    } else {
        on_when(is_the_word(token, "LIMIT"), query, Place::LimitNumber)
    }
}

/// Takes the inside of the aggregate in ORDER BY, which has to be a selected one.
fn order_inside(query: Query, kind: AggWord, token: Token) -> Move
    ensures { result ≡ goes_on query (OrderInside kind) token }
{
    match take_inside(kind, token) {
        None => Move::Stuck,
        Some(agg) => match find_agg(&agg, query.aggs.as_slice()) {
            None => Move::Stuck,
            Some(i) => Move::On(query, Place::OrderClosing(i)),
        },
    }
}

fn item(query: Query, token: Token) -> Result<Move, AllocError>
    ensures { IfOk result (λ moved. moved ≡ goes_on query Item token) }
{
    match kind_in(&token) {
        Some(kind) => Ok(Move::On(query, Place::Opening(kind))),
        None => match take_name(token) {
            None => Ok(Move::Stuck),
            Some(name) => Ok(Move::On(push_key(query, name)?, Place::NameEnd)),
        },
    }
}

fn name_end(query: Query, token: Token) -> Move
    ensures { result ≡ goes_on query NameEnd token }
{
    on_when(is_the_comma(&token), query, Place::Item)
}

fn opening(query: Query, kind: AggWord, token: Token) -> Move
    ensures { result ≡ goes_on query (Opening kind) token }
{
    on_when(opens(&token), query, Place::Inside(kind))
}

fn next_agg(query: Query, token: Token) -> Move
    ensures { result ≡ goes_on query NextAgg token }
{
    match kind_in(&token) {
        Some(kind) => Move::On(query, Place::Opening(kind)),
        None => Move::Stuck,
    }
}

fn inside(query: Query, kind: AggWord, token: Token) -> Move
    ensures { result ≡ goes_on query (Inside kind) token }
{
    match take_inside(kind, token) {
        None => Move::Stuck,
        Some(agg) => Move::On(query, Place::Closing(agg)),
    }
}

fn closing(query: Query, agg: Agg, token: Token) -> Result<Move, AllocError>
    ensures { IfOk result (λ moved. moved ≡ goes_on query (Closing agg) token) }
{
    if closes(&token) {
        Ok(Move::On(push_agg(query, agg)?, Place::AggEnd))
    } else {
        Ok(Move::Stuck)
    }
}

fn agg_end(query: Query, token: Token) -> Move
    ensures { result ≡ goes_on query AggEnd token }
{
    if is_the_comma(&token) {
        Move::On(query, Place::NextAgg)
    } else {
        on_when(is_the_word(&token, "FROM"), query, Place::Table)
    }
}

fn table(query: Query, token: Token) -> Move
    ensures { result ≡ goes_on query Table token }
{
    match take_table(token) {
        None => Move::Stuck,
        Some(table) => Move::On(set_table(query, table), Place::Where),
    }
}

/// Whether the comparison is `>=` before the low bound, or `<=` before the high one.
fn is_sign(op: Option<Op>, is_low: bool) -> bool
    ensures { result ≡ sign_fits is_low op }
{
    match op {
        Some(Op::Ge) => is_low,
        Some(Op::Le) => !is_low,
        Some(Op::Eq | Op::Ne | Op::Lt | Op::Gt | Op::Has) | None => false,
    }
}

fn low_sign(query: Query, token: Token) -> Move
    ensures { result ≡ goes_on query LowSign token }
{
    on_when(is_sign(op_in(&token), true), query, Place::LowBound)
}

fn high_sign(query: Query, token: Token) -> Move
    ensures { result ≡ goes_on query HighSign token }
{
    on_when(is_sign(op_in(&token), false), query, Place::HighBound)
}

fn low_bound(query: Query, token: Token) -> Move
    ensures { result ≡ goes_on query LowBound token }
{
    match number_in(&token) {
        None => Move::Stuck,
        Some(n) => Move::On(set_low(query, n), Place::And),
    }
}

fn high_bound(query: Query, token: Token) -> Move
    ensures { result ≡ goes_on query HighBound token }
{
    match number_in(&token) {
        None => Move::Stuck,
        Some(n) => Move::On(set_high(query, n), Place::CondEnd),
    }
}

/// Whether a name is selected.
pub fn is_grouped(query: &Query) -> bool
    ensures { result ≡ has_keys query.now }
{
    query.keys.as_slice().len() > 0
}

fn cond_end(query: Query, token: Token) -> Move
    ensures { result ≡ goes_on query CondEnd token }
{
    if is_the_word(&token, "AND") {
        Move::On(query, Place::CondName)
    } else if is_grouped(&query) {
        on_when(is_the_word(&token, "GROUP"), query, Place::By)
    } else {
        order_here(query, &token)
    }
}

fn cond_name(query: Query, token: Token) -> Move
    ensures { result ≡ goes_on query CondName token }
{
    match take_name(token) {
        None => Move::Stuck,
        Some(name) => Move::On(query, Place::CondOp(name)),
    }
}

fn cond_op(query: Query, name: Text, token: Token) -> Move
    ensures { result ≡ goes_on query (CondOp name) token }
{
    match op_in(&token) {
        None => Move::Stuck,
        Some(op) => Move::On(query, Place::CondValue(name, op)),
    }
}

fn cond_value(query: Query, name: Text, op: Op, token: Token) -> Result<Move, AllocError>
    ensures { IfOk result (λ moved. moved ≡ goes_on query (CondValue name op) token) }
{
    match take_const_for(op, token) {
        None => Ok(Move::Stuck),
        Some(value) => Ok(Move::On(push_cond(query, Cond { name, op, value })?, Place::CondEnd)),
    }
}

/// Whether the token is the selected name at this place.
fn is_selected(keys: &[Text], i: u64, token: Token) -> bool
    ensures { result ≡ is_key (slice_get keys.now i) (name_of_token token) }
{
    match take_name(token) {
        None => false,
        Some(name) => {
            if i < keys.len() as u64 {
                is_same_text(&keys[i as usize], &name)
            } else {
                false
            }
        }
    }
}

fn group_name(query: Query, i: u64, token: Token) -> Move
    ensures { result ≡ goes_on query (GroupName i) token }
{
    if is_selected(query.keys.as_slice(), i, token) {
        Move::On(query, Place::GroupEnd(i + 1))
    } else {
        Move::Stuck
    }
}

fn group_end(query: Query, i: u64, token: &Token) -> Move
    ensures { result ≡ goes_on query (GroupEnd i) token.now }
{
    if i < query.keys.as_slice().len() as u64 {
        on_when(is_the_comma(token), query, Place::GroupName(i))
    } else {
        order_here(query, token)
    }
}

fn order_agg(query: Query, token: Token) -> Move
    ensures { result ≡ goes_on query OrderAgg token }
{
    match kind_in(&token) {
        None => Move::Stuck,
        Some(kind) => on_when(
            any_is_kind(kind, query.aggs.as_slice()),
            query,
            Place::OrderOpening(kind),
        ),
    }
}

fn order_opening(query: Query, kind: AggWord, token: Token) -> Move
    ensures { result ≡ goes_on query (OrderOpening kind) token }
{
    on_when(opens(&token), query, Place::OrderInside(kind))
}

fn order_closing(query: Query, i: u64, token: Token) -> Move
    ensures { result ≡ goes_on query (OrderClosing i) token }
{
    if closes(&token) {
        Move::On(set_order(query, i), Place::Ordered)
    } else {
        Move::Stuck
    }
}

fn limit_number(query: Query, token: Token) -> Move
    ensures { result ≡ goes_on query LimitNumber token }
{
    match limit_in(&token) {
        None => Move::Stuck,
        Some(n) => Move::On(set_limit(query, n), Place::Last),
    }
}

/// The move that a token makes at its place.
pub fn step(query: Query, place: Place, token: Token) -> Result<Move, AllocError>
    ensures { IfOk result (λ moved. moved ≡ goes_on query place token) }
{
    match place {
        Place::Select => Ok(on_word(query, token, "SELECT", Place::Item)),
        Place::Item => item(query, token),
        Place::NameEnd => Ok(name_end(query, token)),
        Place::Opening(kind) => Ok(opening(query, kind, token)),
        Place::Inside(kind) => Ok(inside(query, kind, token)),
        Place::Closing(agg) => closing(query, agg, token),
        Place::AggEnd => Ok(agg_end(query, token)),
        Place::NextAgg => Ok(next_agg(query, token)),
        Place::Table => Ok(table(query, token)),
        Place::Where => Ok(on_word(query, token, "WHERE", Place::LowTime)),
        Place::LowTime => Ok(on_word(query, token, "time", Place::LowSign)),
        Place::LowSign => Ok(low_sign(query, token)),
        Place::LowBound => Ok(low_bound(query, token)),
        Place::And => Ok(on_word(query, token, "AND", Place::HighTime)),
        Place::HighTime => Ok(on_word(query, token, "time", Place::HighSign)),
        Place::HighSign => Ok(high_sign(query, token)),
        Place::HighBound => Ok(high_bound(query, token)),
        Place::CondEnd => Ok(cond_end(query, token)),
        Place::CondName => Ok(cond_name(query, token)),
        Place::CondOp(name) => Ok(cond_op(query, name, token)),
        Place::CondValue(name, op) => cond_value(query, name, op, token),
        Place::By => Ok(on_word(query, token, "BY", Place::GroupName(0))),
        Place::GroupName(i) => Ok(group_name(query, i, token)),
        Place::GroupEnd(i) => Ok(group_end(query, i, &token)),
        Place::OrderBy => Ok(on_word(query, token, "BY", Place::OrderAgg)),
        Place::OrderAgg => Ok(order_agg(query, token)),
        Place::OrderOpening(kind) => Ok(order_opening(query, kind, token)),
        Place::OrderInside(kind) => Ok(order_inside(query, kind, token)),
        Place::OrderClosing(i) => Ok(order_closing(query, i, token)),
        Place::Ordered => Ok(on_word(query, token, "LIMIT", Place::LimitNumber)),
        Place::LimitNumber => Ok(limit_number(query, token)),
        Place::Last => Ok(Move::Stuck),
    }
}
