// What a token may stand for.
ghost use Rattle.std.specs.Prelude.{◌≡◌};
ghost use Rattle.query_text.specs.declared.tokens.Token.TheVariants.{Word, Open, Close, Star, Comma};
ghost use Rattle.query_text.specs.Roles.{is_keyword, is_word, name_of_token, agg_word_of, table_of_token, is_mark, is_int, op_of, int_of, is_has, text_of_token, const_of, const_for, limit_from};

use crate::places::AggWord;
use crate::tokens::Token;
use leaf_model::{MAX_NAME, Op, Text, Value, is_table_name};

/// The greatest limit.
const MAX_LIMIT: i64 = 100_000;

/// Whether the word is reserved, so that no plain name may be it.
pub fn is_reserved(word: &str) -> bool
    ensures { result ≡ is_keyword word.now }
{
    matches!(
        word,
        "HAS"
            | "SELECT"
            | "FROM"
            | "WHERE"
            | "AND"
            | "GROUP"
            | "BY"
            | "ORDER"
            | "LIMIT"
            | "COUNT"
            | "SUM"
            | "MIN"
            | "MAX"
            | "AVG"
    )
}

/// Whether the token is this word, without quotes.
pub fn is_the_word(token: &Token, word: &str) -> bool
    ensures { result ≡ is_word word.now token.now }
{
    match token {
        Token::Word(w) => w.as_str() == word,
        _ => false,
    }
}

/// The name that a token gives: a word of at most 255 bytes that is no keyword, or a quoted name.
pub fn take_name(token: Token) -> Option<Text>
    ensures { result ≡ name_of_token token }
{
    match token {
        Token::Word(word) => {
            if is_reserved(word.as_str()) || word.as_str().len() > MAX_NAME {
                None
            } else {
                Some(word)
            }
        }
        Token::Name(name) => Some(name),
        _ => None,
    }
}

fn kind_named(word: &str) -> Option<AggWord>
    ensures { result ≡ agg_word_of (Word word.now) }
{
    match word {
        "COUNT" => Some(AggWord::Count),
        "SUM" => Some(AggWord::Sum),
        "MIN" => Some(AggWord::Min),
        "MAX" => Some(AggWord::Max),
        "AVG" => Some(AggWord::Avg),
        _ => None,
    }
}

/// The kind of aggregate that the token begins.
pub fn kind_in(token: &Token) -> Option<AggWord>
    ensures { result ≡ agg_word_of token.now }
{
    match token {
        Token::Word(word) => kind_named(word.as_str()),
        _ => None,
    }
}

/// The table that a token names: a word that may be a table's name.
pub fn take_table(token: Token) -> Option<Text>
    ensures { result ≡ table_of_token token }
{
    match token {
        Token::Word(word) => {
            if is_table_name(word.as_str().as_bytes()) {
                Some(word)
            } else {
                None
            }
        }
        _ => None,
    }
}

pub fn opens(token: &Token) -> bool
    ensures { result ≡ is_mark Open token.now }
{
    matches!(token, Token::Open)
}

pub fn closes(token: &Token) -> bool
    ensures { result ≡ is_mark Close token.now }
{
    matches!(token, Token::Close)
}

pub fn stars(token: &Token) -> bool
    ensures { result ≡ is_mark Star token.now }
{
    matches!(token, Token::Star)
}

pub fn is_the_comma(token: &Token) -> bool
    ensures { result ≡ is_mark Comma token.now }
{
    matches!(token, Token::Comma)
}

pub fn is_number(token: &Token) -> bool
    ensures { result ≡ is_int token.now }
{
    matches!(token, Token::Int(_))
}

pub fn op_in(token: &Token) -> Option<Op>
    ensures { result ≡ op_of token.now }
{
    match token {
        Token::Compare(op) => Some(*op),
        _ => None,
    }
}

/// The integer of a token, if it is an i64.
pub fn number_in(token: &Token) -> Option<i64>
    ensures { result ≡ int_of token.now }
{
    match token {
        Token::Int(number) => *number,
        _ => None,
    }
}

/// An integer or a text.
fn take_const(token: Token) -> Option<Value>
    ensures { result ≡ const_of token }
{
    match token {
        Token::Text(text) => Some(Value::Text(text)),
        Token::Int(Some(number)) => Some(Value::Int(number)),
        _ => None,
    }
}

/// A text.
fn take_text(token: Token) -> Option<Value>
    ensures { result ≡ text_of_token token }
{
    match token {
        Token::Text(text) => Some(Value::Text(text)),
        _ => None,
    }
}

pub fn is_has(op: Op) -> bool
    ensures { result ≡ is_has op }
{
    match op {
        Op::Has => true,
        Op::Eq | Op::Ne | Op::Lt | Op::Le | Op::Gt | Op::Ge => false,
    }
}

/// The constant of a comparison: HAS takes a text, and every other operator an integer or a text.
pub fn take_const_for(op: Op, token: Token) -> Option<Value>
    ensures { result ≡ const_for op token }
{
    if is_has(op) {
        take_text(token)
    } else {
        take_const(token)
    }
}

/// The limit that a token gives: 0 to 100,000.
pub fn limit_in(token: &Token) -> Option<u32>
    ensures { result ≡ limit_from (int_of token.now) }
{
    match number_in(token) {
        None => None,
        Some(n) => {
            if 0 <= n && n <= MAX_LIMIT {
                Some(n as u32)
            } else {
                None
            }
        }
    }
}
