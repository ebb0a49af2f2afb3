// The scanner, which gives one token at a time.
ghost use Rattle.std.specs.Prelude.{◌≡◌, ◌≤◌, ◌<◌, ◌∷◌, IfOk, IsUtf8, length, drop, get_or, take_while, false};
ghost use Rattle.query_text.specs.Tokens.{is_blank_byte, goes_on_word, begins_word, pair_token, mark_token, token_with, tokens_from, word_token};

use crate::numbers::{digits_part, minus_found, number_found};
use crate::quotes::{quoted_name, quoted_text, stray_found};
use crate::tokens::{FoundToken, Token};
use leaf_model::{Op, Text};
use std::alloc::{AllocError, Global};

fn is_space(b: u8) -> bool
    ensures { result ≡ is_blank_byte b }
{
    b == b' ' || b == b'\t'
}

pub fn starts_word(b: u8) -> bool
    ensures { result ≡ begins_word b }
{
    b.is_ascii_alphabetic() || b == b'_'
}

pub fn stays_word(b: u8) -> bool
    ensures { result ≡ goes_on_word b }
{
    starts_word(b) || b.is_ascii_digit()
}

fn word_part(rest: &[u8]) -> &[u8]
    ensures value { result.now ≡ take_while goes_on_word rest.now }
    ensures long { length result.now ≤ length rest.now }
{
    let mut i: usize = 0;
    while i < rest.len() && stays_word(rest[i]) {
        i += 1;
    }
    &rest[..i]
}

fn text_of_utf8(bytes: Vec<u8>) -> Text
    requires { IsUtf8 bytes.items }
    ensures { result ≡ bytes.items }
{
    match String::from_utf8(bytes) {
        Ok(string) => Text::of(string),
        Err(_error) => unreachable!(),
    }
}

/// The word HAS compares.
fn word_token(word: Text) -> Token
    ensures { result ≡ word_token word }
{
    if word.as_str() == "HAS" {
        Token::Compare(Op::Has)
    } else {
        Token::Word(word)
    }
}

fn word_found(alloc: Global, first: u8, part: &[u8]) -> Result<FoundToken, AllocError>
    requires { IsUtf8 (first ∷ part.now) }
    ensures { IfOk result (λ found. found ≡ record { token = word_token (first ∷ part.now); more = length part.now }) }
{
    let mut word: Vec<u8> = Vec::new(alloc);
    word.push(first)?;
    word.extend_from_slice(part)?;
    Ok(FoundToken {
        token: word_token(text_of_utf8(word)),
        more: part.len(),
    })
}

fn mark(token: Token) -> FoundToken
    ensures { result ≡ record { token = token; more = 0 } }
{
    FoundToken { token, more: 0 }
}

/// The token of one mark, or of two if the second is `=`.
fn pair_found(alone: Token, both: Token, rest: &[u8]) -> FoundToken
    ensures value { result ≡ pair_token alone both rest.now }
    ensures long { result.more ≤ length rest.now }
{
    match rest {
        [] => mark(alone),
        [b, ..] => {
            if *b == b'=' {
                FoundToken {
                    token: both,
                    more: 1,
                }
            } else {
                mark(alone)
            }
        }
    }
}

fn mark_found(b: u8, rest: &[u8]) -> FoundToken
    ensures value { result ≡ mark_token b rest.now }
    ensures long { result.more ≤ length rest.now }
{
    if b == b',' {
        mark(Token::Comma)
    } else if b == b'(' {
        mark(Token::Open)
    } else if b == b')' {
        mark(Token::Close)
    } else if b == b'*' {
        mark(Token::Star)
    } else if b == b'=' {
        mark(Token::Compare(Op::Eq))
    } else if b == b'!' {
        pair_found(Token::Stray, Token::Compare(Op::Ne), rest)
    } else if b == b'<' {
        pair_found(Token::Compare(Op::Lt), Token::Compare(Op::Le), rest)
    } else if b == b'>' {
        pair_found(Token::Compare(Op::Gt), Token::Compare(Op::Ge), rest)
    } else {
        stray_found()
    }
}

/// The longest token that begins with a byte. It takes memory for that token alone.
pub fn token_at(alloc: Global, first: u8, rest: &[u8]) -> Result<FoundToken, AllocError>
    ensures value { IfOk result (λ found. found ≡ token_with first rest.now) }
    ensures long { IfOk result (λ found. found.more ≤ length rest.now) }
{
    if starts_word(first) {
        word_found(alloc, first, word_part(rest))
    } else if first.is_ascii_digit() {
        Ok(number_found(first, digits_part(rest)))
    } else if first == b'-' {
        Ok(minus_found(digits_part(rest)))
    } else if first == b'"' {
        quoted_name(alloc, rest)
    } else if first == b'\'' {
        quoted_text(alloc, rest)
    } else {
        Ok(mark_found(first, rest))
    }
}

/// The place of the next byte that is no blank, or the text's length.
pub fn next_solid(text: &[u8], from: usize) -> usize
    requires { from ≤ length text.now }
    ensures same { tokens_from 0 from (drop from text.now) ≡ tokens_from 0 result (drop result text.now) }
    ensures within { result ≤ length text.now }
    ensures on { from ≤ result }
    ensures solid { result < length text.now → is_blank_byte (get_or text.now result 0) ≡ false }
{
    let mut at = from;
    while at < text.len() && is_space(text[at]) {
        at += 1;
    }
    at
}
