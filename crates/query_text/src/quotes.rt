// Names and texts in quotes.
ghost use Rattle.std.specs.Prelude.{◌≡◌, ◌≤◌, ◌+◌, ◌∷◌, ℕ, List, IfOk, IfSome, Some, None, if◌then◌else◌, length, true, false};
ghost use Rattle.std.specs.Str.{is_utf8};
ghost use Rattle.query_text.specs.declared.tokens.Token.TheVariants as token;
ghost use Rattle.query_text.specs.Tokens.{quote_after, quote_view, quote_from, one_byte, quoted_token};

use crate::tokens::{FoundToken, Token};
use leaf_model::{MAX_NAME, MAX_TEXT, Text};
use std::alloc::{AllocError, Global};

/// The inside of a quote without the doubling, and the number of bytes that it takes up to and with its end.
#[derive(Drop)]
pub struct Quoted {
    pub inside: Vec<u8>,
    pub long: usize,
}

/// Adds one byte, which does not end the quote. Tells whether a mark was just read.
fn quote_byte(inside: &mut Vec<u8>, mark: u8, is_marked: bool, b: u8) -> Result<bool, AllocError>
    requires { is_marked ≡ true → b ≡ mark }
    ensures { IfOk result (λ is_marked_now. (n : ℕ) → (rest : List ℕ) → quote_after inside.old.items n
        (quote_from mark is_marked (b ∷ rest))
        ≡ quote_after inside.new.items (n + 1) (quote_from mark is_marked_now rest)) }
{
    if is_marked {
        inside.push(b)?;
        Ok(false)
    } else if b == mark {
        Ok(true)
    } else {
        inside.push(b)?;
        Ok(false)
    }
}

/// Reads what follows an opening mark. None if the quote is not closed.
fn quote(alloc: Global, mark: u8, rest: &[u8]) -> Result<Option<Quoted>, AllocError>
    ensures value { IfOk result (λ q. quote_view q ≡ quote_from mark false rest.now) }
    ensures long { IfOk result (λ q. IfSome q (λ r. r.long ≤ length rest.now)) }
{
    let mut inside: Vec<u8> = Vec::new(alloc);
    let mut is_marked = false;
    let mut i: usize = 0;
    while i < rest.len() {
        if is_marked && rest[i] != mark {
            return Ok(Some(Quoted { inside, long: i }));
        }
        is_marked = quote_byte(&mut inside, mark, is_marked, rest[i])?;
        i += 1;
    }
    if is_marked {
        Ok(Some(Quoted { inside, long: i }))
    } else {
        Ok(None)
    }
}

/// The token of a byte that begins no other.
pub fn stray_found() -> FoundToken
    ensures { result ≡ one_byte token.Stray }
{
    FoundToken {
        token: Token::Stray,
        more: 0,
    }
}

fn text_from(bytes: Vec<u8>) -> Option<Text>
    ensures { result ≡ if is_utf8 bytes.items then Some bytes.items else None }
{
    match String::from_utf8(bytes) {
        Ok(string) => {
            // its bytes are UTF-8, as the clauses of this call say
            let _text = string.as_str();
            Some(Text::of(string))
        }
        Err(_error) => None,
    }
}

fn name_found(quoted: Option<Quoted>) -> FoundToken
    ensures { result ≡ quoted_token token.Name 1 255 (quote_view quoted) }
{
    let Some(quoted) = quoted else {
        return stray_found();
    };
    if quoted.inside.is_empty() || quoted.inside.len() > MAX_NAME {
        return stray_found();
    }
    match text_from(quoted.inside) {
        None => stray_found(),
        Some(name) => FoundToken {
            token: Token::Name(name),
            more: quoted.long,
        },
    }
}

fn text_found(quoted: Option<Quoted>) -> FoundToken
    ensures { result ≡ quoted_token token.Text 0 65535 (quote_view quoted) }
{
    let Some(quoted) = quoted else {
        return stray_found();
    };
    if quoted.inside.len() > MAX_TEXT {
        return stray_found();
    }
    match text_from(quoted.inside) {
        None => stray_found(),
        Some(text) => FoundToken {
            token: Token::Text(text),
            more: quoted.long,
        },
    }
}

/// The token of a name in double quotes, after the first quote: 1 to 255 bytes of UTF-8; else a stray byte.
pub fn quoted_name(alloc: Global, rest: &[u8]) -> Result<FoundToken, AllocError>
    ensures value { IfOk result (λ found. found ≡ quoted_token token.Name 1 255 (quote_from 34 false rest.now)) }
    ensures long { IfOk result (λ found. found.more ≤ length rest.now) }
{
    Ok(name_found(quote(alloc, b'"', rest)?))
}

/// The token of a text in single quotes, after the first quote: at most 65,535 bytes of UTF-8; else a stray byte.
pub fn quoted_text(alloc: Global, rest: &[u8]) -> Result<FoundToken, AllocError>
    ensures value { IfOk result (λ found. found ≡ quoted_token token.Text 0 65535 (quote_from 39 false rest.now)) }
    ensures long { IfOk result (λ found. found.more ≤ length rest.now) }
{
    Ok(text_found(quote(alloc, b'\'', rest)?))
}
