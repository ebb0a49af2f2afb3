// Integers.
ghost use Rattle.std.specs.Prelude.{◌≡◌, ◌≤◌, ◌+◌, ◌*◌, ◌-◌, ◌^◌, ◌∷◌, length, nat_le, take_while, Some, None, if◌then◌else◌};
ghost use Rattle.std.specs.Char.{is_ascii_digit};
ghost use Rattle.query_text.specs.Tokens.{value_from, signed_value, number_token, minus_token};

use crate::quotes::stray_found;
use crate::tokens::{FoundToken, Token};

/// One past the greatest i64, and the magnitude of the least.
const LIMIT: u64 = 9_223_372_036_854_775_808;

/// Adds a digit. None if the value would pass 2^63.
fn add_digit(value: u64, b: u8) -> Option<u64>
    requires { value ≤ 2 ^ 63 }
    ensures { result ≡ if nat_le (value * 10 + (b - 48)) (2 ^ 63) then Some (value * 10 + (b - 48)) else None }
{
    let digit = u64::from(b.saturating_sub(b'0'));
    if value > (LIMIT - digit) / 10 {
        None
    } else {
        Some(value * 10 + digit)
    }
}

/// The value of digits that follow digits of the value `start`. None if it passes 2^63.
#[tactic(auto, using(crate::proofs::Lexing::value_grows))]
fn magnitude(start: u64, digits: &[u8]) -> Option<u64>
    requires { start ≤ 2 ^ 63 }
    ensures { result ≡ if nat_le (value_from start digits.now) (2 ^ 63)
        then Some (value_from start digits.now) else None }
{
    let mut value = start;
    for b in digits {
        match add_digit(value, *b) {
            None => return None,
            Some(n) => value = n,
        }
    }
    Some(value)
}

fn signed(is_minus: bool, n: u64) -> Option<i64>
    requires { n ≤ 2 ^ 63 }
    ensures { result ≡ signed_value is_minus n }
{
    if n == LIMIT {
        if is_minus { Some(i64::MIN) } else { None }
    } else if is_minus {
        Some(-(n as i64))
    } else {
        Some(n as i64)
    }
}

/// The integer of digits that follow digits of the value `start`. None if it is no i64.
fn number(is_minus: bool, start: u64, digits: &[u8]) -> Option<i64>
    requires { start ≤ 2 ^ 63 }
    ensures { result ≡ signed_value is_minus (value_from start digits.now) }
{
    match magnitude(start, digits) {
        None => None,
        Some(n) => signed(is_minus, n),
    }
}

/// The longest prefix of digits.
pub fn digits_part(rest: &[u8]) -> &[u8]
    ensures value { result.now ≡ take_while is_ascii_digit rest.now }
    ensures long { length result.now ≤ length rest.now }
{
    let mut i: usize = 0;
    while i < rest.len() && rest[i].is_ascii_digit() {
        i += 1;
    }
    &rest[..i]
}

/// The token of an integer that begins with the digit `first`.
pub fn number_found(first: u8, digits: &[u8]) -> FoundToken
    ensures { result ≡ number_token (first ∷ digits.now) digits.now }
{
    FoundToken {
        token: Token::Int(number(false, u64::from(first.saturating_sub(b'0')), digits)),
        more: digits.len(),
    }
}

/// The token of an integer after a `-`. A `-` without a digit is a stray byte.
pub fn minus_found(digits: &[u8]) -> FoundToken
    ensures { result ≡ minus_token digits.now }
{
    match digits {
        [] => stray_found(),
        [_, ..] => FoundToken {
            token: Token::Int(number(true, 0, digits)),
            more: digits.len(),
        },
    }
}
