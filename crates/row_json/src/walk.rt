// Reads the time of a row in plain form: no blanks, no escapes, and only texts, integers and nulls. It walks over the
// bytes once.
ghost use Rattle.std.specs.Prelude.{◌≡◌, ◌<◌, ◌≤◌, ◌++◌, ◌∷◌, [], ℕ, List, length, Some, Ok, IfSome, IsTrue, false, true, slice_index, ◌==◌};
ghost use Rattle.std.specs.List.{prefix_len};
ghost use Rattle.json.specs.Json.{members, value};
ghost use Rattle.json.specs.Lex.{fresh, token, between, lex};
ghost use Rattle.json.specs.Token.{string};
ghost use Rattle.json.specs.Run.{is_plain};
ghost use Rattle.serde_json.specs.Data.{Data, Num, Members, no_members, null, number, object, put};
ghost use Rattle.serde_json.specs.Data as held;
ghost use Rattle.serde_json.specs.Find.{as_i64};
ghost use Rattle.serde_json.specs.Read.{converted, of_members, read};
ghost use Rattle.row_model.specs.declared.rows.Cell.{Cell};
ghost use Rattle.row_json.specs.Row.{is_bad_name, is_time, row_of};
ghost use Rattle.row_json.specs.Quick.{AreOfRow, HasNoFault, Knows, natural_of};
ghost use Rattle.row_json.specs.Plain.{HasDigits, IsNatural, Reads, ReadsKey, is_ended, json_tokens_from};

use row_model::{MAX_CELLS, MAX_NAME, MAX_TEXT};

/// Digits are read while their number is below this: one more digit still gives an i64.
const MOST: u64 = 100_000_000_000_000_000;

/// The number of bytes at the start of a text that stand for themselves in a string.
fn plain_len(text: &[u8]) -> usize
    ensures value { result ≡ prefix_len is_plain text.now }
    ensures bound { result ≤ length text.now }
{
    let mut at = 0;
    'plain: while at < text.len() && text[at] != b'"' && text[at] != b'\\' && text[at] >= 0x20 {
        at += 1;
    }
    at
}

/// Reads a string without escapes at the start of the text. Gives its bytes and the text after it.
#[inline(always)]
fn quoted(text: &[u8]) -> Option<(&[u8], &[u8])>
    ensures { IfSome result (λ cut. lex between text.now ≡ token (string cut.0.now) ∷ lex between cut.1.now) }
{
    if text.is_empty() || text[0] != b'"' {
        return None;
    }
    let inside = &text[1..];
    let len = plain_len(inside);
    if len >= inside.len() || inside[len] != b'"' {
        return None;
    }
    Some((&inside[..len], &inside[len + 1..]))
}

/// Reads a member's name. Gives it and the text after its colon.
#[inline(always)]
fn name_at(text: &[u8]) -> Option<(&[u8], &[u8])>
    ensures { IfSome result (λ cut. ReadsKey text.now cut.0.now cut.1.now) }
{
    let (name, rest) = quoted(text)?;
    if rest.is_empty() || rest[0] != b':' {
        return None;
    }
    Some((name, &rest[1..]))
}

/// Whether the text begins with a comma or a closing brace, so that a value before it has ended.
#[inline(always)]
fn is_ended(text: &[u8]) -> bool
    ensures { result ≡ is_ended text.now }
{
    !text.is_empty() && (text[0] == b',' || text[0] == b'}')
}

/// Reads a text value. Gives it and the text after it.
#[inline(always)]
fn text_at(text: &[u8]) -> Option<(&[u8], &[u8])>
    ensures { IfSome result (λ cut. Reads text.now cut.1.now (held.string cut.0.now)) }
{
    let (inside, rest) = quoted(text)?;
    if !is_ended(rest) {
        return None;
    }
    Some((inside, rest))
}

/// Reads a null. Gives the text after it.
#[inline(always)]
fn null_at(text: &[u8]) -> Option<&[u8]>
    ensures { IfSome result (λ rest. Reads text.now rest.now null) }
{
    if text.len() < 4 || text[0] != b'n' || text[1] != b'u' || text[2] != b'l' || text[3] != b'l' {
        return None;
    }
    let rest = &text[4..];
    if !is_ended(rest) {
        return None;
    }
    Some(rest)
}

/// The number that the first digits write, and how many they are.
#[inline(always)]
fn digits(text: &[u8]) -> (u64, usize)
    ensures { HasDigits text.now result.0 result.1 }
{
    let mut number = 0u64;
    let mut at = 0;
    'digits: while at < text.len() && b'0' <= text[at] && text[at] <= b'9' && number < MOST {
        number = number * 10 + u64::from(text[at] - b'0');
        at += 1;
    }
    (number, at)
}

/// Reads a natural number. Gives it and the text after it.
#[inline(always)]
fn natural_at(text: &[u8]) -> Option<(u64, &[u8])>
    ensures ended { IfSome result (λ cut. is_ended cut.1.now ≡ true) }
    ensures is { IfSome result (λ cut. (ds : List ℕ) × (text.now ≡ ds ++ cut.1.now) × IsNatural ds cut.0) }
{
    let (number, len) = digits(text);
    if len == 0 || len > 1 && text[0] == b'0' {
        return None;
    }
    let rest = &text[len..];
    if !is_ended(rest) {
        return None;
    }
    Some((number, rest))
}

/// Reads an integer value. Gives it and the text after it.
#[inline(always)]
fn integer_at(text: &[u8]) -> Option<(i64, &[u8])>
    ensures { IfSome result (λ cut. (num : Num) × Reads text.now cut.1.now (number num) × (as_i64 num ≡ Some cut.0)) }
{
    if text.is_empty() || text[0] != b'-' {
        let (number, rest) = natural_at(text)?;
        return Some((number as i64, rest));
    }
    let (number, rest) = natural_at(&text[1..])?;
    if number == 0 {
        return None;
    }
    Some((-(number as i64), rest))
}

/// Reads a value that a cell of this name can hold, or a null. Gives the text after it.
#[inline(always)]
fn cell_at<'a>(name: &[u8], text: &'a [u8]) -> Option<&'a [u8]>
    requires other { is_time name.now ≡ false }
    requires good { is_bad_name name.now ≡ false }
    ensures { IfSome result (λ rest. (d : Data) × Reads text.now rest.now d × HasNoFault name.now d) }
{
    if text.is_empty() {
        return None;
    }
    if text[0] == b'"' {
        let (held, rest) = text_at(text)?;
        if held.len() > MAX_TEXT {
            return None;
        }
        return Some(rest);
    }
    if text[0] == b'n' {
        return null_at(text);
    }
    let (_, rest) = integer_at(text)?;
    Some(rest)
}

fn is_time(name: &[u8]) -> bool
    ensures { result ≡ is_time name.now }
{
    name == b"time".as_slice()
}

/// Reads the row's time. Gives it and the text after it.
#[inline(always)]
fn time_at(text: &[u8]) -> Option<(i64, &[u8])>
    ensures { IfSome result (λ cut. (d : Data) × Reads text.now cut.1.now d × (natural_of d ≡ Some cut.0)) }
{
    let (time, rest) = integer_at(text)?;
    if time < 0 {
        return None;
    }
    Some((time, rest))
}

/// Reads the value of the member of this name. Gives the known time after it, and the text that follows. None if the
/// value is not valid.
#[inline(always)]
fn member_at<'a>(time: Option<i64>, name: &[u8], text: &'a [u8]) -> Option<(Option<i64>, &'a [u8])>
    ensures { IfSome result (λ cut. (d : Data) × Reads text.now cut.1.now d
        × HasNoFault name.now d × ((old : Members) → Knows time old → Knows cut.0 (put name.now d old))) }
{
    if is_time(name) {
        let (now, rest) = time_at(text)?;
        return Some((Some(now), rest));
    }
    if name.is_empty() || name.len() > MAX_NAME {
        return None;
    }
    let rest = cell_at(name, text)?;
    Some((time, rest))
}

/// Reads the members up to the closing brace, which ends the text, and gives their time. None unless each is valid and
/// they are at most 1,024.
fn members_time(text: &[u8]) -> Option<i64>
    ensures { IfSome result (λ time. (all : Members) × (converted (λ ms. of_members ms no_members) (members (value 126)
        (length (json_tokens_from fresh text.now)) (json_tokens_from fresh text.now)) ≡ Some (all, []))
        × AreOfRow time all) }
{
    let mut rest = text;
    let mut time = None;
    let mut count = 0usize;
    'members: while count < MAX_CELLS {
        let (name, held) = name_at(rest)?;
        let (now, after) = member_at(time, name, held)?;
        if after.is_empty() {
            return None;
        }
        if after[0] != b',' {
            return if after.len() == 1 && after[0] == b'}' {
                now
            } else {
                None
            };
        }
        time = now;
        rest = &after[1..];
        count += 1;
    }
    None
}

/// The time of the row that a text in plain form means. None says nothing of the text.
pub(crate) fn plain_time(text: &[u8]) -> Option<i64>
    ensures { IfSome result (λ time. (all : Members) × (read text.now ≡ Some (object all)) × AreOfRow time all) }
{
    if text.is_empty() || text[0] != b'{' {
        return None;
    }
    members_time(&text[1..])
}
