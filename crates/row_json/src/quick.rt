// Reads the time of a row whose members all are valid as they come. No value is built.
ghost use Rattle.std.specs.Prelude.{◌≡◌, ◌<◌, ◌==◌, ℕ, ℤ, List, length, Some, None, Ok, Option, IfSome, slice_index, IsTrue, false, true};
ghost use Rattle.json.specs.Json.{members, value};
ghost use Rattle.json.specs.Reads.{token_of};
ghost use Rattle.serde_json.specs.Data.{Data, Num, Members, no_members, object, put};
ghost use Rattle.serde_json.specs.Find.{as_i64};
ghost use Rattle.serde_json.specs.Read.{converted, of_members, number_of, number_from, read};
ghost use Rattle.row_model.specs.declared.rows.Cell.{Cell};
ghost use Rattle.row_model.specs.Values.{time_name};
ghost use Rattle.row_json.specs.Row.{is_time, row_of};
ghost use Rattle.row_json.specs.Quick.{AreOfRow, HasNoFault, Knows, data_of, natural_of};

use crate::walk::plain_time;
use fast_float::Numeral;
use json::{Reader, Scratch, Token};
use row_model::{MAX_CELLS, MAX_NAME, MAX_TEXT};
use std::alloc::Global;

/// The memory that reading a text takes. It is used again for each text.
#[derive(Drop)]
pub struct RowRoom {
    pub(crate) scratch: Scratch,
    /// The number of cells of the row before. The next one is likely to have as many.
    pub(crate) cells: usize,
}

impl RowRoom {
    pub fn new(alloc: Global) -> RowRoom {
        RowRoom {
            scratch: Scratch::new(alloc),
            cells: 0,
        }
    }
}

fn from_zero(numeral: &Numeral<'_>) -> Option<i64>
    ensures { IfSome result (λ z. (num : Num) × (number_from false numeral.now ≡ Some num) × (as_i64 num ≡ Some z)) }
{
    let number = numeral.to_u64()?;
    if number <= i64::MAX as u64 {
        Some(number as i64)
    } else {
        None
    }
}

fn below_zero(numeral: &Numeral<'_>) -> Option<i64>
    ensures { IfSome result (λ z. (num : Num) × (number_from true numeral.now ≡ Some num) × (as_i64 num ≡ Some z)) }
{
    let number = numeral.to_i64(true)?;
    if number < 0 { Some(number) } else { None }
}

fn has_minus(bytes: &[u8]) -> bool
    ensures value { result ≡ (slice_index bytes.now 0 == 45) }
    ensures len { IsTrue result → 0 < length bytes.now }
{
    !bytes.is_empty() && bytes[0] == b'-'
}

/// The integer that the text of a number means. None if it is no i64.
pub(crate) fn integer(text: &str) -> Option<i64>
    ensures { IfSome result (λ z. (num : Num) × (number_of text.now ≡ Some num) × (as_i64 num ≡ Some z)) }
{
    let bytes = text.as_bytes();
    if has_minus(bytes) {
        below_zero(&Numeral::scan(&bytes[1..]))
    } else {
        from_zero(&Numeral::scan(bytes))
    }
}

/// The time that a token means. None if it means none.
pub(crate) fn time_in(token: Token<'_>) -> Option<i64>
    ensures { IfSome result (λ t. (d : Data) × (data_of (token_of token.entry) ≡ Some d) × (natural_of d ≡ Some t)) }
{
    match token {
        Token::Number(text) => {
            let time = integer(text)?;
            if time < 0 { None } else { Some(time) }
        }
        _ => None,
    }
}

/// Tests whether a cell of this name can hold the token's value, or the token is null.
fn cell_in(name: &str, token: Token<'_>) -> Option<()>
    requires { is_time name.now ≡ false }
    ensures { IfSome result (λ _. (d : Data) × (data_of (token_of token.entry) ≡ Some d) × HasNoFault name.now d) }
{
    if name.is_empty() || name.len() > MAX_NAME {
        return None;
    }
    match token {
        Token::Number(text) => {
            let _integer = integer(text)?;
            Some(())
        }
        Token::String(text) => {
            if text.len() > MAX_TEXT {
                None
            } else {
                Some(())
            }
        }
        Token::Null => Some(()),
        _ => None,
    }
}

/// The known time after one more member. None if that member is not valid.
fn with_member(time: Option<i64>, name: &str, token: Token<'_>) -> Option<Option<i64>>
    ensures { IfSome result (λ now. (d : Data) × (data_of (token_of token.entry) ≡ Some d)
        × HasNoFault name.now d × ((old : Members) → Knows time old → Knows now (put name.now d old))) }
{
    if name == "time" {
        let now = time_in(token)?;
        return Some(Some(now));
    }
    cell_in(name, token)?;
    Some(time)
}

/// Reads the members up to the closing brace, and gives their time. None unless each is valid and they are at most
/// 1,024.
fn members_time(reader: &mut Reader<'_>) -> Option<i64>
    ensures { IfSome result (λ time. (all : Members) × (converted (λ ms. of_members ms no_members)
        (members (value 126) (length reader.old) reader.old) ≡ Some (all, reader.new)) × AreOfRow time all) }
{
    let mut time = None;
    let mut count = 0usize;
    'members: while count < MAX_CELLS {
        let Ok(found) = reader.next_key() else {
            return None;
        };
        let Some(name) = found else {
            return time;
        };
        let token = reader.next()?;
        time = with_member(time, name, token)?;
        count += 1;
    }
    None
}

/// The time of the row that a JSON text means. None says nothing of the text.
fn text_time(text: &str, scratch: &mut Scratch) -> Option<i64>
    ensures { IfSome result (λ time. (all : Members) × (read text.now ≡ Some (object all)) × AreOfRow time all) }
{
    let Ok(mut reader) = Reader::new(text, scratch) else {
        return None;
    };
    let Some(Token::BeginObject) = reader.next() else {
        return None;
    };
    let time = members_time(&mut reader)?;
    if reader.next().is_some() {
        return None;
    }
    Some(time)
}

/// The same. It tries the plain form first, which most rows have.
fn utf8_time(text: &str, scratch: &mut Scratch) -> Option<i64>
    ensures { IfSome result (λ time. (all : Members) × (read text.now ≡ Some (object all)) × AreOfRow time all) }
{
    match plain_time(text.as_bytes()) {
        Some(time) => Some(time),
        None => text_time(text, scratch),
    }
}

/// The time of the row that a text means, if each member is valid as it comes. None says nothing of the text.
pub fn quick_time(room: &mut RowRoom, text: &[u8]) -> Option<i64>
    ensures { IfSome result (λ time.
        (cells : List Cell) × (row_of text.now ≡ Ok (record { time = time; cells = cells }))) }
{
    match simdutf8::basic::from_utf8(text) {
        Ok(text) => utf8_time(text, &mut room.scratch),
        Err(_) => None,
    }
}
