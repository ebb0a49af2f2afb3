// The header of a column: kind, form, width, presence, the number of cells, and the offsets of the three parts.
ghost use Rattle.std.specs.Prelude.{◌≡◌, ◌+◌, ◌<◌, ◌≤◌, ◌==◌, ◌↔◌, IsTrue, IfSome, IfNone, length, slice_index};
ghost use Rattle.column_bytes.specs.declared.form.Form.{Form};
ghost use Rattle.column_bytes.specs.Column.{form_at, width_in, count_in, codes_from, extra_from, AreFields, AreOffsets, IsHeader};

use crate::form::Form;
use dictionaries::{u32_at, u64_at};

pub(crate) const HEADER_LEN: usize = 40;

#[derive(Clone, Copy)]
pub(crate) struct Header {
    pub form: Form,
    pub width: u8,
    pub all_there: bool,
    pub count: u32,
    pub codes_from: usize,
    pub extra_from: usize,
}

#[tactic(auto, unfolding(crate::specs::Column::form_at))]
fn form_of(kind: u8, form: u8) -> Option<Form>
    ensures { result ≡ form_at kind form }
{
    match (kind, form) {
        (1, 1) => Some(Form::Offset),
        (1, 2) => Some(Form::Delta),
        (2, 1) => Some(Form::Dictionary),
        (3, 1) => Some(Form::Sets),
        _ => None,
    }
}

fn are_fields(bytes: &[u8]) -> bool
    requires { 40 ≤ length bytes.now }
    ensures { IsTrue result ↔ AreFields bytes.now }
{
    let count = u32_at(bytes, 4);
    bytes[2] <= 64 && bytes[3] <= 1 && 0 < count && count <= 65536
}

fn are_offsets(bytes: &[u8]) -> bool
    requires { 40 ≤ length bytes.now }
    ensures { IsTrue result ↔ AreOffsets bytes.now }
{
    let codes = u64_at(bytes, 16);
    let extra = u64_at(bytes, 24);
    let whole = bytes.len() as u64;
    u64_at(bytes, 8) == 40
        && 40 <= codes
        && codes <= extra
        && extra <= whole
        && u64_at(bytes, 32) == whole
}

fn fields_of(bytes: &[u8], form: Form) -> Header
    requires long { 40 ≤ length bytes.now }
    requires offsets { AreOffsets bytes.now }
    ensures form { result.form ≡ form }
    ensures width { result.width ≡ width_in bytes.now }
    ensures all_there { result.all_there ≡ (slice_index bytes.now 3 == 0) }
    ensures count { result.count ≡ count_in bytes.now }
    ensures codes_from { result.codes_from ≡ codes_from bytes.now }
    ensures extra_from { result.extra_from ≡ extra_from bytes.now }
{
    Header {
        form,
        width: bytes[2],
        all_there: bytes[3] == 0,
        count: u32_at(bytes, 4),
        codes_from: u64_at(bytes, 16) as usize,
        extra_from: u64_at(bytes, 24) as usize,
    }
}

/// Reads the header of the bytes. None exactly if it breaks a rule of headers.
pub(crate) fn header_of(bytes: &[u8]) -> Option<Header>
    ensures header { IfSome result (λ header. IsHeader bytes.now header.form) }
    ensures only { IfNone result ((form : Form) → IsHeader bytes.now form → ⊥) }
    ensures width { IfSome result (λ header. header.width ≡ width_in bytes.now) }
    ensures all_there { IfSome result (λ header. header.all_there ≡ (slice_index bytes.now 3 == 0)) }
    ensures count { IfSome result (λ header. header.count ≡ count_in bytes.now) }
    ensures codes_from { IfSome result (λ header. header.codes_from ≡ codes_from bytes.now) }
    ensures extra_from { IfSome result (λ header. header.extra_from ≡ extra_from bytes.now) }
{
    if bytes.len() < HEADER_LEN || !are_fields(bytes) || !are_offsets(bytes) {
        return None;
    }
    match form_of(bytes[0], bytes[1]) {
        Some(form) => Some(fields_of(bytes, form)),
        None => None,
    }
}
