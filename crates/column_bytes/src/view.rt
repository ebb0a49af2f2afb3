// Reads a column from borrowed bytes.
ghost use Rattle.std.specs.Prelude.{◌≡◌, ℕ, ◌+◌, ◌-◌, ◌*◌, ◌^◌, ◌<◌, ◌≤◌, ◌==◌, ◌↔◌, Bool, true, List, length, pos, ◌+ℤ◌, FitsSigned, ℤ, [], false, slice_index, slice_index_or, Option, IfOk, IsOk, IsTrue, IsSome, IfSome, Some, None, is_some, option_map, if◌then◌else◌, MatchOption, slice_range};
ghost use Rattle.std.specs.Int.{w64, div_ceil};
ghost use Rattle.bit_columns.specs.Bits.{code, codes};
ghost use Rattle.row_model.specs.declared.rows.Value.{Value};
ghost use Rattle.row_model.specs.declared.rows.Value.TheVariants.{Int};
ghost use Rattle.column_bytes.specs.declared.kind.Kind.TheVariants.{Ints};
ghost use Rattle.column_bytes.specs.declared.form.Form.{Form};
ghost use Rattle.column_bytes.specs.Cells.{Coded, coded_of, cells_of, cell_at, value_at, value_lent, kind_of_book, entries, entry_cells, has_entries, integer_cells, no_value, is_there, IsCode, IsExtra, AreCodes, book_of};
ghost use Rattle.column_bytes.specs.Next.{AreBitsOf, TellsFirst};
ghost use Rattle.column_bytes.specs.Column.{HasCells, IsColumn, IsPresence, coded_in, kind_in, presence_bits};

use crate::form::Form;
use crate::header::{HEADER_LEN, Header, header_of};
use crate::in_order::{fill_present, fill_values, offset_sum};
use crate::kind::Kind;
use crate::present::next_present;
use crate::set_ref::SetRef;
use crate::slots::{slot_at, slot_behind};
use crate::value::ValueRef;
use bit_columns::{Packed, PresenceBits};
use dictionaries::{i64_at, is_dictionary, is_set_dictionary, set_count, text_count, text_of};
use leaf_model::Steps;
use std::marker::Model;
use std::sync::ledger::Ledger;

/// The bytes mean no list of cells.
#[derive(Debug, Clone, Copy, PartialEq, Eq)]
pub struct NoColumn;

/// A column over borrowed bytes. Contracts see which cells are there, their codes, and what the codes stand for.
#[derive(Drop)]
pub struct ColumnView<'a> {
    form: Form,
    count: u32,
    presence: Option<PresenceBits<'a>>,
    presence_bytes: &'a [u8],
    packed: Packed<'a>,
    extra: &'a [u8],
}

impl<'a> Model for ColumnView<'a> {
    ghost use Rattle.column_bytes.specs.Cells.{Coded, coded_of};
    ghost use Rattle.column_bytes.specs.Held.{IsHeldColumn};

    ghost Value = { Coded };

    ghost view = { λ column. coded_of column.form column.count column.presence column.packed column.extra.now };

    ghost invariant = { λ column. IsHeldColumn column.form column.count column.presence column.presence_bytes.now
        column.packed column.extra.now };
}

// The base plus an offset. The reading of the column tested that this is an i64.
fn offset_value(base: i64, code: u64) -> i64
    requires { FitsSigned w64 (base +ℤ pos code) }
    ensures { result ≡ base +ℤ pos code }
{
    offset_sum(base, code)
}

fn presence_of(part: &[u8], all_there: bool, count: u32) -> Option<Option<PresenceBits<'_>>>
    ensures exact { IsSome result ↔ IsPresence (presence_bits all_there part.now count) part.now count }
    ensures view { IfSome result (λ presence. presence ≡ presence_bits all_there part.now count) }
    ensures bytes { IfSome result (λ presence. IfSome presence (AreBitsOf count part.now)) }
{
    if !all_there {
        return PresenceBits::view(part, count).map(Some);
    }
    if part.is_empty() { Some(None) } else { None }
}

fn is_extra(form: Form, extra: &[u8], count: u32) -> bool
    ensures { IsTrue result ↔ IsExtra form count extra.now }
{
    match form {
        Form::Offset => extra.len() == 8,
        Form::Delta => extra.len() == 8 * count.div_ceil(64) as usize,
        Form::Dictionary => is_dictionary(extra),
        Form::Sets => is_set_dictionary(extra),
    }
}

fn is_there(presence: &Option<PresenceBits>, i: u32) -> bool
    requires { IfSome presence.now (λ bits. i < bits.count) }
    ensures { result ≡ is_there presence.now i }
{
    match presence {
        None => true,
        Some(bits) => bits.get(i),
    }
}

// Whether a code stands for a value.
fn is_code(form: Form, extra: &[u8], count: u32, code: u64) -> bool
    requires { IsExtra form count extra.now }
    ensures { IsTrue result ↔ IsCode (book_of form count extra.now) code }
{
    match form {
        Form::Offset => i64_at(extra, 0).checked_add_unsigned(code).is_some(),
        Form::Delta => true,
        Form::Dictionary => code < u64::from(text_count(extra)),
        Form::Sets => code < u64::from(set_count(extra)),
    }
}

// Whether the code of each cell that is there stands for a value, tested one by one.
fn is_each_code(
    form: Form,
    count: u32,
    presence: &Option<PresenceBits>,
    packed: &Packed,
    extra: &[u8],
) -> bool
    requires few { count ≤ 65536 }
    requires presence { IfSome presence.now (λ bits. bits.count ≡ count) }
    requires codes { packed.now.count ≡ count }
    requires extra { IsExtra form count extra.now }
    ensures { IsTrue result ↔ AreCodes (coded_of form count presence.now packed.now extra.now) }
{
    for i in 0..count {
        if is_there(presence, i) && !is_code(form, extra, count, packed.get(i)) {
            return false;
        }
    }
    true
}

// The greatest code of `width` bits.
fn greatest_code(width: u8) -> u64
    requires { width ≤ 64 }
    ensures { result + 1 ≡ 2 ^ width }
{
    if width < 64 {
        (1 << width) - 1
    } else {
        u64::MAX
    }
}

// The greatest code that stands for a value, if 0 does.
fn last_code(form: Form, extra: &[u8], count: u32) -> u64
    requires extra { IsExtra form count extra.now }
    requires some { IsCode (book_of form count extra.now) 0 }
    ensures { IsCode (book_of form count extra.now) result }
{
    match form {
        Form::Offset => i64::MAX.abs_diff(i64_at(extra, 0)),
        Form::Delta => u64::MAX,
        Form::Dictionary => u64::from(text_count(extra)) - 1,
        Form::Sets => u64::from(set_count(extra)) - 1,
    }
}

// Whether each code stands for a value, also those of missing cells.
fn is_every_code(header: &Header, packed: &Packed, extra: &[u8]) -> bool
    requires width { header.now.width ≤ 64 }
    requires same { packed.now.width ≡ header.now.width }
    requires extra { IsExtra header.now.form header.now.count extra.now }
    ensures { IsTrue result → (i : ℕ) → i < packed.now.count
        → IsCode (book_of header.now.form header.now.count extra.now) (code packed.now.bytes packed.now.width i) }
{
    if !is_code(header.form, extra, header.count, 0) {
        return false;
    }
    let last = last_code(header.form, extra, header.count);
    greatest_code(header.width) <= last || packed.are_at_most(last)
}

// Whether the code of each cell that is there stands for a value. Cells are tested one by one only if some code stands
// for none.
fn are_codes(
    header: &Header,
    presence: &Option<PresenceBits>,
    packed: &Packed,
    extra: &[u8],
) -> bool
    requires few { header.now.count ≤ 65536 }
    requires width { header.now.width ≤ 64 }
    requires presence { IfSome presence.now (λ bits. bits.count ≡ header.now.count) }
    requires codes { packed.now.count ≡ header.now.count }
    requires same { packed.now.width ≡ header.now.width }
    requires extra { IsExtra header.now.form header.now.count extra.now }
    ensures { IsTrue result ↔ AreCodes (coded_of header.now.form header.now.count presence.now packed.now extra.now) }
{
    is_every_code(header, packed, extra)
        || is_each_code(header.form, header.count, presence, packed, extra)
}

fn value_in<'a>(form: Form, packed: &Packed, extra: &'a [u8], i: u32) -> ValueRef<'a>
    requires few { packed.now.count ≤ 65536 }
    requires inside { i < packed.now.count }
    requires extra { IsExtra form packed.now.count extra.now }
    requires code { IsCode (book_of form packed.now.count extra.now) (code packed.now.bytes packed.now.width i) }
    ensures { value_lent result ≡ value_at (book_of form packed.now.count extra.now)
        (codes packed.now.bytes packed.now.width packed.now.count) i }
{
    match form {
        Form::Offset => ValueRef::Int(offset_value(i64_at(extra, 0), packed.get(i))),
        Form::Delta => ValueRef::Int(slot_at(packed, extra, i)),
        Form::Dictionary => ValueRef::Text(text_of(extra, packed.get(i) as usize)),
        Form::Sets => ValueRef::Set(SetRef::of(extra, packed.get(i) as usize)),
    }
}

// The integer at place i of a column of integers, given the one before it, if there is one.
#[inline(always)]
fn integer_in(form: Form, packed: &Packed, extra: &[u8], i: u32, before: i64) -> i64
    requires few { packed.now.count ≤ 65536 }
    requires inside { i < packed.now.count }
    requires extra { IsExtra form packed.now.count extra.now }
    requires kind { kind_of_book (book_of form packed.now.count extra.now) ≡ Ints }
    requires code { IsCode (book_of form packed.now.count extra.now) (code packed.now.bytes packed.now.width i) }
    requires before { 0 < i → value_at (book_of form packed.now.count extra.now)
        (codes packed.now.bytes packed.now.width packed.now.count) (i - 1) ≡ Int before }
    ensures { value_at (book_of form packed.now.count extra.now)
        (codes packed.now.bytes packed.now.width packed.now.count) i ≡ Int result }
{
    let code = packed.get(i);
    match form {
        Form::Offset => offset_value(i64_at(extra, 0), code),
        Form::Delta => slot_behind(packed, extra, i, code, before),
        Form::Dictionary | Form::Sets => unreachable!(),
    }
}

// Reads the bytes as a column. None exactly if they are none.
pub(crate) fn view_of(bytes: &[u8]) -> Option<ColumnView<'_>>
    ensures column { IfSome result (λ view.
        (form : Form) × IsColumn bytes.now form × (view ≡ coded_in form bytes.now)) }
    ensures only { (form : Form) → IsColumn bytes.now form → IsSome result }
{
    let Some(header) = header_of(bytes) else {
        return None;
    };
    let presence_bytes = &bytes[HEADER_LEN..header.codes_from];
    let Some(presence) = presence_of(presence_bytes, header.all_there, header.count) else {
        return None;
    };
    let part = &bytes[header.codes_from..header.extra_from];
    let Some(packed) = Packed::view(part, header.count, header.width) else {
        return None;
    };
    let extra = &bytes[header.extra_from..];
    if !is_extra(header.form, extra, header.count)
        || !are_codes(&header, &presence, &packed, extra)
    {
        return None;
    }
    Some(ColumnView {
        form: header.form,
        count: header.count,
        presence,
        presence_bytes,
        packed,
        extra,
    })
}

impl<'a> ColumnView<'a> {
    /// Reads the bytes as a column, in one step. NoColumn exactly if they mean no list of cells.
    pub fn read<L: Ledger>(
        bytes: &'a [u8],
        steps: &mut Steps<L>,
    ) -> Result<ColumnView<'a>, NoColumn>
        ensures accepted { IfOk result (λ view. HasCells bytes.now (length view.codes) (cells_of view)) }
        ensures kind { IfOk result (λ view. kind_of_book view.book ≡ kind_in bytes.now) }
        ensures exact { (n : ℕ) (cells : List (Option Value)) → HasCells bytes.now n cells → IsOk result }
        ensures step { steps.new ≡ steps.old + 1 }
    {
        steps.tick();
        match view_of(bytes) {
            Some(view) => Ok(view),
            None => Err(NoColumn),
        }
    }

    /// The kind of the values.
    pub fn kind(&self) -> Kind
        ensures { result ≡ kind_of_book self.now.book }
    {
        match self.form {
            Form::Offset | Form::Delta => Kind::Ints,
            Form::Dictionary => Kind::Texts,
            Form::Sets => Kind::Sets,
        }
    }

    /// The number of cells, missing ones included: 1 to 65,536.
    pub fn len(&self) -> u32
        ensures len { result ≡ length self.now.codes }
        ensures some { 0 < result }
        ensures few { result ≤ 65536 }
    {
        self.count
    }

    /// The cell at place i. None if it is missing. The delta form adds up to 63 differences.
    pub fn cell(&self, i: u32) -> Option<ValueRef<'a>>
        requires { i < length self.now.codes }
        ensures { option_map value_lent result ≡ cell_at self.now i }
    {
        if is_there(&self.presence, i) {
            Some(value_in(self.form, &self.packed, self.extra, i))
        } else {
            None
        }
    }

    /// Whether the cell at place i is there. Its value is not read.
    pub fn has_cell(&self, i: u32) -> bool
        requires { i < length self.now.codes }
        ensures { result ≡ is_some (cell_at self.now i) }
    {
        is_there(&self.presence, i)
    }

    /// The first place from `from` on that has a cell. None if there is none. A zero byte of presence bits is skipped
    /// at once.
    pub fn next_cell(&self, from: u32) -> Option<u32>
        ensures { TellsFirst (λ i. is_some (cell_at self.now i)) from (length self.now.codes) result }
    {
        next_present(&self.presence, self.presence_bytes, from, self.count)
    }

    /// The integer at place i, given the one before it, if there is one. The delta form adds at most one difference, so
    /// a walk over all places takes one step for each.
    #[inline(always)]
    pub fn next_integer(&self, i: u32, before: i64) -> i64
        requires inside { i < length self.now.codes }
        requires integer { (n : ℤ) × (cell_at self.now i ≡ Some (Int n)) }
        requires before { 0 < i → cell_at self.now (i - 1) ≡ Some (Int before) }
        ensures { cell_at self.now i ≡ Some (Int result) }
    {
        integer_in(self.form, &self.packed, self.extra, i, before)
    }

    /// Decodes a column of integers in order: the codes, which cells are there, and their values. Each slice has a
    /// place for each cell. The value of a missing cell means nothing.
    pub fn integers(&self, codes: &mut [u64], present: &mut [bool], values: &mut [i64])
        requires kind { kind_of_book self.now.book ≡ Ints }
        requires codes { length codes.old ≡ length self.now.codes }
        requires present { length present.old ≡ length self.now.codes }
        requires values { length values.old ≡ length self.now.codes }
        ensures { cells_of self.now ≡ integer_cells present.new values.new }
    {
        self.packed.fill(codes);
        fill_present(&self.presence, present);
        fill_values(self.form, self.extra, codes, values);
    }

    /// Decodes a column of texts or sets in order: the codes, and which cells are there. Each slice has a place for
    /// each cell. The code of a missing cell means nothing.
    pub fn codes(&self, codes: &mut [u64], present: &mut [bool])
        requires kind { has_entries (kind_of_book self.now.book) ≡ true }
        requires codes { length codes.old ≡ length self.now.codes }
        requires present { length present.old ≡ length self.now.codes }
        ensures cells { cells_of self.now ≡ entry_cells (entries self.now.book) present.new codes.new }
        ensures below { (i : ℕ) → i < length self.now.codes
            → slice_index_or present.new i false ≡ true → slice_index codes.new i < length (entries self.now.book) }
    {
        self.packed.fill(codes);
        fill_present(&self.presence, present);
    }

    /// The number of texts or sets in the dictionary; 0 for a column of integers.
    pub fn entries(&self) -> u32
        ensures { result ≡ length (entries self.now.book) }
    {
        match self.form {
            Form::Offset | Form::Delta => 0,
            Form::Dictionary => text_count(self.extra),
            Form::Sets => set_count(self.extra),
        }
    }

    /// The text or set of a code.
    pub fn entry(&self, code: u32) -> ValueRef<'a>
        requires { code < length (entries self.now.book) }
        ensures { value_lent result ≡ slice_index_or (entries self.now.book) code no_value }
    {
        match self.form {
            Form::Offset | Form::Delta => unreachable!(),
            Form::Dictionary => ValueRef::Text(text_of(self.extra, code as usize)),
            Form::Sets => ValueRef::Set(SetRef::of(self.extra, code as usize)),
        }
    }
}
