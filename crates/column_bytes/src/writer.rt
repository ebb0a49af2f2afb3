// Writes a column: the header, then the three parts.
ghost use Rattle.std.specs.Prelude.{◌≡◌, ◌+◌, ◌*◌, ◌<◌, ◌≤◌, ◌^◌, ◌++◌, [], length, map, List, Bool, true, IfOk, OnOk, Option, is_some, if◌then◌else◌};
ghost use Rattle.std.specs.Int.{div_ceil};
ghost use Rattle.byteorder.specs.Endian.{little_bytes};
ghost use Rattle.row_model.specs.declared.rows.Value.{Value};
ghost use Rattle.column_bytes.specs.Cells.{IsExtra, book_of, kind_of_book, there};
ghost use Rattle.column_bytes.specs.Column.{HasCells, IsPresence, kind_in, presence_bits};
ghost use Rattle.column_bytes.specs.Coding.{IsCoding, column_bytes, form_byte, front_bytes, header_bytes, kind_byte};

use crate::form::Form;
use crate::header::HEADER_LEN;
use bit_columns::{pack, pack_bits, width_of};
use byteorder::{ByteOrder, LittleEndian};
use leaf_model::LentValue;
use std::alloc::{AllocError, Global};

pub(crate) fn put_u32(out: &mut Vec<u8>, number: u32) -> Result<(), AllocError>
    ensures { OnOk result (out.new.items ≡ out.old.items ++ little_bytes 4 number) }
{
    let mut bytes = [0; 4];
    LittleEndian::write_u32(&mut bytes, number);
    out.extend_from_slice(&bytes)
}

pub(crate) fn put_u64(out: &mut Vec<u8>, number: u64) -> Result<(), AllocError>
    ensures { OnOk result (out.new.items ≡ out.old.items ++ little_bytes 8 number) }
{
    let mut bytes = [0; 8];
    LittleEndian::write_u64(&mut bytes, number);
    out.extend_from_slice(&bytes)
}

#[tactic(auto, unfolding(crate::specs::Coding::header_bytes))]
fn put_header(
    out: &mut Vec<u8>,
    front: &[u8],
    count: u32,
    codes_from: u64,
    extra_from: u64,
    whole: u64,
) -> Result<(), AllocError>
    requires { length out.old.items ≡ 0 }
    ensures { OnOk result (out.new.items ≡ header_bytes front.now count codes_from extra_from whole) }
{
    out.extend_from_slice(front)?;
    put_u32(out, count)?;
    put_u64(out, HEADER_LEN as u64)?;
    put_u64(out, codes_from)?;
    put_u64(out, extra_from)?;
    put_u64(out, whole)
}

#[tactic(auto, unfolding(crate::specs::Coding::column_bytes))]
fn join(
    alloc: Global,
    front: &[u8],
    count: u32,
    presence: &[u8],
    codes: &[u8],
    extra: &[u8],
) -> Result<Vec<u8>, AllocError>
    requires presence { length presence.now ≤ 2 ^ 40 }
    requires codes { length codes.now ≤ 2 ^ 40 }
    requires extra { length extra.now ≤ 2 ^ 40 }
    ensures { IfOk result (λ bytes. bytes.items ≡ column_bytes front.now count presence.now codes.now extra.now) }
{
    let codes_from = HEADER_LEN + presence.len();
    let extra_from = codes_from + codes.len();
    let whole = extra_from + extra.len();
    let mut out = Vec::with_capacity(alloc, whole)?;
    put_header(
        &mut out,
        front,
        count,
        codes_from as u64,
        extra_from as u64,
        whole as u64,
    )?;
    out.extend_from_slice(presence)?;
    out.extend_from_slice(codes)?;
    out.extend_from_slice(extra)?;
    Ok(out)
}

fn kind_byte(form: Form) -> u8
    ensures { result ≡ kind_byte form }
{
    match form {
        Form::Offset | Form::Delta => 1,
        Form::Dictionary => 2,
        Form::Sets => 3,
    }
}

fn form_byte(form: Form) -> u8
    ensures { result ≡ form_byte form }
{
    match form {
        Form::Offset | Form::Dictionary | Form::Sets => 1,
        Form::Delta => 2,
    }
}

// The first four bytes of the header: kind, form, width, and whether presence bits follow.
fn front_of(form: Form, width: u8, all_there: bool) -> [u8; 4]
    ensures { result ≡ front_bytes form width (if all_there then 0 else 1) }
{
    let marker = if all_there { 0 } else { 1 };
    [kind_byte(form), form_byte(form), width, marker]
}

fn are_all_there(present: &[bool]) -> bool
    ensures { result ≡ true → there (presence_bits true [] (length present.now)) (length present.now) ≡ present.now }
{
    for there in present {
        if !*there {
            return false;
        }
    }
    true
}

/// For each cell whether it is there.
pub(crate) fn present_in(
    alloc: Global,
    cells: &[Option<LentValue>],
) -> Result<Vec<bool>, AllocError>
    ensures { IfOk result (λ present. present.items ≡ map is_some cells.now) }
{
    cells.iter().map(|cell| cell.is_some()).collect(alloc)
}

/// The presence part of a column. It is empty if all cells are there.
#[derive(Drop)]
struct Presence {
    all_there: bool,
    bytes: Vec<u8>,
}

fn presence_of(alloc: Global, present: &[bool]) -> Result<Presence, AllocError>
    ensures part { IfOk result (λ made. IsPresence
        (presence_bits made.all_there made.bytes.items (length present.now)) made.bytes.items (length present.now)) }
    ensures there { IfOk result (λ made.
        there (presence_bits made.all_there made.bytes.items (length present.now)) (length present.now) ≡ present.now) }
{
    if are_all_there(present) {
        Ok(Presence {
            all_there: true,
            bytes: Vec::new(alloc),
        })
    } else {
        Ok(Presence {
            all_there: false,
            bytes: pack_bits(alloc, present)?,
        })
    }
}

/// The bytes of a column, given which cells are there, a code for each cell, and what the codes stand for.
pub(crate) fn write(
    alloc: Global,
    form: Form,
    present: &[bool],
    codes: &[u64],
    extra: &[u8],
) -> Result<Vec<u8>, AllocError>
    requires some { 0 < length present.now }
    requires few { length present.now ≤ 65536 }
    requires same { length codes.now ≡ length present.now }
    requires extra { IsExtra form (length present.now) extra.now }
    requires small { length extra.now ≤ 2 ^ 40 }
    ensures cells { (cells : List (Option Value))
        → map is_some cells ≡ present.now → IsCoding cells codes.now (book_of form (length present.now) extra.now)
        → IfOk result (λ bytes. HasCells bytes.items (length present.now) cells) }
    ensures kind { IfOk result (λ bytes. kind_in bytes.items
        ≡ kind_of_book (book_of form (length present.now) extra.now)) }
{
    let presence = presence_of(alloc, present)?;
    let width = width_of(codes);
    let packed = pack(alloc, codes, width)?;
    let front = front_of(form, width, presence.all_there);
    let count = codes.len() as u32;
    let bytes = join(alloc, &front, count, &presence.bytes, &packed, extra)?;
    Ok(bytes)
}
