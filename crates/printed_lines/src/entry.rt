// The line of an entry. Entries are most of what a script prints. So each is written into a buffer, from its end to its
// beginning, and appended at once.
ghost use Rattle.std.specs.Prelude.{◌≡◌, ◌+◌, ◌≤◌, ◌∷◌, ◌++◌, [], codes, decimal, length, drop, OnOk, OnErr};
ghost use Rattle.printed_lines.specs.Lines.{said_text};

use crate::line::Said;
use itoa::write_digits;
use std::alloc::AllocError;

/// The longest name that fits the buffer. No table's name is longer.
const LONGEST_NAME: usize = 64;

/// Room for a line: 85 bytes up to the end of such a name, and 76 after it.
const ROOM: usize = 176;

/// Appends the line of an entry of the table of this name. After an Err the bytes are as they were.
pub fn append_entry(
    out: &mut Vec<u8>,
    leaf: u32,
    name: &str,
    number: u64,
    said: Said,
) -> Result<(), AllocError>
    ensures put { OnOk result (out.new.items ≡ out.old.items
        ++ (decimal leaf ++ (32 ∷ (name.now
        ++ (codes " #" ++ (decimal number ++ (32 ∷ (said_text said ++ 10 ∷ [])))))))) }
    ensures unchanged { OnErr result (out.new.items ≡ out.old.items) }
{
    let mut buffer = [0u8; ROOM];
    let told = write_told(&mut buffer, number, said);
    if name.len() > LONGEST_NAME {
        return append_long(out, leaf, name, &buffer[told..]);
    }
    let start = write_place(&mut buffer, told, leaf, name.as_bytes());
    out.extend_from_slice(&buffer[start..])
}

// The same for a name that does not fit the buffer.
fn append_long(out: &mut Vec<u8>, leaf: u32, name: &str, told: &[u8]) -> Result<(), AllocError>
    ensures put { OnOk result (out.new.items ≡ out.old.items ++ (decimal leaf ++ (32 ∷ (name.now ++ told.now)))) }
    ensures unchanged { OnErr result (out.new.items ≡ out.old.items) }
{
    let place = format!(in *out.allocator(); "{leaf} {name}")?;
    let mut line = place.into_bytes();
    line.extend_from_slice(told)?;
    out.extend_from_slice(line.as_slice())
}

// The part of a line before the entry's number.
fn write_place(buffer: &mut [u8; ROOM], end: usize, leaf: u32, name: &[u8]) -> usize
    requires { (85 ≤ end) × (end ≤ 176) × (length name.now ≤ 64) }
    ensures written { drop result buffer.new ≡ decimal leaf ++ (32 ∷ (name.now ++ drop end buffer.old)) }
    ensures within { result ≤ 176 }
{
    let name_at = write_bytes(buffer, end, name);
    let space = write_bytes(buffer, name_at, b" ");
    write_number(buffer, space, leaf as u64)
}

// An entry's number, and what it says.
fn write_told(buffer: &mut [u8; ROOM], number: u64, said: Said) -> usize
    ensures written { drop result buffer.new ≡ codes " #" ++ (decimal number ++ (32 ∷ (said_text said ++ 10 ∷ []))) }
    ensures within { (result ≤ 176) × (85 ≤ result) }
{
    let end = write_bytes(buffer, ROOM, b"\n");
    let said_at = write_said(buffer, end, said);
    let space = write_bytes(buffer, said_at, b" ");
    let number_at = write_number(buffer, space, number);
    write_bytes(buffer, number_at, b" #")
}

// What an entry says.
fn write_said(buffer: &mut [u8; ROOM], end: usize, said: Said) -> usize
    requires { (52 ≤ end) × (end ≤ 176) }
    ensures written { drop result buffer.new ≡ said_text said ++ drop end buffer.old }
    ensures within { (result ≤ end) × (end ≤ result + 52) }
{
    match said {
        Said::Added { kept, late } => write_added(buffer, end, kept, late),
        Said::Removed(rows) => write_counted(buffer, end, b"removed ", rows),
        Said::Asked => write_bytes(buffer, end, b"asked"),
        Said::RefusedShut => write_bytes(buffer, end, b"refused shut"),
        Said::RefusedFull => write_bytes(buffer, end, b"refused full"),
        Said::RefusedMemory => write_bytes(buffer, end, b"refused memory"),
        Said::Opened(writes) => write_counted(buffer, end, b"opened ", writes),
        Said::Took(writes) => write_counted(buffer, end, b"took ", writes),
        Said::Flushed(writes) => write_counted(buffer, end, b"flushed ", writes),
        Said::Closed(writes) => write_counted(buffer, end, b"closed ", writes),
        Said::Handed => write_bytes(buffer, end, b"handed"),
    }
}

fn write_added(buffer: &mut [u8; ROOM], end: usize, kept: u64, late: u64) -> usize
    requires { (52 ≤ end) × (end ≤ 176) }
    ensures written { drop result buffer.new ≡ (codes "added " ++ (decimal kept ++ (codes " late " ++ decimal late)))
        ++ drop end buffer.old }
    ensures within { (result ≤ end) × (end ≤ result + 52) }
{
    let second = write_counted(buffer, end, b" late ", late);
    write_counted(buffer, second, b"added ", kept)
}

// Words and a count.
fn write_counted(buffer: &mut [u8; ROOM], end: usize, words: &[u8], count: u64) -> usize
    requires { (20 + length words.now ≤ end) × (end ≤ 176) }
    ensures written { drop result buffer.new ≡ (words.now ++ decimal count) ++ drop end buffer.old }
    ensures within { (result ≤ end) × (end ≤ result + (20 + length words.now)) }
{
    let digits = write_number(buffer, end, count);
    write_bytes(buffer, digits, words)
}

// Writes a number's digits so that they end at `end`, and returns where they begin.
fn write_number(buffer: &mut [u8; ROOM], end: usize, number: u64) -> usize
    requires { (20 ≤ end) × (end ≤ 176) }
    ensures written { drop result buffer.new ≡ decimal number ++ drop end buffer.old }
    ensures within { (result ≤ end) × (end ≤ result + 20) }
{
    write_digits(number, buffer, end)
}

// Writes bytes so that they end at `end`, and returns where they begin.
#[tactic(auto, using(crate::proofs::Backward::drop_placed))]
fn write_bytes(buffer: &mut [u8; ROOM], end: usize, bytes: &[u8]) -> usize
    requires { (length bytes.now ≤ end) × (end ≤ 176) }
    ensures written { drop result buffer.new ≡ bytes.now ++ drop end buffer.old }
    ensures start { result + length bytes.now ≡ end }
{
    let start = end - bytes.len();
    buffer[start..end].copy_from_slice(bytes);
    start
}
