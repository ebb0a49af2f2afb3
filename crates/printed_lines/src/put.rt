// Appends lines to what was printed before.
ghost use Rattle.std.specs.Prelude.{◌≡◌, ◌<◌, ◌∷◌, ◌++◌, [], codes, decimal, if◌then◌else◌, length, take, IfOk, OnOk, OnErr, string_bytes};
ghost use Rattle.std.specs.List.{flat_map, AllByRecursion};
ghost use Rattle.printed_lines.specs.Lines.{EndsOf, IsOf, row_line, deed_text, ending_text, line_text, lines_text, tailed_text, untold_word};

use crate::entry::append_entry;
use crate::line::{Deed, Ending, Line, WhyUntold};
use crate::parts::{deed_str, ending_string, name_of, untold_str};
use leaf_model::{Names, Text};
use std::alloc::{AllocError, Global};

/// Appends a line. `names` are those of the fleet's tables, in their order. After an Err the bytes are as they were.
pub fn put_line(out: &mut Vec<u8>, names: &Names, line: &Line) -> Result<(), AllocError>
    requires table_is_known { IsOf names.now line.now }
    ensures put { OnOk result (out.new.items ≡ out.old.items ++ line_text names.now line.now) }
    ensures unchanged { OnErr result (out.new.items ≡ out.old.items) }
{
    match line {
        Line::Entry {
            leaf,
            table,
            number,
            said,
        } => append_entry(out, *leaf, name_of(names, *table), *number, *said),
        Line::Worn { leaf, table } => append_worn(out, *leaf, name_of(names, *table)),
        Line::Answer {
            named,
            leaves,
            rows,
        } => append_answer(out, *named, *leaves, rows.as_slice()),
        Line::Tailed(leaf) => append_tailed(out, *leaf),
        Line::Declared(standing) => append_declared(out, *standing),
        Line::Told {
            standing,
            number,
            rows,
        } => append_told(out, *standing, *number, rows.as_slice()),
        Line::Untold { standing, why } => append_untold(out, *standing, *why),
        Line::Ended { deed, leaf, ending } => append_ended(out, names, *deed, *leaf, ending),
        Line::Lane(number) => append_lane(out, *number),
        Line::Wave { number, of, leaves } => append_wave(out, *number, *of, leaves.as_slice()),
        Line::Rolled { halted, waves, of } => append_rolled(out, *halted, *waves, *of),
        Line::Watch(line) => append_watch(out, line.as_bytes()),
    }
}

/// Appends lines, all of them or, after an Err, none.
pub fn put_lines(out: &mut Vec<u8>, names: &Names, lines: &[Line]) -> Result<(), AllocError>
    requires tables_are_known { AllByRecursion (IsOf names.now) lines.now }
    ensures put { OnOk result (out.new.items ≡ out.old.items ++ lines_text names.now lines.now) }
    ensures unchanged { OnErr result (out.new.items ≡ out.old.items) }
{
    let before = out.len();
    let put = put_some(out, names, lines);
    if put.is_err() {
        out.truncate(before);
    }
    put
}

// If memory runs out, a prefix of the lines may be appended.
#[tactic(auto, using(crate::proofs::Backward::still_front))]
fn put_some(out: &mut Vec<u8>, names: &Names, lines: &[Line]) -> Result<(), AllocError>
    requires { AllByRecursion (IsOf names.now) lines.now }
    ensures put { OnOk result (out.new.items ≡ out.old.items ++ lines_text names.now lines.now) }
    ensures behind { take (length out.old.items) out.new.items ≡ out.old.items }
{
    for line in lines {
        put_line(out, names, line)?;
    }
    Ok(())
}

fn append_worn(out: &mut Vec<u8>, leaf: u32, name: &str) -> Result<(), AllocError>
    ensures put { OnOk result (out.new.items ≡ out.old.items
        ++ (decimal leaf ++ (32 ∷ (name.now ++ (codes " refused worn" ++ 10 ∷ []))))) }
    ensures unchanged { OnErr result (out.new.items ≡ out.old.items) }
{
    let text = format!(in *out.allocator(); "{leaf} {name} refused worn\n")?;
    out.extend_from_slice(text.as_bytes())
}

fn append_answer(
    out: &mut Vec<u8>,
    named: u64,
    leaves: u32,
    rows: &[Text],
) -> Result<(), AllocError>
    ensures put { OnOk result (out.new.items ≡ out.old.items
        ++ ((codes "answer named "
        ++ (decimal named ++ (codes " of "
        ++ (decimal leaves ++ (codes " lines " ++ (decimal (length rows.now) ++ 10 ∷ []))))))
        ++ flat_map row_line rows.now)) }
    ensures unchanged { OnErr result (out.new.items ≡ out.old.items) }
{
    let mut answer = head_bytes(*out.allocator(), named, leaves, rows.len())?;
    put_rows(&mut answer, rows)?;
    out.extend_from_slice(answer.as_slice())
}

fn head_bytes(alloc: Global, named: u64, leaves: u32, count: usize) -> Result<Vec<u8>, AllocError>
    ensures { IfOk result (λ bytes. bytes.items ≡ codes "answer named "
        ++ (decimal named ++ (codes " of " ++ (decimal leaves ++ (codes " lines " ++ (decimal count ++ 10 ∷ [])))))) }
{
    let text = format!(in alloc; "answer named {named} of {leaves} lines {count}\n")?;
    Ok(text.into_bytes())
}

fn append_tailed(out: &mut Vec<u8>, leaf: Option<u32>) -> Result<(), AllocError>
    ensures put { OnOk result (out.new.items ≡ out.old.items ++ tailed_text leaf) }
    ensures unchanged { OnErr result (out.new.items ≡ out.old.items) }
{
    match leaf {
        Some(leaf) => append_sent(out, leaf),
        None => out.extend_from_slice(b"tail refused\n"),
    }
}

fn append_sent(out: &mut Vec<u8>, leaf: u32) -> Result<(), AllocError>
    ensures put { OnOk result (out.new.items ≡ out.old.items ++ codes "tail sent " ++ (decimal leaf ++ 10 ∷ [])) }
    ensures unchanged { OnErr result (out.new.items ≡ out.old.items) }
{
    let text = format!(in *out.allocator(); "tail sent {leaf}\n")?;
    out.extend_from_slice(text.as_bytes())
}

fn append_declared(out: &mut Vec<u8>, standing: u32) -> Result<(), AllocError>
    ensures put { OnOk result (out.new.items ≡ out.old.items ++ (codes "standing " ++ (decimal standing ++ 10 ∷ []))) }
    ensures unchanged { OnErr result (out.new.items ≡ out.old.items) }
{
    let text = format!(in *out.allocator(); "standing {standing}\n")?;
    out.extend_from_slice(text.as_bytes())
}

fn append_told(
    out: &mut Vec<u8>,
    standing: u32,
    number: u64,
    rows: &[Text],
) -> Result<(), AllocError>
    ensures put { OnOk result (out.new.items ≡ out.old.items
        ++ ((codes "standing " ++ (decimal standing
        ++ (codes " at #" ++ (decimal number ++ (codes " lines " ++ (decimal (length rows.now) ++ 10 ∷ []))))))
        ++ flat_map row_line rows.now)) }
    ensures unchanged { OnErr result (out.new.items ≡ out.old.items) }
{
    let mut told = told_bytes(*out.allocator(), standing, number, rows.len())?;
    put_rows(&mut told, rows)?;
    out.extend_from_slice(told.as_slice())
}

fn told_bytes(
    alloc: Global,
    standing: u32,
    number: u64,
    count: usize,
) -> Result<Vec<u8>, AllocError>
    ensures { IfOk result (λ bytes. bytes.items ≡ codes "standing "
        ++ (decimal standing ++ (codes " at #"
        ++ (decimal number ++ (codes " lines " ++ (decimal count ++ 10 ∷ [])))))) }
{
    let text = format!(in alloc; "standing {standing} at #{number} lines {count}\n")?;
    Ok(text.into_bytes())
}

fn append_untold(out: &mut Vec<u8>, standing: u32, why: WhyUntold) -> Result<(), AllocError>
    ensures put { OnOk result (out.new.items ≡ out.old.items
        ++ (codes "standing " ++ (decimal standing ++ (32 ∷ (untold_word why ++ 10 ∷ []))))) }
    ensures unchanged { OnErr result (out.new.items ≡ out.old.items) }
{
    let why = untold_str(why);
    let text = format!(in *out.allocator(); "standing {standing} {why}\n")?;
    out.extend_from_slice(text.as_bytes())
}

fn append_ended(
    out: &mut Vec<u8>,
    names: &Names,
    deed: Deed,
    leaf: u32,
    ending: &Ending,
) -> Result<(), AllocError>
    requires { EndsOf names.now ending.now }
    ensures put { OnOk result (out.new.items ≡ out.old.items
        ++ (deed_text deed ++ (32 ∷ (decimal leaf ++ (32 ∷ (ending_text names.now ending.now ++ 10 ∷ [])))))) }
    ensures unchanged { OnErr result (out.new.items ≡ out.old.items) }
{
    let alloc = *out.allocator();
    let deed = deed_str(deed);
    let ending = ending_string(alloc, names, ending)?;
    let text = format!(in alloc; "{deed} {leaf} {ending}\n")?;
    out.extend_from_slice(text.as_bytes())
}

fn append_lane(out: &mut Vec<u8>, number: u32) -> Result<(), AllocError>
    ensures put { OnOk result (out.new.items ≡ out.old.items ++ (codes "lane " ++ (decimal number ++ 10 ∷ []))) }
    ensures unchanged { OnErr result (out.new.items ≡ out.old.items) }
{
    let text = format!(in *out.allocator(); "lane {number}\n")?;
    out.extend_from_slice(text.as_bytes())
}

fn append_wave(out: &mut Vec<u8>, number: u32, of: u32, leaves: &[u32]) -> Result<(), AllocError>
    ensures put { OnOk result (out.new.items ≡ out.old.items ++ (codes "wave " ++ (decimal number ++ (codes " of "
        ++ (decimal of ++ (codes " leaves" ++ (flat_map (λ leaf. 32 ∷ decimal leaf) leaves.now ++ 10 ∷ []))))))) }
    ensures unchanged { OnErr result (out.new.items ≡ out.old.items) }
{
    let text = format!(in *out.allocator(); "wave {number} of {of} leaves")?;
    let mut line = text.into_bytes();
    put_leaves(&mut line, leaves)?;
    line.push(b'\n')?;
    out.extend_from_slice(line.as_slice())
}

fn put_leaves(out: &mut Vec<u8>, leaves: &[u32]) -> Result<(), AllocError>
    ensures { OnOk result (out.new.items ≡ out.old.items ++ flat_map (λ leaf. 32 ∷ decimal leaf) leaves.now) }
{
    for leaf in leaves {
        put_leaf(out, *leaf)?;
    }
    Ok(())
}

fn put_leaf(out: &mut Vec<u8>, leaf: u32) -> Result<(), AllocError>
    ensures { OnOk result (out.new.items ≡ out.old.items ++ (32 ∷ decimal leaf)) }
{
    let text = format!(in *out.allocator(); " {leaf}")?;
    out.extend_from_slice(text.as_bytes())
}

fn append_rolled(out: &mut Vec<u8>, halted: bool, waves: u32, of: u32) -> Result<(), AllocError>
    ensures put { OnOk result (out.new.items ≡ out.old.items
        ++ (codes "rollover " ++ ((if halted then codes "halted " else codes "done ")
        ++ (decimal waves ++ (codes " of " ++ (decimal of ++ 10 ∷ [])))))) }
    ensures unchanged { OnErr result (out.new.items ≡ out.old.items) }
{
    let word = rolled_word(halted);
    let text = format!(in *out.allocator(); "rollover {word}{waves} of {of}\n")?;
    out.extend_from_slice(text.as_bytes())
}

fn rolled_word(halted: bool) -> &'static str
    ensures { result.now ≡ (if halted then codes "halted " else codes "done ") }
{
    if halted { "halted " } else { "done " }
}

fn append_watch(out: &mut Vec<u8>, text: &[u8]) -> Result<(), AllocError>
    ensures put { OnOk result (out.new.items ≡ out.old.items ++ (codes "watch " ++ (text.now ++ 10 ∷ []))) }
    ensures unchanged { OnErr result (out.new.items ≡ out.old.items) }
{
    let line = watch_bytes(*out.allocator(), text)?;
    out.extend_from_slice(line.as_slice())
}

fn watch_bytes(alloc: Global, text: &[u8]) -> Result<Vec<u8>, AllocError>
    ensures { IfOk result (λ bytes. bytes.items ≡ codes "watch " ++ (text.now ++ 10 ∷ [])) }
{
    let mut bytes = Vec::new(alloc);
    bytes.extend_from_slice(b"watch ")?;
    bytes.extend_from_slice(text)?;
    bytes.push(b'\n')?;
    Ok(bytes)
}

fn put_rows(out: &mut Vec<u8>, rows: &[Text]) -> Result<(), AllocError>
    ensures { OnOk result (out.new.items ≡ out.old.items ++ flat_map row_line rows.now) }
{
    for row in rows {
        put_row(out, row.as_str())?;
    }
    Ok(())
}

fn put_row(out: &mut Vec<u8>, row: &str) -> Result<(), AllocError>
    ensures { OnOk result (out.new.items ≡ out.old.items ++ row_line row.now) }
{
    out.extend_from_slice(row.as_bytes())?;
    out.push(b'\n')?;
    Ok(())
}
