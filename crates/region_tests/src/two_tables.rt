// Two tables with three columns each, one of them with a cut, are drained and come back as they were.
ghost use Rattle.std.specs.Prelude.{◌≡◌, [], None, IfOk, IfSome};
ghost use Rattle.region_layout.specs.Names.{AreNames};
ghost use Rattle.drain_copy.specs.declared.step.Next.TheVariants as next;

use crate::drains::{LOG_END, drain_two, two_names};
use crate::steps::{adopt_all, drain_all, lines_back};
use crate::tables::{added, cut, handed_over, line_of};
use adopt::{Adopt, Found, find};
use berth_mem::MemBerth;
use drain_copy::Drain;
use leaf_model::Names;
use std::alloc::{AllocError, Global};
use std::test::Fail;
use table_state::TableState;

/// Three rows of the times 5, 6 and 4, each with an integer `n`, and all but the second with a text `s`.
const THREE: &[u8] = b"\x05\0\0\0\0\0\0\0\x02\0\x01n\x01\x07\0\0\0\0\0\0\0\x01s\x02\x03\0one\
\x06\0\0\0\0\0\0\0\x01\0\x01n\x01\xff\xff\xff\xff\xff\xff\xff\xff\
\x04\0\0\0\0\0\0\0\x02\0\x01n\x01\0\0\0\0\x01\0\0\0\x01s\x02\x05\0three";

/// Two rows of the times 9 and 8 with an integer `a` and a text `b`.
const TWO: &[u8] = b"\x09\0\0\0\0\0\0\0\x02\0\x01a\x01\x02\0\0\0\0\0\0\0\x01b\x02\x01\0x\
\x08\0\0\0\0\0\0\0\x02\0\x01a\x01\x03\0\0\0\0\0\0\0\x01b\x02\x01\0y";

/// The table `p`: three rows, of which the last two stay.
fn first_table(alloc: Global) -> Result<TableState, AllocError>
    ensures pending { IfOk result (λ table. table.pending ≡ None) }
    ensures tail { IfOk result (λ table. table.store.tail ≡ []) }
{
    let mut table = added(alloc, THREE, 3)?;
    cut(&mut table, 2)?;
    Ok(table)
}

/// The table `q`: two rows.
fn second_table(alloc: Global) -> Result<TableState, AllocError>
    ensures pending { IfOk result (λ table. table.pending ≡ None) }
    ensures tail { IfOk result (λ table. table.store.tail ≡ []) }
{
    added(alloc, TWO, 2)
}

/// The lines of both tables.
fn lines_before(alloc: Global) -> Result<String, AllocError> {
    let mut lines = line_of(alloc, "p", &first_table(alloc)?)?;
    lines.push_str(line_of(alloc, "q", &second_table(alloc)?)?.as_str())?;
    Ok(lines)
}

/// The drain of both tables.
pub fn both_drained(alloc: Global) -> Result<Option<Drain>, AllocError>
    ensures { IfOk result (λ found. IfSome found (λ drain. drain.next ≡ next.Begin)) }
{
    let first = handed_over(alloc, "p", first_table(alloc)?)?;
    let second = handed_over(alloc, "q", second_table(alloc)?)?;
    drain_two(alloc, first, second)
}

/// The names of both tables.
pub fn both_names(alloc: Global) -> Result<Names, AllocError>
    ensures { IfOk result AreNames }
{
    two_names(alloc, "p", "q")
}

#[test]
fn region_and_heap_stay_below_the_image_in_a_drain(rt: HostRuntime) -> Result<(), Fail> {
    let alloc = rt.alloc();
    let drain = both_drained(alloc)?.expect(&rt, "a drain");
    let whole = drain.image_len();
    let mut berth = MemBerth::new(Vec::new(alloc), Vec::new(alloc));
    let seen = drain_all(alloc, drain, &mut berth)?;
    assert_eq!(rt; seen.len(), 9);
    for (_step, region, held, moments) in seen.as_slice() {
        assert!(rt;
            region.saturating_add(*held) <= whole,
            "behind moment {moments}"
        );
    }
    assert_eq!(rt; berth.region().len() as u64, whole);
    Ok(())
}

/// A berth into which both tables were drained.
pub fn drained_berth(alloc: Global) -> Result<MemBerth, AllocError> {
    let mut berth = MemBerth::new(Vec::new(alloc), Vec::new(alloc));
    if let Some(drain) = both_drained(alloc)? {
        drain_all(alloc, drain, &mut berth)?;
    }
    Ok(berth)
}

/// The adoption of both tables that a look finds ready. None if it finds something else.
fn both_ready(alloc: Global, berth: &mut MemBerth) -> Result<Option<Adopt>, AllocError> {
    let names = both_names(alloc)?;
    match find(alloc, berth, &names) {
        Ok(Found::Ready(adopt)) => Ok(Some(adopt)),
        _ => Ok(None),
    }
}

/// The lines of the tables that come back, if the log ends where it did.
fn lines_after(
    alloc: Global,
    adopt: Adopt,
    berth: &mut MemBerth,
    seen: &mut Vec<(u64, u64)>,
) -> Result<String, AllocError> {
    match adopt_all(alloc, adopt, berth, seen)? {
        Some((tables, LOG_END)) => lines_back(alloc, tables),
        _ => Ok(String::new(alloc)),
    }
}

#[test]
fn what_is_adopted_is_what_was_drained(rt: HostRuntime) -> Result<(), Fail> {
    let alloc = rt.alloc();
    let mut berth = drained_berth(alloc)?;
    let adopt = both_ready(alloc, &mut berth)?.expect(&rt, "an image");
    let whole = adopt.image_len();
    let mut seen = vec![in alloc; (berth.region().len() as u64, adopt.held())]?;
    let back = lines_after(alloc, adopt, &mut berth, &mut seen)?;
    assert_eq!(rt; back.as_str(), lines_before(alloc)?.as_str());
    assert_eq!(rt; seen.len(), 7);
    for (region, held) in seen.as_slice() {
        assert!(rt; region.saturating_add(*held) <= whole, "with {held}");
    }
    Ok(())
}
