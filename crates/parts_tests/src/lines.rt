// The lines that no run reaches: a seat that has seen 2^62 entries, a table with 2^40 rows or 2^63 writes, and want of
// memory.
ghost use Rattle.std.specs.Prelude.{◌≡◌, length, IfOk};

use leaf_model::{Names, Text};
use printed_lines::{Deed, Ending, Line, Said, put_lines};
use std::alloc::{AllocError, Global};
use std::test::Fail;

fn text(alloc: Global, letters: &str) -> Result<Text, AllocError> {
    Ok(Text::of(String::from_str(alloc, letters)?))
}

/// The tables of the fleet.
fn fleet(alloc: Global) -> Result<Names, AllocError>
    ensures { IfOk result (λ names. length names ≡ 2) }
{
    let mut names = Vec::new(alloc);
    names.push(text(alloc, "errors")?)?;
    names.push(text(alloc, "t")?)?;
    Ok(Names::of(names))
}

const LINES: &str =
    "7 t refused worn\n0 errors #6 refused full\n1 t #7 refused memory\nflush 0 worn\ndrain 0 fault room\ndrain 0 fault memory\nstart 0 fault memory\nstart 0 fault worn t\n";

#[test]
fn what_no_run_reaches_has_its_line(rt: HostRuntime) -> Result<(), Fail> {
    let alloc = rt.alloc();
    let names = fleet(alloc)?;
    let lines = [
        Line::Worn { leaf: 7, table: 1 },
        Line::Entry {
            leaf: 0,
            table: 0,
            number: 6,
            said: Said::RefusedFull,
        },
        Line::Entry {
            leaf: 1,
            table: 1,
            number: 7,
            said: Said::RefusedMemory,
        },
        Line::Ended {
            deed: Deed::Flush(1),
            leaf: 0,
            ending: Ending::Worn,
        },
        Line::Ended {
            deed: Deed::Drain(None),
            leaf: 0,
            ending: Ending::FaultRoom,
        },
        Line::Ended {
            deed: Deed::Drain(None),
            leaf: 0,
            ending: Ending::FaultMemory,
        },
        Line::Ended {
            deed: Deed::Start,
            leaf: 0,
            ending: Ending::FaultMemory,
        },
        Line::Ended {
            deed: Deed::Start,
            leaf: 0,
            ending: Ending::FaultWorn(1),
        },
    ];
    let mut out = Vec::new(alloc);
    put_lines(&mut out, &names, &lines)?;
    assert_eq!(rt; out.as_slice(), LINES.as_bytes());
    Ok(())
}
