// Two watches in a list, of which the first leaves at once.
ghost use Rattle.rollover_tests.specs.Leavers.{leaving};

use rollover_watch::{CountWatch, Drained, Line, RollEvent, Started, Watch, Wish, tell_all};
use std::alloc::{AllocError, Global};
use std::test::*;

/// Counts as a count watch does, and leaves at each event.
#[derive(Drop)]
struct Leaver {
    counts: CountWatch,
}

impl Watch for Leaver {
    ghost held = { λ watch. leaving (⟦<CountWatch as Watch>⟧.held watch.counts) };

    fn told(&mut self, event: &RollEvent) -> Wish {
        let _stay = self.counts.told(event);
        Wish::Leave
    }

    fn line(&self, out: &mut Line) {
        self.counts.line(out);
    }
}

/// Tells both watches a drain that was done, and the one that is left of two starts and a drain. Gives back how many
/// are left, and their lines.
fn lines_left(alloc: Global) -> Result<(usize, Vec<u8>), AllocError> {
    let mut watches: Vec<Box<dyn Watch>> = Vec::new(alloc);
    watches.push(Box::new(
        alloc,
        Leaver {
            counts: CountWatch::new(),
        },
    )?)?;
    watches.push(Box::new(alloc, CountWatch::new())?)?;
    let events = [
        RollEvent::Drain {
            leaf: 0,
            got: Drained::Done,
        },
        RollEvent::Start {
            leaf: 0,
            got: Started::Memory,
        },
        RollEvent::Drain {
            leaf: 1,
            got: Drained::Fault,
        },
        RollEvent::Start {
            leaf: 1,
            got: Started::Disk,
        },
        RollEvent::Drain {
            leaf: 2,
            got: Drained::Done,
        },
    ];
    for event in &events {
        let _halted = tell_all(&mut watches, event);
    }
    let mut lines = Vec::new(alloc);
    for watch in &watches {
        let mut line = Line::new();
        watch.line(&mut line);
        lines.extend_from_slice(line.as_bytes())?;
    }
    Ok((watches.len(), lines))
}

#[test]
fn a_watch_that_left_is_told_no_more(rt: HostRuntime) -> Result<(), Fail> {
    let (left, lines) = lines_left(rt.alloc())?;
    assert_eq!(rt; left, 1);
    assert_eq!(rt; lines.as_slice(), b"drained 2 adopted 1".as_slice());
    Ok(())
}
