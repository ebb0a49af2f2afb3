// A small fleet that is driven through its waves.
ghost use Rattle.std.specs.Prelude.{◌≡◌, ⊤, refl};
ghost use Rattle.rollover_tests.specs.Leavers.{halting};

use rollover_driver::{Fleet, Rolled, drive};
use rollover_plan::waves;
use rollover_watch::{CountWatch, Drained, Line, RollEvent, Started, Watch, Wish};
use std::alloc::{AllocError, Global};
use std::test::*;

/// Drains each leaf but one, and finds the tables of each but one in memory.
#[derive(Drop)]
struct SmallFleet {
    faulty: u32,
}

impl Fleet for SmallFleet {
    ghost has = { λ fleet leaf. ⊤ };

    ghost stands = { λ first calls now. now ≡ first };

    fn drain(&mut self, leaf: u32) -> Drained {
        if leaf == self.faulty {
            Drained::Fault
        } else {
            Drained::Done
        }
    }

    fn start(&mut self, leaf: u32) -> Started {
        if leaf == self.faulty {
            Started::Disk
        } else {
            Started::Memory
        }
    }

    ghost stays = { λ fleet. refl };
}

/// Counts as a count watch does, and asks for a halt at each event.
#[derive(Drop)]
struct Halter {
    counts: CountWatch,
}

impl Watch for Halter {
    ghost held = { λ watch. halting (⟦<CountWatch as Watch>⟧.held watch.counts) };

    fn told(&mut self, event: &RollEvent) -> Wish {
        let _stay = self.counts.told(event);
        Wish::Halt
    }

    fn line(&self, out: &mut Line) {
        self.counts.line(out);
    }
}

/// Rolls two machines with two leaves each, in two waves.
#[tactic(auto, using(crate::proofs::Had::all_had))]
fn roll(alloc: Global, watches: &mut Vec<Box<dyn Watch>>) -> Result<Rolled, AllocError> {
    let waves = waves(alloc, 2, 2, 50)?;
    let mut fleet = SmallFleet { faulty: 1 };
    Ok(drive(&mut fleet, &waves, watches))
}

/// The first watch's line.
fn first_line(alloc: Global, watches: &[Box<dyn Watch>]) -> Result<Vec<u8>, AllocError> {
    let mut line = Line::new();
    if let Some(watch) = watches.first() {
        watch.line(&mut line);
    }
    let mut bytes = Vec::new(alloc);
    bytes.extend_from_slice(line.as_bytes())?;
    Ok(bytes)
}

#[test]
fn a_count_watch_is_told_every_leaf(rt: HostRuntime) -> Result<(), Fail> {
    let alloc = rt.alloc();
    let mut watches: Vec<Box<dyn Watch>> = Vec::new(alloc);
    watches.push(Box::new(alloc, CountWatch::new())?)?;
    let rolled = roll(alloc, &mut watches)?;
    assert_eq!(rt; rolled.waves, 2);
    assert_eq!(rt; rolled.halted, false);
    assert_eq!(rt;
        first_line(alloc, &watches)?.as_slice(),
        b"drained 3 adopted 3".as_slice()
    );
    Ok(())
}

#[test]
fn a_halt_in_the_first_wave_finishes_it(rt: HostRuntime) -> Result<(), Fail> {
    let alloc = rt.alloc();
    let mut watches: Vec<Box<dyn Watch>> = Vec::new(alloc);
    watches.push(Box::new(
        alloc,
        Halter {
            counts: CountWatch::new(),
        },
    )?)?;
    let rolled = roll(alloc, &mut watches)?;
    assert_eq!(rt; rolled.waves, 1);
    assert_eq!(rt; rolled.halted, true);
    assert_eq!(rt;
        first_line(alloc, &watches)?.as_slice(),
        b"drained 2 adopted 2".as_slice()
    );
    Ok(())
}
