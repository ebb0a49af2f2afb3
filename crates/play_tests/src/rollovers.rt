// Rollovers, with what watches hear of them, and beside adds.
ghost use Rattle.std.specs.Prelude.{◌≡◌, if◌then◌else◌};
ghost use Rattle.rollover_watch.specs.declared.event.Wish.TheVariants.{Halt, Stay};
ghost use Rattle.play_tests.specs.Leavers.{halt_at, halting, leaving};

use crate::plays::{lines_heard, lines_of};
use berth_face::OpenGate;
use rollover_watch::{CountWatch, Line, RollEvent, Watch, Wish};
use std::alloc::{AllocError, Global};
use std::sync::atomic::{AtomicU64, Ordering};
use std::sync::{Arc, Wait};
use std::test::*;
use std::thread::Threads;

/// Counts as a count watch does, says how often it was told an event, and leaves at each.
#[derive(Drop)]
struct Leaver {
    counts: CountWatch,
    told: Arc<AtomicU64>,
}

impl Watch for Leaver {
    ghost held = { λ watch. leaving (⟦<CountWatch as Watch>⟧.held watch.counts) };

    fn told(&mut self, event: &RollEvent) -> Wish {
        let _stay = self.counts.told(event);
        self.told.fetch_add(1, Ordering::SeqCst);
        Wish::Leave
    }

    fn line(&self, out: &mut Line) {
        self.counts.line(out);
    }
}

#[test]
fn a_watch_that_leaves_is_told_one_event_and_shows_no_line(rt: HostRuntime) -> Result<(), Fail> {
    let alloc = rt.alloc();
    let script = "fleet 1 2 errors\nrollover 100";
    let mut alone: Vec<Box<dyn Watch>> = Vec::new(alloc);
    alone.push(Box::new(alloc, CountWatch::new())?)?;
    let wanted = lines_heard(&rt, alloc, script, 2, &OpenGate, &mut alone)?;
    assert!(rt;
        wanted
            .as_str()
            .ends_with("rollover done 2 of 2\nwatch drained 2 adopted 2\n")
    );
    let told = Arc::new(alloc, AtomicU64::new(0))?;
    let mut watches: Vec<Box<dyn Watch>> = Vec::new(alloc);
    watches.push(Box::new(
        alloc,
        Leaver {
            counts: CountWatch::new(),
            told: told.clone()?,
        },
    )?)?;
    watches.push(Box::new(alloc, CountWatch::new())?)?;
    let lines = lines_heard(&rt, alloc, script, 2, &OpenGate, &mut watches)?;
    assert_eq!(rt; lines.as_str(), wanted.as_str());
    assert_eq!(rt; watches.len(), 1);
    assert_eq!(rt; told.load(Ordering::SeqCst), 1);
    Ok(())
}

/// Asks for a halt at the beginning of a wave.
#[derive(Drop)]
struct Halter {
    at: u32,
    counts: CountWatch,
}

impl Watch for Halter {
    ghost held = { λ watch. halting watch.at (⟦<CountWatch as Watch>⟧.held watch.counts) };

    fn told(&mut self, event: &RollEvent) -> Wish {
        let _stay = self.counts.told(event);
        if is_wave(event, self.at) {
            Wish::Halt
        } else {
            Wish::Stay
        }
    }

    fn line(&self, out: &mut Line) {
        out.push_all(b"halt");
    }
}

/// Whether the wave with that number begins.
fn is_wave(event: &RollEvent, at: u32) -> bool
    ensures { halt_at at event.now ≡ (if result then Halt else Stay) }
{
    match event {
        RollEvent::Wave { number, of: _ } => *number == at,
        RollEvent::Drain { .. } | RollEvent::Start { .. } | RollEvent::Ended { .. } => false,
    }
}

/// The lines of a rollover in two waves with a watch that counts, and one that asks for a halt at the beginning of that
/// wave.
fn lines_halted<R: Wait + Threads + Sync>(
    rt: &R,
    alloc: Global,
    at: u32,
) -> Result<String, AllocError> {
    let mut watches: Vec<Box<dyn Watch>> = Vec::new(alloc);
    watches.push(Box::new(alloc, CountWatch::new())?)?;
    let counts = CountWatch::new();
    watches.push(Box::new(alloc, Halter { at, counts })?)?;
    let script = "fleet 1 2 errors\nrollover 100";
    lines_heard(rt, alloc, script, 2, &OpenGate, &mut watches)
}

#[test]
fn a_halt_lets_its_wave_finish(rt: HostRuntime) -> Result<(), Fail> {
    let first = lines_halted(&rt, rt.alloc(), 1)?;
    let second = lines_halted(&rt, rt.alloc(), 2)?;
    assert_eq!(rt;
        first.as_str(),
        "0 errors #1 opened 0\nstart 0 disk nohead\n1 errors #1 opened 0\nstart 1 disk nohead\nwave 1 of 2 leaves 0\n0 errors #2 closed 0\n0 errors #3 flushed 0\n0 errors #4 handed\ndrain 0 done\n0 errors #5 opened 0\nstart 0 memory\nrollover halted 1 of 2\nwatch drained 1 adopted 1\nwatch halt\n"
    );
    assert!(rt;
        second.as_str().ends_with("rollover done 2 of 2\nwatch drained 2 adopted 2\nwatch halt\n")
    );
    Ok(())
}

/// The number of lines with these words.
fn count_of(lines: &str, words: &str) -> usize {
    let mut count = 0usize;
    for line in lines.lines() {
        if line.contains(words) {
            count = count.saturating_add(1);
        }
    }
    count
}

#[test]
fn adds_beside_a_rollover_are_taken_or_refused(rt: HostRuntime) -> Result<(), Fail> {
    let script =
        "fleet 1 2 t\nburst\nlane\nrollover 100\nlane\nadd 0 t 1\n{\"time\":1}\nadd 0 t 1\n{\"time\":1}\nadd 0 t 1\n{\"time\":1}\nadd 0 t 1\n{\"time\":1}\nend\nquery SELECT COUNT(*) FROM t WHERE time >= 0 AND time <= 9";
    let lines = lines_of(&rt, rt.alloc(), script, 2, &OpenGate)?;
    let added = count_of(&lines, " added 1 late 0");
    let refused = count_of(&lines, " refused shut");
    assert_eq!(rt; added.saturating_add(refused), 4);
    let row = format!(in rt.alloc(); "answer named 2 of 2 lines 1\n{added}\n")?;
    let none = "answer named 2 of 2 lines 0\n";
    let wanted = if added == 0 { none } else { row.as_str() };
    assert!(rt; lines.as_str().ends_with(wanted));
    Ok(())
}
