// Two leaves that a query asks at once, and two lanes at once.
use crate::plays::lines_of;
use berth_face::Gate;
use std::sync::atomic::{AtomicU64, Ordering};
use std::test::*;
use std::thread::yield_now;

/// The number of looks for the other caller before a caller gives up: some seconds.
const LOOKS: u64 = 4_000_000;

/// A gate that holds a caller inside a turn of leaf 0 until another is inside one of leaf 1, and the other way round.
/// It lets the first turn of each pass, which is that of its start.
#[derive(Drop)]
struct BothInside {
    turns: [AtomicU64; 2],
    alone: AtomicU64,
}

impl BothInside {
    fn new() -> BothInside {
        BothInside {
            turns: [AtomicU64::new(0), AtomicU64::new(0)],
            alone: AtomicU64::new(0),
        }
    }

    /// Whether some caller gave up.
    fn was_alone(&self) -> bool {
        self.alone.load(Ordering::SeqCst) != 0
    }

    fn hold(&self, here: &AtomicU64, there: &AtomicU64) {
        if here.fetch_add(1, Ordering::SeqCst) != 1 {
            return;
        }
        for _ in 0..LOOKS {
            if there.load(Ordering::SeqCst) > 1 {
                return;
            }
            yield_now();
        }
        self.alone.store(1, Ordering::SeqCst);
    }
}

impl Gate for BothInside {
    fn pass(&self, _lane: u32, _step: u32) {}

    fn within(&self, leaf: u32, _table: u32) {
        match leaf {
            0 => self.hold(&self.turns[0], &self.turns[1]),
            1 => self.hold(&self.turns[1], &self.turns[0]),
            _ => {}
        }
    }
}

#[test]
fn a_query_is_inside_the_turns_of_two_leaves_at_once(rt: HostRuntime) -> Result<(), Fail> {
    let gate = BothInside::new();
    let script = "fleet 1 2 t\nquery SELECT COUNT(*) FROM t WHERE time >= 0 AND time <= 9";
    let lines = lines_of(&rt, rt.alloc(), script, 2, &gate)?;
    assert_eq!(rt;
        lines.as_str(),
        "0 t #1 opened 0\nstart 0 disk nohead\n1 t #1 opened 0\nstart 1 disk nohead\n0 t #2 asked\n1 t #2 asked\nanswer named 2 of 2 lines 0\n"
    );
    assert!(rt; !gate.was_alone());
    Ok(())
}

#[test]
fn two_lanes_are_inside_the_turns_of_two_leaves_at_once(rt: HostRuntime) -> Result<(), Fail> {
    let gate = BothInside::new();
    let script =
        "fleet 1 2 t\nburst\nlane\nadd 0 t 1\n{\"time\":1}\nlane\nadd 1 t 1\n{\"time\":2}\nend";
    let lines = lines_of(&rt, rt.alloc(), script, 2, &gate)?;
    assert_eq!(rt;
        lines.as_str(),
        "0 t #1 opened 0\nstart 0 disk nohead\n1 t #1 opened 0\nstart 1 disk nohead\nlane 0\n0 t #2 added 1 late 0\nlane 1\n1 t #2 added 1 late 0\n"
    );
    assert!(rt; !gate.was_alone());
    Ok(())
}
