// The events of a rollover, and what a watch may wish.
ghost use Rattle.std.specs.Prelude.{◌≡◌, ℕ};
ghost use Rattle.rollover_watch.specs.declared.event.RollEvent.TheVariants as event;
ghost use Rattle.rollover_watch.specs.Watches.{is_drained, is_adopted};

/// How the drain of a leaf ended.
#[derive(Clone, Copy, PartialEq, Eq)]
pub enum Drained {
    Done,
    Fault,
    NoMemory,
    NotUp,
}

impl Drained {
    pub fn is_done(self) -> bool
        ensures { (leaf : ℕ) → result ≡ is_drained (event.Drain leaf self) }
    {
        matches!(self, Drained::Done)
    }
}

/// How the start of a leaf ended: with the tables from its region, or from its disk, or not at all.
#[derive(Clone, Copy, PartialEq, Eq)]
pub enum Started {
    Memory,
    Disk,
    Fault,
    NoMemory,
    NotDown,
}

impl Started {
    pub fn is_memory(self) -> bool
        ensures { (leaf : ℕ) → result ≡ is_adopted (event.Start leaf self) }
    {
        matches!(self, Started::Memory)
    }
}

/// An event of a rollover. Waves are numbered from 1. The last event tells how many waves were begun, and whether one
/// was left out.
#[derive(Clone, Copy, PartialEq, Eq)]
pub enum RollEvent {
    Wave { number: u32, of: u32 },
    Drain { leaf: u32, got: Drained },
    Start { leaf: u32, got: Started },
    Ended { waves: u32, halted: bool },
}

impl RollEvent {
    /// Whether it is a drain that ended well.
    pub fn is_drained(&self) -> bool
        ensures { result ≡ is_drained self.now }
    {
        match self {
            RollEvent::Wave { .. } | RollEvent::Start { .. } | RollEvent::Ended { .. } => false,
            RollEvent::Drain { leaf: _, got } => got.is_done(),
        }
    }

    /// Whether it is a start that found the tables in memory.
    pub fn is_adopted(&self) -> bool
        ensures { result ≡ is_adopted self.now }
    {
        match self {
            RollEvent::Wave { .. } | RollEvent::Drain { .. } | RollEvent::Ended { .. } => false,
            RollEvent::Start { leaf: _, got } => got.is_memory(),
        }
    }
}

/// The answer of a watch to an event: tell it more, tell it no more, or begin no further wave.
#[derive(Clone, Copy, PartialEq, Eq)]
pub enum Wish {
    Stay,
    Leave,
    Halt,
}
