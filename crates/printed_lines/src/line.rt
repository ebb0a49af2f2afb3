// The lines that a script's commands print.
use leaf_model::{Text, Texts};
use leaf_words::Way;
use rollover_plan::Wave;

/// The words of an entry's line after its number.
#[derive(Clone, Copy, PartialEq, Eq)]
pub enum Said {
    /// An add: `kept` rows were kept, and `late` rows came late.
    Added { kept: u64, late: u64 },
    /// An expiry or a keep: the number of rows that it removed.
    Removed(u64),
    Asked,
    RefusedShut,
    RefusedFull,
    RefusedMemory,
    /// The table was opened; the number of its writes.
    Opened(u64),
    /// All writes that the table had accepted were taken for the log; their number.
    Took(u64),
    /// Writes are in the log, and on the disk; their number.
    Flushed(u64),
    /// The table was closed; the number of its writes.
    Closed(u64),
    /// The closed table was handed to the region.
    Handed,
}

/// A command to a leaf's steward.
#[derive(Clone, Copy, PartialEq, Eq)]
pub enum Deed {
    Start,
    /// The flush of the table in this place.
    Flush(u32),
    /// A drain. It is stopped after this number of steps, if one is given.
    Drain(Option<u32>),
    Kill,
}

/// How a deed ended.
#[derive(Drop)]
pub enum Ending {
    Done,
    /// A drain made the steps that it was to make, and the leaf was killed.
    Stopped,
    NotUp,
    NotDown,
    /// The seat of a table that was to be taken has seen 2^62 entries, so the table is not taken.
    Worn,
    Started(Way),
    FaultRegion,
    /// No image can be made of the tables: it, or a number in it, would be too large.
    FaultRoom,
    FaultDisk,
    /// The log of the disk is damaged.
    FaultDamaged,
    FaultMemory,
    FaultStranger(Text),
    /// The seat of the table in this place among the fleet's has seen 2^62 entries, so nothing is started.
    FaultWorn(u32),
}

/// Why a stale standing query told nothing: its table refused to be asked.
#[derive(Clone, Copy, PartialEq, Eq)]
pub enum WhyUntold {
    Shut,
    Worn,
    Memory,
}

/// A printed line. An answer, and what a standing query tells, has its own lines after it.
#[derive(Drop)]
pub enum Line {
    /// An entry of a table's history. The table is given by its place among the fleet's.
    Entry {
        leaf: u32,
        table: u32,
        number: u64,
        said: Said,
    },
    /// A call that was refused, because its seat has seen 2^62 entries of its table. It makes no entry.
    Worn {
        leaf: u32,
        table: u32,
    },
    Answer {
        named: u64,
        leaves: u32,
        rows: Texts,
    },
    /// A tail's rows were added to this leaf, or to none.
    Tailed(Option<u32>),
    /// The standing query of this number was declared.
    Declared(u32),
    /// The answer of a standing query, over the rows after the entry with this number.
    Told {
        standing: u32,
        number: u64,
        rows: Texts,
    },
    /// A standing query told nothing.
    Untold {
        standing: u32,
        why: WhyUntold,
    },
    Ended {
        deed: Deed,
        leaf: u32,
        ending: Ending,
    },
    /// The lines of a burst's lane follow. Lanes are numbered from 0.
    Lane(u32),
    /// A wave of a rollover begins, of `of` waves, numbered from 1.
    Wave {
        number: u32,
        of: u32,
        leaves: Wave,
    },
    /// A rollover ended: the number of waves that it began, and whether it was halted, so that one was left out.
    Rolled {
        halted: bool,
        waves: u32,
        of: u32,
    },
    /// The line of a watch after a rollover.
    Watch(rollover_watch::Line),
}
