// A lane that plays by itself.
use berth_face::Berth;
use player::Crew;
use printed_lines::Line;
use rollover_watch::Watch;
use script_text::Command;
use std::alloc::AllocError;

/// A lane, with what was cut off for it.
#[derive(Drop)]
pub struct LaneWork<'t, B: Berth> {
    pub number: u32,
    pub crew: Crew<'t, B>,
    pub commands: Vec<Command>,
    /// The watches of the burst if one of its commands is a rollover, else none.
    pub watches: Vec<Box<dyn Watch>>,
    /// The lines of all its commands. Err before they were played, and if memory ran out.
    pub lines: Result<Vec<Line>, AllocError>,
}

impl<'t, B: Berth> LaneWork<'t, B> {
    /// Whether it has commands.
    pub fn is_busy(&self) -> bool {
        !self.commands.is_empty()
    }
}
