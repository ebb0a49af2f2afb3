// Marks of the leaves whose stewards have a command in some lanes.
ghost use Rattle.std.specs.Prelude.{◌≡◌, ◌==◌, ◌<◌, [], true, false, length, slice_index_or, IfOk};
ghost use Rattle.script_text.specs.Marks.{AreMarked, SameMarks, MarkIsSet, Marks, is_marked};
ghost use Rattle.script_text.specs.Stewards.{has_steward, has_stewards, is_a_stewards, is_stewards};

use crate::command::{Aim, Command};
use std::alloc::{AllocError, Global};

/// The marks of leaves. A leaf past the last mark is not marked. A rollover marks every leaf.
#[derive(Drop)]
pub struct StewardMarks {
    pub leaves: Vec<bool>,
    pub every: bool,
    pub some: bool,
}

impl StewardMarks {
    /// No marks.
    #[tactic(auto, using(crate::proofs::Marked::none_marked))]
    pub fn new(alloc: Global) -> StewardMarks
        ensures { AreMarked [] result }
    {
        StewardMarks {
            leaves: Vec::new(alloc),
            every: false,
            some: false,
        }
    }

    /// Whether the leaf is marked.
    pub fn has(&self, leaf: u32) -> bool
        ensures { result ≡ is_marked self.now leaf }
    {
        self.every || is_set(self.leaves.as_slice(), leaf as usize)
    }

    /// Marks each leaf whose steward has one of these commands.
    #[tactic(auto, using(crate::proofs::Marked::marks_none))]
    pub fn mark_lane(&mut self, lane: &[Command]) -> Result<(), AllocError>
        ensures { IfOk result (λ _. Marks self.old self.new (λ leaf. has_steward leaf lane.now)
            (has_stewards lane.now)) }
    {
        for command in lane {
            self.mark(command)?;
        }
        Ok(())
    }

    // Marks each leaf whose steward has this command.
    #[tactic(auto, using(crate::proofs::Marked::marks_nothing, crate::proofs::Marked::marks_leaf, crate::proofs::Marked::marks_every))]
    fn mark(&mut self, command: &Command) -> Result<(), AllocError>
        ensures { IfOk result (λ _. Marks self.old self.new (λ leaf. is_stewards leaf command.now)
            (is_a_stewards command.now)) }
    {
        match command.aim() {
            Aim::Fleet | Aim::Table(_) | Aim::Named(_) | Aim::Run => {}
            Aim::Leaf(leaf) => self.mark_leaf(leaf)?,
            Aim::Leaves => {
                self.every = true;
                self.some = true;
            }
        }
        Ok(())
    }

    // Marks one leaf.
    #[tactic(auto, using(crate::proofs::Marked::leaf_marked))]
    fn mark_leaf(&mut self, leaf: u32) -> Result<(), AllocError>
        ensures { IfOk result (λ _. Marks self.old self.new (λ number. leaf == number) true) }
    {
        set(&mut self.leaves, leaf as usize)?;
        self.some = true;
        Ok(())
    }
}

// Whether there is a mark in this place that is set.
#[tactic(auto, using(crate::proofs::Marked::beyond))]
fn is_set(marks: &[bool], place: usize) -> bool
    ensures { result ≡ slice_index_or marks.now place false }
{
    place < marks.len() && marks[place]
}

// Sets the mark in this place.
#[tactic(auto, using(crate::proofs::Marked::set_there))]
fn set(marks: &mut Vec<bool>, place: usize) -> Result<(), AllocError>
    ensures { IfOk result (λ _. MarkIsSet marks.old.items place marks.new.items) }
{
    reach(marks, place)?;
    marks[place] = true;
    Ok(())
}

// Lengthens the marks up to this place, by marks that are not set.
#[tactic(auto, using(crate::proofs::Marked::reach_none, crate::proofs::Marked::reach_more))]
fn reach(marks: &mut Vec<bool>, place: usize) -> Result<(), AllocError>
    ensures there { IfOk result (λ _. place < length marks.new.items) }
    ensures same { IfOk result (λ _. SameMarks marks.old.items marks.new.items) }
{
    while marks.len() <= place {
        marks.push(false)?;
    }
    Ok(())
}
