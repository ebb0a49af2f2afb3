// The lanes of a burst before its last one.
ghost use Rattle.std.specs.Prelude.{◌≡◌, ◌++◌, [], ◌∷◌, IfOk};
ghost use Rattle.script_text.specs.Stewards.{is_second};

use crate::command::{Aim, Command, Commands};
use crate::item::LaneList;
use crate::marks::StewardMarks;
use std::alloc::{AllocError, Global};
use std::marker::Model;

/// The lanes before the present one, and marks for the leaves whose stewards have a command in one of them. A command
/// of a later lane is compared with the marks alone. Contracts see the lanes.
#[derive(Drop)]
pub struct EarlierLanes {
    lanes: Vec<Commands>,
    marks: StewardMarks,
}

impl Model for EarlierLanes {
    ghost use Rattle.std.specs.Prelude.{List};
    ghost use Rattle.script_text.specs.declared.command.Command.{Command};
    ghost use Rattle.script_text.specs.Marks.{AreMarked};

    ghost Value = { List (List Command) };

    ghost view = { λ earlier. earlier.lanes.items };

    ghost invariant = { λ earlier. AreMarked earlier.lanes.items earlier.marks };
}

impl EarlierLanes {
    /// No lane.
    pub fn new(alloc: Global) -> EarlierLanes
        ensures { result ≡ [] }
    {
        EarlierLanes {
            lanes: Vec::new(alloc),
            marks: StewardMarks::new(alloc),
        }
    }

    pub fn as_slice(&self) -> &[Commands]
        ensures { result.now ≡ self.now }
    {
        self.lanes.as_slice()
    }

    pub fn into_lanes(self) -> LaneList
        ensures { result ≡ self }
    {
        LaneList::of(self.lanes)
    }

    /// These lanes, and one more.
    #[tactic(auto, using(crate::proofs::Marked::lane_marked))]
    pub fn with_lane(self, lane: Commands) -> Result<EarlierLanes, AllocError>
        ensures { IfOk result (λ more. more ≡ self ++ lane ∷ []) }
    {
        let mut lanes = self.lanes;
        let mut marks = self.marks;
        marks.mark_lane(lane.as_slice())?;
        lanes.push(lane)?;
        Ok(EarlierLanes { lanes, marks })
    }

    /// Whether the command is for a steward for whom one of these lanes has a command too.
    #[tactic(auto, using(crate::proofs::Aimed::second_by))]
    pub fn has_second(&self, command: &Command) -> bool
        ensures { result ≡ is_second self.now command.now }
    {
        match command.aim() {
            Aim::Fleet | Aim::Table(_) | Aim::Named(_) | Aim::Run => false,
            Aim::Leaf(leaf) => self.marks.has(leaf),
            Aim::Leaves => self.marks.some,
        }
    }
}
