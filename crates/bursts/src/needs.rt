// Finds what the commands of a lane need.
ghost use Rattle.std.specs.Prelude.{◌≡◌, false, true, length, replicate, IfOk};
ghost use Rattle.std.specs.List.{AllByRecursion};
ghost use Rattle.script_text.specs.Fits.{IsCommand};
ghost use Rattle.script_text.specs.Commands.{leaf_count};
ghost use Rattle.bursts.specs.Needs.{AreNeeds, HasPlaces, leaves_acted_on, marked, table_needed};

use crate::plan::Needs;
use berth_face::Berth;
use player::Crew;
use script_text::{Aim, Command};
use std::alloc::{AllocError, Global};

impl Needs {
    /// The tables and leaves that these commands need. Err if memory runs out.
    pub fn of<'t, B: Berth>(
        alloc: Global,
        crew: &Crew<'t, B>,
        commands: &[Command],
    ) -> Result<Needs, AllocError>
        requires { AllByRecursion (IsCommand (leaf_count crew.now.fleet) crew.now.fleet.names) commands.now }
        ensures { IfOk result (AreNeeds crew.now.fleet commands.now) }
    {
        let mut needs = Needs {
            tables: unmarked(alloc, crew.table_count())?,
            leaves: unmarked(alloc, crew.leaf_count())?,
        };
        for command in commands {
            needs.mark(crew, command);
        }
        Ok(needs)
    }

    // Marks what one command needs.
    #[tactic(auto, using(crate::proofs::Needed::tables_marked, crate::proofs::Needed::leaves_marked))]
    fn mark<'t, B: Berth>(&mut self, crew: &Crew<'t, B>, command: &Command)
        requires command { IsCommand (leaf_count crew.now.fleet) crew.now.fleet.names command.now }
        requires places { HasPlaces crew.now.fleet self.old }
        ensures tables { self.new.tables.items ≡ marked (table_needed crew.now.fleet.names command.now)
            self.old.tables.items }
        ensures leaves { self.new.leaves.items ≡ marked (leaves_acted_on command.now) self.old.leaves.items }
    {
        match command.aim() {
            Aim::Fleet | Aim::Run => {}
            Aim::Table(table) => self.tables[table as usize] = true,
            Aim::Named(name) => {
                let table = crew.place_of(name.as_str());
                self.tables[table as usize] = true;
            }
            Aim::Leaf(leaf) => self.leaves[leaf as usize] = true,
            Aim::Leaves => mark_all(&mut self.leaves),
        }
    }
}

// Marks all places.
fn mark_all(marks: &mut Vec<bool>)
    ensures { marks.new.items ≡ replicate (length marks.old.items) true }
{
    marks.as_mut_slice().fill(true);
}

// `count` places, none of them marked.
fn unmarked(alloc: Global, count: u32) -> Result<Vec<bool>, AllocError>
    ensures { IfOk result (λ marks. marks.items ≡ replicate count false) }
{
    vec![in alloc; false; count as usize]
}
