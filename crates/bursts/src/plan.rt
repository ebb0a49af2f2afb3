// The plan of a lane: its commands, and what they need.
ghost use Rattle.std.specs.Prelude.{◌≡◌, ◌≤◌, length};

use script_text::Command;

/// The needs of a lane: a callers' seat at each marked table, and each marked leaf.
#[derive(Drop)]
pub struct Needs {
    pub tables: Vec<bool>,
    pub leaves: Vec<bool>,
}

/// The commands of a lane, and their needs.
#[derive(Drop)]
pub struct LanePlan {
    pub commands: Vec<Command>,
    pub needs: Needs,
}

/// The number of lanes.
pub fn count(plans: &Vec<LanePlan>) -> u32
    requires { length plans.now.items ≤ 16 }
    ensures { result ≡ length plans.now.items }
{
    plans.len() as u32
}
