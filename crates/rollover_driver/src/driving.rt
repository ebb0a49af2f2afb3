// The waves of a rollover, one after another.
ghost use Rattle.std.specs.Prelude.{◌≡◌, ◌<◌, ◌^◌, ℕ, List, [], ◌∷◌, length, map};
ghost use Rattle.std.specs.List.{AllByRecursion};
ghost use Rattle.rollover_driver.specs.Calls.{FleetCall, Drains, Starts, AreOfEach, AreOfWave};
ghost use Rattle.rollover_driver.specs.Drives.{Drives};
ghost use Rattle.rollover_driver.specs.Done.{HasDone, HasRolled, wave_begins};

use crate::fleet::Fleet;
use rollover_plan::{Wave, Waves};
use rollover_watch::{RollEvent, Watch, tell_all};

/// The result of a rollover: the number of waves that were begun, and whether one was left out.
#[derive(Clone, Copy, PartialEq, Eq)]
pub struct Rolled {
    pub waves: u32,
    pub halted: bool,
}

/// Drains a leaf and tells the watches. Returns whether one asked for a halt.
#[tactic(auto, using(crate::proofs::Steps::one_drained))]
fn drain<F: Fleet>(fleet: &mut F, leaf: u32, watches: &mut Vec<Box<dyn Watch>>) -> bool
    requires { F.has fleet.old leaf }
    ensures { HasDone F.has F.stands (AreOfEach Drains (leaf ∷ [])) [] fleet.old
        (map (λ watch. held watch) watches.old.items) result fleet.new (map (λ watch. held watch) watches.new.items) }
{
    let got = fleet.drain(leaf);
    tell_all(watches, &RollEvent::Drain { leaf, got })
}

/// Starts a leaf and tells the watches. Returns whether one asked for a halt.
#[tactic(auto, using(crate::proofs::Steps::one_started))]
fn start<F: Fleet>(fleet: &mut F, leaf: u32, watches: &mut Vec<Box<dyn Watch>>) -> bool
    requires { F.has fleet.old leaf }
    ensures { HasDone F.has F.stands (AreOfEach Starts (leaf ∷ [])) [] fleet.old
        (map (λ watch. held watch) watches.old.items) result fleet.new (map (λ watch. held watch) watches.new.items) }
{
    let got = fleet.start(leaf);
    tell_all(watches, &RollEvent::Start { leaf, got })
}

/// Drains the leaves in order and tells of each. Returns whether a watch asked for a halt.
fn drain_all<F: Fleet>(fleet: &mut F, leaves: &[u32], watches: &mut Vec<Box<dyn Watch>>) -> bool
    requires { AllByRecursion (λ leaf. F.has fleet.old leaf) leaves.now }
    ensures { HasDone F.has F.stands (AreOfEach Drains leaves.now) [] fleet.old
        (map (λ watch. held watch) watches.old.items) result fleet.new (map (λ watch. held watch) watches.new.items) }
{
    let mut asked = false;
    for leaf in leaves {
        asked |= drain(fleet, *leaf, watches);
    }
    asked
}

/// Starts the leaves in order and tells of each. Returns whether a watch asked for a halt.
fn start_all<F: Fleet>(fleet: &mut F, leaves: &[u32], watches: &mut Vec<Box<dyn Watch>>) -> bool
    requires { AllByRecursion (λ leaf. F.has fleet.old leaf) leaves.now }
    ensures { HasDone F.has F.stands (AreOfEach Starts leaves.now) [] fleet.old
        (map (λ watch. held watch) watches.old.items) result fleet.new (map (λ watch. held watch) watches.new.items) }
{
    let mut asked = false;
    for leaf in leaves {
        asked |= start(fleet, *leaf, watches);
    }
    asked
}

/// Tells that a wave begins, drains its leaves, and then starts them. Returns whether a watch asked for a halt.
fn roll_wave<F: Fleet>(
    fleet: &mut F,
    number: u32,
    of: u32,
    wave: &Wave,
    watches: &mut Vec<Box<dyn Watch>>,
) -> bool
    requires { AllByRecursion (λ leaf. F.has fleet.old leaf) wave.now }
    ensures { HasDone F.has F.stands (AreOfWave wave.now) (wave_begins number of) fleet.old
        (map (λ watch. held watch) watches.old.items) result fleet.new (map (λ watch. held watch) watches.new.items) }
{
    let leaves = wave.as_slice();
    let mut asked = tell_all(watches, &RollEvent::Wave { number, of });
    asked |= drain_all(fleet, leaves, watches);
    asked |= start_all(fleet, leaves, watches);
    asked
}

/// Goes through the waves until a watch asks for a halt. The wave in which it asks is finished.
fn roll_all<F: Fleet>(fleet: &mut F, waves: &[Wave], watches: &mut Vec<Box<dyn Watch>>) -> Rolled
    requires few { length waves.now < 2 ^ 32 }
    requires known { AllByRecursion (λ wave. AllByRecursion (λ leaf. F.has fleet.old leaf) wave) waves.now }
    ensures { HasRolled F.has F.stands waves.now fleet.old
        (map (λ watch. held watch) watches.old.items) result fleet.new (map (λ watch. held watch) watches.new.items) }
{
    let of = waves.len() as u32;
    let mut begun = 0;
    let mut asked = false;
    for wave in waves {
        if asked {
            return Rolled {
                waves: begun,
                halted: true,
            };
        }
        begun += 1;
        asked = roll_wave(fleet, begun, of, wave, watches);
    }
    Rolled {
        waves: begun,
        halted: false,
    }
}

/// Drives a fleet through the waves. For each wave it drains every leaf, and then starts every leaf. It tells each
/// event to the watches in their order, and drops a watch that wishes to leave at once. After a watch asked for a halt
/// no further wave begins. It takes no memory.
pub fn drive<F: Fleet>(fleet: &mut F, waves: &Waves, watches: &mut Vec<Box<dyn Watch>>) -> Rolled
    requires few { length waves.now < 2 ^ 32 }
    requires known { AllByRecursion (λ wave. AllByRecursion (λ leaf. F.has fleet.old leaf) wave) waves.now }
    ensures same { (leaf : ℕ) → F.has fleet.old leaf → F.has fleet.new leaf }
    ensures drives { (calls : List FleetCall) × F.stands fleet.old calls fleet.new
        × Drives waves.now (map (λ watch. held watch) watches.old.items) calls result
        (map (λ watch. held watch) watches.new.items) }
{
    let rolled = roll_all(fleet, waves.as_slice(), watches);
    let _asked = tell_all(
        watches,
        &RollEvent::Ended {
            waves: rolled.waves,
            halted: rolled.halted,
        },
    );
    rolled
}
