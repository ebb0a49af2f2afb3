// The leaves of a crew while a rollover restarts them.
ghost use Rattle.std.specs.Prelude.{◌≡◌, [], true, false, IfOk};
ghost use Rattle.std.specs.Option.{option_to_list};
ghost use Rattle.player.specs.Lines.{AreJoined};
ghost use Rattle.player.specs.Restarts.{DoesDeeds, IsRestart, MayRestart, head_at, heads_left};

use crate::answer::DeedOutcome;
use crate::entries::joined;
use printed_lines::{Deed, Line};
use rollover_driver::Fleet;
use rollover_watch::{Drained, Started};
use std::alloc::{AllocError, Global};
use std::collections::VecDeque;
use std::mem::replace;

/// Leaves that a closure drains and starts, and the relation that it keeps.
pub trait RestartLeaves {
    ghost use Rattle.std.specs.Prelude.{ℕ, Result, Vec};
    ghost use Rattle.std.specs.Global.{Global};
    ghost use Rattle.std.specs.declared.alloc.AllocError.{AllocError};
    ghost use Rattle.printed_lines.specs.declared.line.Line.{Line};
    ghost use Rattle.player.specs.declared.answer.DeedOutcome.{DeedOutcome};
    ghost use Rattle.printed_lines.specs.declared.line.Deed.{Deed};

    /// The leaf may be drained and started.
    ghost may: { Self → ℕ → Type 0 };

    /// The relation between the leaves before and after a drain or a start, with its answer and its lines.
    ghost did: { Self → ℕ → Deed → DeedOutcome × Result (Vec Line Global) AllocError → Self → Type 0 };
}

/// The leaves, the lines of their deeds so far, the lines of the waves that are not begun, whether the last deed was a
/// drain, and the closure that does the deeds: a trait's method could not take the gate.
pub struct Restarts<'f, T, F> {
    pub leaves: T,
    pub lines: Result<Vec<Line>, AllocError>,
    pub heads: VecDeque<Line>,
    pub draining: bool,
    pub act: &'f F,
}

impl<
    'f,
    T: RestartLeaves,
    F: Fn(&mut T, u32, Deed) -> (DeedOutcome, Result<Vec<Line>, AllocError>),
> Restarts<'f, T, F> {
    pub fn of(alloc: Global, leaves: T, heads: Vec<Line>, act: &'f F) -> Self
        requires { DoesDeeds F.Fn act.now T.may T.did }
        ensures deeds { DoesDeeds F.Fn result.act.now T.may T.did }
        ensures leaves { result.leaves ≡ leaves }
        ensures lines { IfOk result.lines (λ lines. lines.items ≡ []) }
        ensures heads { result.heads.items ≡ heads.items }
        ensures draining { result.draining ≡ false }
    {
        Restarts {
            leaves,
            lines: Ok(Vec::new(alloc)),
            heads: VecDeque::from_vec(heads),
            draining: false,
            act,
        }
    }

    // Drains or starts a leaf. Keeps the lines, after the line of the wave that begins, if one does.
    fn restart(&mut self, leaf: u32, deed: Deed, head: Option<Line>) -> DeedOutcome
        requires may { MayRestart F.Fn self.old.act.now T.may T.did self.old.leaves leaf }
        requires deed { IsRestart deed }
        ensures act { self.new.act ≡ self.old.act }
        ensures spot { (self.new.heads ≡ self.old.heads) × (self.new.draining ≡ self.old.draining) }
        ensures done { (more : _) × T.did self.old.leaves leaf deed (result, more) self.new.leaves
            × IfOk self.new.lines (λ lines. AreJoined self.old.lines (option_to_list head) more lines.items) }
    {
        let (answer, more) = (self.act)(&mut self.leaves, leaf, deed);
        let lines = replace(&mut self.lines, Err(AllocError));
        self.lines = joined(lines, head, more);
        answer
    }
}

impl<
    'f,
    T: RestartLeaves,
    F: Fn(&mut T, u32, Deed) -> (DeedOutcome, Result<Vec<Line>, AllocError>),
> Fleet for Restarts<'f, T, F> {
    ghost use Rattle.std.specs.Prelude.{[], refl};
    ghost use Rattle.player.specs.Restarts.{Chain, MayRestart};
    ghost use Rattle.player.specs.Restarts as restart;

    ghost has = { λ fleet leaf. MayRestart F.Fn fleet.act.now T.may T.did fleet.leaves leaf };

    ghost stands = { λ first calls now. Chain T.did first.leaves first.lines first.heads.items first.draining calls
        now.leaves now.lines now.heads.items now.draining };

    fn drain(&mut self, leaf: u32) -> Drained {
        let head = next_head(&mut self.heads, &mut self.draining);
        self.restart(leaf, Deed::Drain(None), head).drained
    }

    fn start(&mut self, leaf: u32) -> Started {
        self.draining = false;
        self.restart(leaf, Deed::Start, None).started
    }

    ghost stays = { λ fleet. restart.none [] fleet.leaves fleet.lines fleet.heads.items fleet.draining refl refl refl
        refl refl };
}

// The line of the wave whose first drain comes now: the next, unless the last deed was a drain.
fn next_head(heads: &mut VecDeque<Line>, draining: &mut bool) -> Option<Line>
    ensures head { option_to_list result ≡ head_at heads.old.items draining.old }
    ensures heads { heads.new.items ≡ heads_left heads.old.items draining.old }
    ensures draining { draining.new ≡ true }
{
    if *draining {
        return None;
    }
    *draining = true;
    heads.pop_front()
}
