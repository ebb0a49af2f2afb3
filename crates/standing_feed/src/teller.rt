// The state of a standing query, and what it told last.
ghost use Rattle.std.specs.Prelude.{◌≡◌, ◌+◌, ◌<◌, ◌||◌, true, false, [], List, IfOk, IfSome, is_err};
ghost use Rattle.row_model.specs.declared.rows.Row.{Row};
ghost use Rattle.standing_query.specs.Spread.{spread};
ghost use Rattle.standing_query.specs.States.{FedTo, IsSpread, Means, is_end};
ghost use Rattle.standing_feed.specs.Answering.{IsAnswerOf};

use answer_text::lines;
use leaf_model::{Groups, Query, Texts};
use standing_query::{Fed, Standing};
use std::alloc::{AllocError, Global};
use std::marker::Model;

/// The state of a standing query. It makes the lines of its answer once, however often they are told, and keeps them
/// until an entry changes its rows. Contracts see the state.
#[derive(Drop)]
pub struct Teller {
    state: Standing,
    told: Option<Texts>,
}

impl Model for Teller {
    ghost use Rattle.std.specs.Prelude.{IfSome};
    ghost use Rattle.standing_query.specs.States.{StandingState};
    ghost use Rattle.standing_feed.specs.Answering.{IsAnswerOf};

    ghost Value = { StandingState };

    ghost view = { λ t. t.state };

    ghost invariant = { λ t. IfSome t.told (IsAnswerOf t.state) };
}

impl Teller {
    /// Stale, before any entry.
    pub fn new(alloc: Global, query: Query) -> Result<Teller, AllocError>
        ensures { IfOk result (λ t. t ≡ record { query = query; upto = 0; stale = true; groups = [] }) }
    {
        let state = Standing::new(alloc, query, 0)?;
        Ok(Teller { state, told: None })
    }

    pub fn query(&self) -> &Query
        ensures { result.now ≡ self.now.query }
    {
        self.state.query()
    }

    /// The query that a stale state asks its table.
    pub fn spread(&self) -> &Query
        ensures { result.now ≡ spread self.now.query }
    {
        self.state.spread()
    }

    pub fn stale(&self) -> bool
        ensures { result ≡ self.now.stale }
    {
        self.state.stale()
    }

    /// The number of the last entry that was fed.
    pub fn upto(&self) -> u64
        ensures { result ≡ self.now.upto }
    {
        self.state.upto()
    }

    /// Feeds the next entry.
    pub fn feed(&mut self, number: u64, fed: Fed) -> Result<(), AllocError>
        requires next { number ≡ self.old.upto + 1 }
        ensures upto { self.new.upto ≡ number }
        ensures query { self.new.query ≡ self.old.query }
        ensures stale { self.new.stale ≡ (self.old.stale || (is_err result || is_end fed)) }
        ensures fed { (rows now : List Row) → Means self.old rows → FedTo fed rows now → self.new.stale ≡ false
            → Means self.new now }
    {
        if fed.is_idle() {
            return self.state.feed(number, fed);
        }
        self.told = None;
        self.state.feed(number, fed)
    }

    /// Makes a stale state fresh, by the groups that the table answered in the entry of this number.
    pub fn settle(&mut self, number: u64, groups: Groups)
        requires stale { self.old.stale ≡ true }
        requires number { 0 < number }
        requires spread { IsSpread self.old.query groups }
        ensures { self.new ≡ record { query = self.old.query; upto = number; stale = false; groups = groups } }
    {
        self.told = None;
        self.state.pass(number - 1);
        match self.state.settle(number, groups) {
            Ok(()) => {}
            Err(_) => unreachable!(),
        }
    }

    /// The lines that a fresh state tells.
    pub fn tell(&mut self, alloc: Global) -> Result<Texts, AllocError>
        requires fresh { self.old.stale ≡ false }
        ensures same { self.new ≡ self.old }
        ensures told { IfOk result (IsAnswerOf self.old) }
    {
        if let Some(texts) = &self.told {
            return Ok(texts.copy()?);
        }
        let texts = lines_of(alloc, &self.state)?;
        self.told = copy_of(&texts);
        Ok(texts)
    }
}

fn lines_of(alloc: Global, state: &Standing) -> Result<Texts, AllocError>
    requires { state.now.stale ≡ false }
    ensures { IfOk result (IsAnswerOf state.now) }
{
    let groups = state.groups()?;
    Ok(Texts::of(lines(alloc, state.query(), &groups)?.into_inner()))
}

// A copy, if there is memory for one.
fn copy_of(texts: &Texts) -> Option<Texts>
    ensures { IfSome result (λ copy. copy ≡ texts.now) }
{
    match texts.copy() {
        Ok(copy) => Some(copy),
        Err(_) => None,
    }
}
