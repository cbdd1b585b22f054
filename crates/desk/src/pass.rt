ghost use Rattle.std.specs.Prelude.{◌≡◌, ◌||◌, [], false, None, IfErr, IfOk, OnErr, OnOk};
ghost use Rattle.desk.specs.Given.{IsGivenBy, IsOwn};
ghost use Rattle.desk.specs.Kinds.{IsKindOf};
ghost use Rattle.desk.specs.Logs.{IsLoggedQueue};
ghost use Rattle.desk.specs.Passes.{Fits, is_closed, says_closed};
ghost use Rattle.pool_parts.specs.Appends.{CanAppend};
ghost use Rattle.pool_rules.specs.Answers.{answered};
ghost use Rattle.pool_rules.specs.Happens.{Reacts};
ghost use Rattle.desk.specs.Standing.{end_mark_of, logged_before};
ghost use Rattle.pool_rules.specs.Refusals.{IsRefusal};
ghost use Rattle.queue_tx.specs.Queues.{KeyedAds};
ghost use Rattle.desk.specs.Answers.{IsRefusedHere};
ghost use Rattle.desk.specs.SolePasses.{CanHold, HasHolder, HasOneMore};

use crate::Entry;
use pool_core::Pool;
use pool_outer::Daemon;
use pool_parts::{Answer, Event, Stepped};
use pool_tables::StepError;
use std::alloc::Global;
use std::marker::Model;

/// The pass of the one holder: its pool, and its entries. Contracts see it as a `SolePassValue`.
pub struct SolePass {
    holder: Option<Daemon>,
    pool: Pool,
    entries: Vec<Entry>,
    // An event was refused since the pool is closed.
    closed: bool,
}

impl Drop for SolePass {
    fn drop(self) {
        let SolePass {
            holder: _,
            pool: _pool,
            entries: _entries,
            closed: _,
        } = self;
    }
}

impl Model for SolePass {
    ghost use Rattle.std.specs.Coded.{codes};
    ghost use Rattle.desk.specs.contracts.entry.Entry as of_entry;
    ghost use Rattle.pool_core.specs.contracts.pool.Pool as of_pool;
    ghost use Rattle.pool_outer.specs.contracts.gate.Daemon as of_daemon;
    ghost use Rattle.desk.specs.SolePasses.{SolePassValue, StandsHere};

    ghost Value = { SolePassValue };

    ghost coded = { Prim.hlevel
        (codes, of_entry.the_row.coded, of_pool.the_row.coded, of_daemon.the_row.coded) };

    ghost view = { λ p. record {
      holder = p.holder;
      mine = p.entries.items;
      closed = p.closed;
      pool = p.pool;
    } };

    ghost invariant = { λ p. StandsHere p.holder p.entries.items p.pool };
}

impl SolePass {
    /// The pass of a holder, which has given no event to the pool yet. Computes in O(1), without
    /// memory.
    pub fn new(alloc: Global, holder: Option<Daemon>, pool: Pool) -> SolePass
        requires { CanHold holder pool }
        ensures { result
            ≡ record { holder = holder; mine = []; closed = false; pool = pool } }
    {
        pool.safety();
        SolePass {
            holder,
            pool,
            entries: Vec::new(alloc),
            closed: false,
        }
    }

    /// The pool, which has the holder. Computes in O(1).
    pub fn pool(&self) -> &Pool
        ensures pool { result.now ≡ self.now.pool }
        ensures there { HasHolder self.now.holder self.now.pool }
    {
        &self.pool
    }

    /// The pool, without memory. Computes in O(1).
    pub fn into_pool(self) -> Pool
        ensures { result ≡ self.pool }
    {
        let SolePass {
            holder: _,
            pool,
            entries: _entries,
            closed: _,
        } = self;
        pool
    }

    /// The holder gives an event of its own to the pool. Computes as `Pool::step`.
    pub fn act(&mut self, alloc: Global, event: Event) -> Result<Answer, StepError>
        requires own { IsOwn self.old.holder event }
        requires given { IsGivenBy self.old.pool.log_mark
            (end_mark_of self.old.holder self.old.pool) event }

        // What stays the same.
        ensures holder { self.new.holder ≡ self.old.holder }
        ensures first { logged_before self.new.mine self.new.pool
            ≡ logged_before self.old.mine self.old.pool }
        ensures log_mark { self.new.pool.log_mark ≡ self.old.pool.log_mark }
        ensures end_mark { end_mark_of self.new.holder self.new.pool
            ≡ end_mark_of self.old.holder self.old.pool }

        // When the pool accepts it, and what it becomes.
        ensures accepted { OnOk result (IsRefusal event self.old.pool None) }
        ensures cause { IfErr result (IsRefusedHere self.old.pool event) }
        ensures reacts { IfOk result
            (λ a. Reacts self.old.pool event (answered a) self.new.pool) }
        ensures same { OnErr result (self.new.pool ≡ self.old.pool) }

        // What is answered, and what the pass keeps of it.
        ensures kind { IfOk result (IsKindOf event) }
        ensures fits { IfOk result
            (Fits (logged_before self.old.mine self.old.pool) self.old.mine) }
        ensures appends { IfOk result (CanAppend self.old.pool.queue) }
        ensures gained { IfOk result
            (λ a. HasOneMore self.old.mine self.old.pool event a self.new.mine) }
        ensures queue { (q : KeyedAds) → IsLoggedQueue q self.old.mine self.old.pool.queue
            → IsLoggedQueue q self.new.mine self.new.pool.queue }
        ensures refused { OnErr result (self.new.mine ≡ self.old.mine) }
        ensures closed { self.new.closed ≡ (says_closed result || self.old.closed) }
    {
        if self.entries.reserve(1).is_err() {
            return Err(StepError::Memory);
        }
        let place = self.pool.events();
        match self.pool.step(alloc, &event) {
            Ok(Stepped { answer, kept }) => {
                self.entries.push_reserved(Entry::new(place, &event, kept));
                Ok(answer)
            }
            Err(error) => {
                self.closed = is_closed(error) || self.closed;
                Err(error)
            }
        }
    }
}

fn is_closed(error: StepError) -> bool
    ensures { result ≡ is_closed error }
{
    matches!(error, StepError::Closed)
}
