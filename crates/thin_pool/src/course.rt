ghost use Rattle.std.specs.Prelude.{◌≡◌, ◌≢◌, [], ◌∷◌, ◌++◌, None, Some, IfOk, IfErr, OnErr, OnOk, length};
ghost use Rattle.thin_pool.specs.declared.answer.Kept.TheVariants as kept;
ghost use Rattle.thin_pool.specs.declared.event.Event.TheVariants.{Start};
ghost use Rattle.thin_pool.specs.Answers.{kept_of};
ghost use Rattle.thin_pool.specs.Reactions.{opening_pool, refusal, pool_after, answer_to};
ghost use Rattle.thin_pool.specs.Histories.{IsHistory, Shows};
ghost use Rattle.thin_pool.specs.PoolValue.{AreNumberedOnce};
ghost use Rattle.thin_pool.specs.Moving.{EachMoves};

use crate::answer::{Answer, StepError, Stepped};
use crate::event::Event;
use crate::history::{History, Step, StepList};
use crate::next::Pair;
use crate::pool::Pool;
use crate::slot::PoolSlotList;
use ad_value::{Copied, Memory};
use job_launch::launch_of;
use pool_outer::Launch;
use std::alloc::Global;
use std::marker::Model;

/// A pool beside its history, which leads from the pool's opening to the pool.
pub struct Course {
    opening: Pool,
    steps: Vec<Step>,
    pool: Pool,
}

impl Drop for Course {
    fn drop(self) {
        let Course {
            opening: _opening,
            steps: _steps,
            pool: _pool,
        } = self;
    }
}

impl Model for Course {
    ghost use Rattle.std.specs.Prelude.{◌≡◌};
    ghost use Rattle.thin_pool.specs.CourseValue.{CourseValue};
    ghost use Rattle.thin_pool.specs.Reactions.{opening_pool};
    ghost use Rattle.thin_pool.specs.Histories.{LeadsTo};
    ghost use Rattle.std.specs.Coded.{codes};
    ghost use Rattle.thin_pool.specs.contracts.history.Step as step;
    ghost use Rattle.thin_pool.specs.contracts.pool.Pool as pool_row;

    ghost Value = { CourseValue };

    ghost coded = { Prim.hlevel (codes, step.the_row.coded, pool_row.the_row.coded) };

    ghost view = { λ c. record { opening = c.opening; list = c.steps.items; pool = c.pool } };

    ghost invariant = { λ c. (c.opening ≡ opening_pool c.opening.slots) × LeadsTo c.opening
        c.steps.items c.pool };
}

impl Course {
    /// A pool of these slots, to which nothing has happened. The opening is a copy of the pool.
    /// Computes in O(size of the slots' ads).
    pub fn open(alloc: Global, slots: PoolSlotList) -> Result<Course, Memory>
        requires some { slots ≢ [] }
        requires once { AreNumberedOnce slots }
        ensures opening { IfOk result (λ c. c.opening ≡ opening_pool slots) }
        ensures list { IfOk result (λ c. c.list ≡ []) }
        ensures pool { IfOk result (λ c. c.pool ≡ opening_pool slots) }
    {
        let pool = Pool::open(alloc, slots);
        Ok(Course {
            opening: pool.copy(alloc)?,
            steps: Vec::new(alloc),
            pool,
        })
    }

    /// The pool as it is. Computes in O(1).
    pub fn pool(&self) -> &Pool
        ensures { result.now ≡ self.now.pool }
    {
        &self.pool
    }

    /// How many events were accepted. Computes in O(1).
    pub fn step_count(&self) -> usize
        ensures { result ≡ length self.now.list }
    {
        self.steps.len()
    }

    /// One event. An error leaves the pool and its history as they were. Computes as `Pool::step`,
    /// however long the history is, but that the list of events doubles its room where it is full.
    pub fn act(&mut self, alloc: Global, ev: Event) -> Result<Answer, StepError>
        // It is accepted.
        ensures accepted { OnOk result (refusal self.old.pool ev ≡ None) }
        ensures answer { IfOk result (λ a. a ≡ answer_to self.old.pool ev) }
        ensures list { OnOk result (self.new.list ≡ self.old.list
            ++ record { event = ev; kept = kept_of (answer_to self.old.pool ev) } ∷ []) }
        ensures pool { OnOk result (self.new.pool ≡ pool_after self.old.pool ev) }
        ensures opening { self.new.opening ≡ self.old.opening }

        // It is refused, or memory runs out.
        ensures cause { IfErr result
            (λ e. e ≢ StepError.Memory → refusal self.old.pool ev ≡ Some e) }
        ensures same { OnErr result (self.new ≡ self.old) }
    {
        if self.steps.reserve(1).is_err() {
            return Err(StepError::Memory);
        }
        let Stepped { answer, kept } = self.pool.step(alloc, &ev)?;
        self.steps.push(Step { event: ev, kept }).unwrap();
        Ok(answer)
    }

    /// Starts a job on a slot, which the pool accepts, and says what is to be launched. An error
    /// leaves the pool and its history as they were. Computes as `Pool::step`.
    pub fn start(&mut self, alloc: Global, pair: Pair, reading: u64) -> Result<Launch, Memory>
        requires { refusal self.old.pool (Start pair.job pair.slot pair.judged reading) ≡ None }
        ensures list { IfOk result (λ what. self.new.list ≡ self.old.list
            ++ record {
              event = Start pair.job pair.slot pair.judged reading;
              kept = kept.Launch what;
            } ∷ []) }
        ensures pool { OnOk result (self.new.pool ≡ pool_after self.old.pool
            (Start pair.job pair.slot pair.judged reading)) }
        ensures opening { self.new.opening ≡ self.old.opening }
        ensures same { OnErr result (self.new ≡ self.old) }
    {
        let what = launch_of(alloc, pair.judged.job())?;
        let Pair { job, slot, judged } = pair;
        let event = Event::Start {
            job,
            slot,
            judged,
            reading,
        };
        match self.act(alloc, event) {
            Ok(_) => Ok(what),
            Err(_) => Err(Memory),
        }
    }

    /// The history, and the pool that it leads to. Computes in O(1), without memory.
    pub fn finish(self) -> (History, Pool)
        ensures history { IsHistory self.opening.slots result.0 result.1 }
        ensures safe { EachMoves self.opening self.list }
        ensures shows { Shows self.opening.slots self.list result.1 }
        ensures list { result.0.list ≡ self.list }
        ensures pool { result.1 ≡ self.pool }
    {
        let Course {
            opening,
            steps,
            pool,
        } = self;
        let history = History {
            opening: Some(opening),
            load: false,
            list: StepList::from_vec(steps),
        };
        (history, pool)
    }
}
