ghost use Rattle.std.specs.Prelude.{◌≡◌, ◌||◌, ℕ, Bool, List, Option, Result, Some, IfErr, IfOk, OnErr};
ghost use Rattle.ad_tree.specs.Ad.{Attributes};
ghost use Rattle.claim_id.specs.declared.numbers.JobId.{JobId};
ghost use Rattle.claim_id.specs.declared.numbers.SlotId.{SlotId};
ghost use Rattle.desk.specs.declared.entry.Entry.{Entry};
ghost use Rattle.desk.specs.Entries.{Gained};
ghost use Rattle.desk.specs.Given.{IsGivenBy, IsOwn};
ghost use Rattle.desk.specs.Kinds.{IsKindOf};
ghost use Rattle.desk.specs.Logs.{IsLoggedQueue};
ghost use Rattle.desk.specs.Passes.{Fits, says_closed};
ghost use Rattle.pool_parts.specs.Appends.{CanAppend};
ghost use Rattle.pool_parts.specs.declared.event.Event.{Event};
ghost use Rattle.pool_parts.specs.declared.look.Look.{Look};
ghost use Rattle.pool_mail.specs.declared.mail.Mail.{Mail};
ghost use Rattle.pool_mail.specs.declared.matching.Request.{Request};
ghost use Rattle.pool_outer.specs.declared.gate.Daemon.{Daemon};
ghost use Rattle.pool_tables.specs.declared.refusal.MailError.{MailError};
ghost use Rattle.pool_tables.specs.declared.refusal.StepError.{StepError};
ghost use Rattle.queue_tx.specs.Queues.{KeyedAds};
ghost use Rattle.receipt_roll.specs.Values.{RollMark};

use ad_tree::Ad;
use ad_value::Memory;
use claim_id::{JobId, SlotId};
use pool_mail::{Mail, RequestList};
use pool_outer::Daemon;
use pool_parts::{Answer, Event, Look};
use pool_tables::{MailError, StepError};
use std::alloc::Global;

/// What daemons reach the pool by. Each daemon has a pass, and so has the master; it gives its own
/// events by it, and its pass keeps those that the pool accepted.
///
/// What a desk tells of the pool may have changed at the next call, since others give their events
/// too. So the answer to each reading call is one that the desk may give then (`gave_next` and its
/// kin), a refusal one that it may give (`gave_refusal`), and nothing more; it also may say which
/// pool that was.
pub trait Desk {
    /// The token of one holder.
    type Pass;

    // ---- of a pass
    // the daemon that holds it; none where the master does
    ghost holder: { Self.Pass → Option Daemon };
    // its holder's accepted events, in order
    ghost mine: { Self.Pass → List Entry };
    // how many transactions were logged before all of them
    ghost first: { Self.Pass → ℕ };
    // the queue, as all transactions make it that are logged by now: those before its entries, then
    // those that the entries logged; of a pass that isn't the schedd's, whatever
    ghost queue: { Self.Pass → KeyedAds };
    // which the roll of the log is, and which the holder's roll of ends
    ghost log_mark: { Self.Pass → RollMark };

    ghost end_mark: { Self.Pass → RollMark };
    // one of its holder's events was refused since the pool is closed
    ghost closed: { Self.Pass → Bool };

    // ---- of a desk
    // it gave the pass
    ghost gave: { Self → Self.Pass → Type 0 };
    // why it may refuse an event
    ghost gave_refusal: { Self → Self.Pass → Event → StepError → Type 0 };

    // what it may answer to each reading call
    ghost gave_mail: { Self → Self.Pass → Daemon → ℕ → Result Mail MailError → Type 0 };

    ghost gave_next: { Self → Self.Pass → Daemon → ℕ → Option ℕ → Type 0 };

    ghost gave_due: { Self → Self.Pass → Daemon → ℕ → Bool → Type 0 };

    ghost gave_check: { Self → Self.Pass → ℕ → Option JobId → Type 0 };

    ghost gave_boot: { Self → Self.Pass → Daemon → ℕ → Type 0 };

    ghost gave_cluster: { Self → Self.Pass → ℕ → Type 0 };

    ghost gave_wants: { Self → Self.Pass → List Request → Type 0 };

    ghost gave_look: { Self → Self.Pass → Look → Type 0 };

    ghost gave_slot_ad: { Self → Self.Pass → SlotId → Option Attributes → Type 0 };

    /// The holder of a pass gives an event of its own. Where the pool accepts it, the pass has one
    /// entry more; where it doesn't, it has those that it had. A transaction that is to be logged
    /// meets the conditions of queue_log's `Log::append`, over a log of the transactions that were
    /// logged before the pass's entries and then those that the entries logged. An event may be
    /// refused as `Pool::step` refuses it, by a pool that has become another since it was read.
    /// Computes as `Pool::step`.
    fn act(&self, alloc: Global, pass: &mut Self::Pass, event: Event) -> Result<Answer, StepError>
        requires ours { gave self.now pass.old }
        requires own { IsOwn (holder pass.old) event }
        requires given { IsGivenBy (log_mark pass.old) (end_mark pass.old) event }

        // What stays the same.
        ensures ours { gave self.now pass.new }
        ensures holder { holder pass.new ≡ holder pass.old }
        ensures first { first pass.new ≡ first pass.old }
        ensures log_mark { log_mark pass.new ≡ log_mark pass.old }
        ensures end_mark { end_mark pass.new ≡ end_mark pass.old }

        // What is answered, and what the pass keeps of it.
        ensures kind { IfOk result (IsKindOf event) }
        ensures fits { IfOk result (Fits (first pass.old) (mine pass.old)) }
        ensures appends { IfOk result (CanAppend (queue pass.old)) }
        ensures gained { IfOk result (λ a. Gained (mine pass.old) event a (mine pass.new)) }
        ensures queue { (q : KeyedAds) → IsLoggedQueue q (mine pass.old) (queue pass.old)
            → IsLoggedQueue q (mine pass.new) (queue pass.new) }
        ensures cause { IfErr result (gave_refusal self.now pass.old event) }
        ensures refused { OnErr result (mine pass.new ≡ mine pass.old) }
        ensures closed { closed pass.new ≡ (says_closed result || closed pass.old) };

    /// A copy of the mail of a number, which goes to that daemon. Computes in O(attributes).
    fn mail(
        &self,
        alloc: Global,
        pass: &Self::Pass,
        who: Daemon,
        index: u64,
    ) -> Result<Mail, MailError>
        requires { gave self.now pass.now }
        ensures { gave_mail self.now pass.now who index result };

    /// The least number of a mail to a daemon that is at least `from`. Computes in O(mails to it
    /// from that number on), without memory.
    fn next(&self, pass: &Self::Pass, who: Daemon, from: u64) -> Option<u64>
        requires { gave self.now pass.now }
        ensures { gave_next self.now pass.now who from result };

    /// Whether a tick, or a look at the periodic expressions of a job, is due for a daemon at a
    /// reading. Computes as `Pool::due`.
    fn due(&self, alloc: Global, pass: &Self::Pass, who: Daemon, reading: u64) -> bool
        requires { gave self.now pass.now }
        ensures { gave_due self.now pass.now who reading result };

    /// The job at whose periodic expressions the schedd is to look next at a reading. Computes as
    /// `Pool::first_check`.
    fn first_check(&self, pass: &Self::Pass, reading: u64) -> Option<JobId>
        requires { gave self.now pass.now }
        ensures { gave_check self.now pass.now reading result };

    /// The boot of the pass's daemon. Computes in O(1), without memory.
    fn boot(&self, pass: &Self::Pass, who: Daemon) -> u64
        requires ours { gave self.now pass.now }
        requires own { holder pass.now ≡ Some who }
        ensures { gave_boot self.now pass.now who result };

    /// The cluster of the next submission. Computes as `Pool::cluster`, without memory.
    fn cluster(&self, pass: &Self::Pass) -> u32
        requires { gave self.now pass.now }
        ensures { gave_cluster self.now pass.now result };

    /// What the idle jobs ask for that no claim engages, in order. Computes as `Pool::wants`.
    fn wants(&self, alloc: Global, pass: &Self::Pass) -> Result<RequestList, Memory>
        requires { gave self.now pass.now }
        ensures { IfOk result (gave_wants self.now pass.now) };

    /// What there is to close the pool by. Computes as `Pool::look`.
    fn look(&self, alloc: Global, pass: &Self::Pass) -> Result<Look, Memory>
        requires { gave self.now pass.now }
        ensures { IfOk result (gave_look self.now pass.now) };

    /// The ad with which a claim of a slot is judged; none where the pool has no such slot.
    /// Computes in O(1); the copy shares its attributes.
    fn slot_ad(&self, alloc: Global, pass: &Self::Pass, slot: SlotId) -> Result<Option<Ad>, Memory>
        requires { gave self.now pass.now }
        ensures { IfOk result (gave_slot_ad self.now pass.now slot) };
}
