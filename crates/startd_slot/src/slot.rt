ghost use Rattle.std.specs.Prelude.{◌≡◌};
ghost use Rattle.std.specs.Option.{option_copied};
ghost use Rattle.startd_slot.specs.SlotStates.{slot_after_boot, offers_claim, holds_claim, has_rival, running_of, runs_on, is_spent, is_used_in, is_open, after_cue, without_claim, with_claim, held_of, heard_of, heard_claim, with_number, with_run, with_running, lengthened, stopped, evicted, without_run, claim_after_run, claim_with_running};
ghost use Rattle.startd_slot.specs.ReleaseTable.{is_busy};
ghost use Rattle.startd_slot.specs.RunTable.{until_of};

use crate::held::{Held, Mark, Rival, Running, copied_held, copied_rival};
use ad_tree::Ad;
use ad_value::{Copied, Memory, Text};
use claim_id::{ClaimId, ClaimNo, Cue, Pair, RunNo, SlotId, next};
use pool_mail::How;
use std::alloc::Global;

/// A slot of the machine: what never changes, and how it stands. Its copy computes in O(bytes of
/// its texts, and a byte for each attribute of its ads), with memory, and shares the attributes.
pub struct Slot {
    pub id: SlotId,
    /// As `slot1@m1`.
    pub name: Text,
    pub ad: Ad,
    pub state: SlotState,
}

/// How a slot stands.
pub struct SlotState {
    pub pair: Pair,
    /// When the pair was entered, a reading.
    pub entered: u64,
    /// The claim that the slot offers.
    pub offer: Option<ClaimId>,
    /// The greatest seq issued in this boot.
    pub issued: u64,
    /// The greatest seq of a claim of this boot that has ended.
    pub passed: u64,
    pub held: Option<Held>,
    pub rival: Option<Rival>,
    /// When the slot last sent an Update in this boot, a reading.
    pub told: Option<u64>,
}

impl Drop for SlotState {
    fn drop(self) {
        let SlotState {
            pair: _,
            entered: _,
            offer: _,
            issued: _,
            passed: _,
            held: _held,
            rival: _rival,
            told: _,
        } = self;
    }
}

impl Drop for Slot {
    fn drop(self) {
        let Slot {
            id: _,
            name: _name,
            ad: _ad,
            state: _state,
        } = self;
    }
}

impl Copied for SlotState {
    fn copy(&self, alloc: Global) -> Result<SlotState, Memory> {
        Ok(SlotState {
            pair: self.pair,
            entered: self.entered,
            offer: self.offer,
            issued: self.issued,
            passed: self.passed,
            held: copied_held(alloc, &self.held)?,
            rival: copied_rival(alloc, &self.rival)?,
            told: self.told,
        })
    }
}

impl Copied for Slot {
    fn copy(&self, alloc: Global) -> Result<Slot, Memory> {
        Ok(Slot {
            id: self.id,
            name: self.name.copy(alloc)?,
            ad: self.ad.copy(alloc)?,
            state: self.state.copy(alloc)?,
        })
    }
}

impl Held {
    fn hear_of(&mut self, claim: ClaimNo, reading: u64)
        ensures { self.new ≡ heard_claim claim reading self.old }
    {
        if self.claim.no == claim {
            self.heard = reading;
        }
    }

    fn lengthen(&mut self, until: u64, reading: u64)
        ensures { self.new ≡ claim_with_running (lengthened until reading) self.old }
    {
        if let Some(running) = &mut self.running {
            if reading < until {
                running.until = running.until.max(until);
            }
        }
    }

    fn mark_stopped(&mut self)
        ensures { self.new ≡ claim_with_running stopped self.old }
    {
        if let Some(running) = &mut self.running {
            running.mark = Some(running.mark.unwrap_or(Mark::Stopped));
        }
    }

    fn mark_evicted(&mut self)
        ensures { self.new ≡ claim_with_running evicted self.old }
    {
        if let Some(running) = &mut self.running {
            running.mark = Some(Mark::Evicted);
        }
    }

    fn end_run(&mut self, run: RunNo, how: How, reading: u64)
        ensures { self.new ≡ claim_after_run run how reading self.old }
    {
        self.running = None;
        self.ended = Some((run, how));
        self.heard = reading;
    }
}

impl SlotState {
    /// How a slot stands after a boot. Computes in O(1), without memory.
    pub fn after_boot(reading: u64) -> SlotState
        ensures { result ≡ slot_after_boot reading }
    {
        SlotState {
            pair: Pair::OwnerIdle,
            entered: reading,
            offer: None,
            issued: 0,
            passed: 0,
            held: None,
            rival: None,
            told: None,
        }
    }

    /// Whether the claim, with its secret, is the one that the slot offers.
    pub(crate) fn offers(&self, claim: ClaimId) -> bool
        ensures { result ≡ offers_claim self.now claim }
    {
        match self.offer {
            Some(offer) => offer == claim,
            None => false,
        }
    }

    /// Whether the slot holds the claim.
    pub(crate) fn holds(&self, claim: ClaimNo) -> bool
        ensures { result ≡ holds_claim self.now claim }
    {
        match &self.held {
            Some(held) => held.claim.no == claim,
            None => false,
        }
    }

    /// Whether the claim waits for the slot.
    pub(crate) fn has_rival(&self, claim: ClaimNo) -> bool
        ensures { result ≡ has_rival self.now claim }
    {
        match &self.rival {
            Some(rival) => rival.claim.no == claim,
            None => false,
        }
    }

    /// The run that is on the slot. Computes in O(1), without memory.
    pub fn running(&self) -> Option<&Running>
        ensures { option_copied result ≡ running_of self.now }
    {
        match &self.held {
            Some(held) => held.running.as_ref(),
            None => None,
        }
    }

    /// Whether that run is on the slot. Computes in O(1), without memory.
    pub fn runs(&self, run: RunNo) -> bool
        ensures { result ≡ runs_on self.now run }
    {
        match self.running() {
            Some(running) => running.run == run,
            None => false,
        }
    }

    /// Whether a run of the slot can never start any more, in the machine's boot: its claim is of
    /// an earlier boot, or has ended, or it is held and has used or burned the run's number.
    pub(crate) fn is_spent(&self, boot: u64, run: RunNo) -> bool
        ensures { result ≡ is_spent self.now boot run }
    {
        run.claim.boot < boot
            || (run.claim.boot == boot && run.claim.seq <= self.passed)
            || self.has_used(run)
    }

    fn has_used(&self, run: RunNo) -> bool
        ensures { result ≡ is_used_in self.now.held run }
    {
        match &self.held {
            Some(held) => held.claim.no == run.claim && run.number <= held.last,
            None => false,
        }
    }

    /// The slot's pair becomes, at a reading, the one to which the cue leads; it stays where the
    /// cue leads nowhere. Computes in O(1), without memory.
    pub fn enter(&mut self, cue: Cue, reading: u64)
        ensures { self.new ≡ after_cue cue reading self.old }
    {
        if let Some(pair) = next(self.pair, cue) {
            self.pair = pair;
            self.entered = reading;
        }
    }

    /// The held claim ends. Computes in O(1), without memory.
    pub fn end_claim(&mut self)
        ensures { self.new ≡ without_claim self.old }
    {
        if let Some(held) = &self.held {
            self.passed = self.passed.max(held.claim.no.seq);
        }
        self.held = None;
    }

    /// The claim is held from now on; its run is still to come.
    pub(crate) fn hold(&mut self, claim: ClaimId, user: Text, rank: i64, reading: u64)
        ensures { self.new ≡ with_claim claim user rank reading self.old }
    {
        self.held = Some(Held {
            claim,
            user,
            rank,
            last: 0,
            running: None,
            ended: None,
            heard: reading,
        });
    }

    /// The slot's held claim, where it is this one.
    pub(crate) fn held_of(&self, claim: ClaimNo) -> Option<&Held>
        ensures { option_copied result ≡ held_of self.now claim }
    {
        let Some(held) = &self.held else {
            return None;
        };
        if held.claim.no == claim {
            Some(held)
        } else {
            None
        }
    }

    /// The claim was heard of, where it is the one that the slot holds.
    pub(crate) fn hear_of(&mut self, claim: ClaimNo, reading: u64)
        ensures { self.new ≡ heard_of claim reading self.old }
    {
        if let Some(held) = &mut self.held {
            held.hear_of(claim, reading);
        }
    }

    /// The held claim has used or burned the number.
    pub(crate) fn use_number(&mut self, number: u64)
        ensures { self.new ≡ with_number number self.old }
    {
        if let Some(held) = &mut self.held {
            held.last = held.last.max(number);
        }
    }

    /// The held claim's run is this one.
    pub(crate) fn put_run(&mut self, running: Running)
        ensures { self.new ≡ with_run running self.old }
    {
        if let Some(held) = &mut self.held {
            held.running = Some(running);
        }
    }

    /// The run's lease goes on until then, unless that is past or sooner than its end.
    pub(crate) fn lengthen(&mut self, until: u64, reading: u64)
        ensures { self.new ≡ with_running (lengthened until reading) self.old }
    {
        if let Some(held) = &mut self.held {
            held.lengthen(until, reading);
        }
    }

    /// The end of the lease of the run on the slot.
    pub(crate) fn until(&self, until: u64) -> u64
        ensures { result ≡ until_of self.now until }
    {
        match self.running() {
            Some(running) => running.until,
            None => until,
        }
    }

    /// The run is marked as stopped, unless it is marked already.
    pub(crate) fn mark_stopped(&mut self)
        ensures { self.new ≡ with_running stopped self.old }
    {
        if let Some(held) = &mut self.held {
            held.mark_stopped();
        }
    }

    /// The run on the slot is marked as evicted. Computes in O(1), without memory.
    pub fn mark_evicted(&mut self)
        ensures { self.new ≡ with_running evicted self.old }
    {
        if let Some(held) = &mut self.held {
            held.mark_evicted();
        }
    }

    /// The run has left the slot.
    pub(crate) fn end_run(&mut self, run: RunNo, how: How, reading: u64)
        ensures { self.new ≡ without_run run how reading self.old }
    {
        if let Some(held) = &mut self.held {
            held.end_run(run, how, reading);
        }
    }
}

/// Whether the pair is Claimed/Busy.
pub(crate) fn is_busy(pair: Pair) -> bool
    ensures { result ≡ is_busy pair }
{
    match pair {
        Pair::ClaimedBusy => true,
        _ => false,
    }
}

/// Whether a claim is offered in a pair. Computes in O(1), without memory.
pub fn is_open(pair: Pair) -> bool
    ensures { result ≡ is_open pair }
{
    match pair {
        Pair::UnclaimedIdle | Pair::MatchedIdle | Pair::ClaimedIdle | Pair::ClaimedBusy => true,
        Pair::OwnerIdle
        | Pair::ClaimedRetiring
        | Pair::PreemptingVacating
        | Pair::PreemptingKilling => false,
    }
}
