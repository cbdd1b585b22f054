ghost use Rattle.std.specs.Prelude.{◌≡◌, ◌<◌, ◌||◌, [], true, false, None, Some, slice_get, IfOk, OnErr};
ghost use Rattle.std.specs.Option.{option_copied};
ghost use Rattle.startd_slot.specs.declared.slot.Slot.{Slot};
ghost use Rattle.startd_core.specs.DueTicks.{is_due, hangs_on_start};
ghost use Rattle.startd_core.specs.Offers.{has_entered};
ghost use Rattle.startd_core.specs.PreparedStartds.{startd_after, after_prepared};
ghost use Rattle.startd_core.specs.Sound.{IsSound};
ghost use Rattle.startd_core.specs.Startds.{with_slot, place_of, slot_of, after_mail, stranger_step, received_at, after_end, ended_at, made_by, after_made, judges, after_tick, after_reboot};

use crate::answer::{StartdAnswer, StartdStep, kill_answer, nothing_done};
use crate::conclude::{Made, has_entered, made_by};
use crate::due::is_any_due;
use crate::offers::Machine;
use crate::prepared::{PreparedStartd, SlotsChange, StartdChange};
use crate::ticks::{boot_slots, tick_slots};
use ad_eval::Judged;
use ad_tree::Ad;
use ad_value::{Copied, Memory, Text};
use claim_id::SlotId;
use pool_mail::{Ending, Mail, Settings};
use startd_slot::{Reaction, Slot, SlotState, claim_of, is_judged, react, react_to_end};
use std::alloc::Global;
use std::marker::Model;

/// A machine's startd: its slots, in order, and what they keep. Contracts see it as a
/// `StartdValue`, of which `IsSound` always holds. Its copy computes in O(slots, the bytes of their
/// texts, and a byte for each attribute of their ads), with memory, and shares the attributes.
pub struct Startd {
    machine: Machine,
    settings: Settings,
    // How many claims the machine has offered, over all its boots.
    offers: u64,
    slots: Vec<Slot>,
    // The reading of the last tick of this boot.
    ticked: Option<u64>,
    // Whether a slot entered Owner, Retiring or Vacating in the last tick or after it.
    restless: bool,
}

impl Drop for Startd {
    fn drop(self) {
        let Startd {
            machine: _,
            settings: _,
            offers: _,
            slots: _slots,
            ticked: _,
            restless: _,
        } = self;
    }
}

impl Model for Startd {
    ghost use Rattle.std.specs.Coded.{codes};
    ghost use Rattle.pool_mail.specs.contracts.settings.Settings as of_settings;
    ghost use Rattle.startd_core.specs.contracts.offers.Machine as of_machine;
    ghost use Rattle.startd_slot.specs.contracts.slot.Slot as of_slot;
    ghost use Rattle.startd_core.specs.Startds.{StartdValue, startd_value};
    ghost use Rattle.startd_core.specs.Sound.{IsSound};

    ghost Value = { StartdValue };

    ghost coded = { Prim.hlevel
        (codes, of_settings.the_row.coded, of_machine.the_row.coded, of_slot.the_row.coded) };

    ghost view = { λ s. startd_value s.machine s.settings s.offers s.slots.items s.ticked
        s.restless };

    ghost invariant = { λ s. IsSound (startd_value s.machine s.settings s.offers s.slots.items
        s.ticked s.restless) };
}

impl Copied for Startd {
    fn copy(&self, alloc: Global) -> Result<Startd, Memory> {
        let slots = copy_slots(alloc, &self.slots)?;
        Ok(Startd {
            machine: self.machine,
            settings: self.settings,
            offers: self.offers,
            slots,
            ticked: self.ticked,
            restless: self.restless,
        })
    }
}

impl Startd {
    /// A startd that has just booted, without slots. Computes in O(1), without memory.
    pub fn new(
        alloc: Global,
        machine: u16,
        boot: u64,
        secret_key: u64,
        settings: Settings,
    ) -> Startd
        ensures { result ≡ record {
          machine = record { number = machine; boot = boot; secret_key = secret_key };
          settings = settings;
          offers = 0;
          slots = [];
          ticked = None;
          restless = false;
        } }
    {
        Startd {
            machine: Machine {
                number: machine,
                boot,
                secret_key,
            },
            settings,
            offers: 0,
            slots: Vec::new(alloc),
            ticked: None,
            restless: false,
        }
    }

    /// One more slot, in Owner/Idle. Memory too where there are 65535 slots. Computes in O(1) on
    /// average. After an error the startd is as it was.
    pub fn add_slot(&mut self, name: Text, ad: Ad) -> Result<(), Memory>
        ensures added { IfOk result (λ _. self.new ≡ with_slot name ad self.old) }
        ensures kept { OnErr result (self.new ≡ self.old) }
    {
        let Ok(place) = u16::try_from(self.slots.len()) else {
            return Err(Memory);
        };
        let Some(number) = place.checked_add(1) else {
            return Err(Memory);
        };
        let id = SlotId {
            machine: self.machine.number,
            slot: number,
        };
        let state = SlotState::after_boot(0);
        let slot = Slot {
            id,
            name,
            ad,
            state,
        };
        self.slots.push(slot)?;
        Ok(())
    }

    /// What always holds of a startd: its slots have the numbers of their places, and each one's
    /// pair, claims and run agree. Computes nothing.
    pub fn soundness(&self)
        ensures { IsSound self.now }
    {
        let _ = &self.slots;
    }

    /// The slots, in order. Computes in O(1), without memory.
    pub fn slots(&self) -> &[Slot]
        ensures { result.now ≡ self.now.slots }
    {
        self.slots.as_slice()
    }

    // The place of a slot of this machine.
    fn place_of(&self, slot: SlotId) -> Option<usize>
        ensures { result ≡ place_of self.now slot }
    {
        let count = self.slots.len();
        if slot.machine == self.machine.number && 0 < slot.slot && usize::from(slot.slot) <= count {
            Some(usize::from(slot.slot) - 1)
        } else {
            None
        }
    }

    fn slot_of(&self, slot: SlotId) -> Option<&Slot>
        ensures { option_copied result ≡ slot_of self.now slot }
    {
        let place = self.place_of(slot)?;
        self.slot_at(place)
    }

    fn slot_at(&self, place: usize) -> Option<&Slot>
        ensures { option_copied result ≡ slice_get self.now.slots place }
    {
        self.slots.get(place)
    }

    /// The slot with whose ad the mail is judged at a reading; none where it isn't judged. Computes
    /// in O(1), without memory.
    pub fn judges(&self, mail: &Mail, reading: u64) -> Option<SlotId>
        ensures { result ≡ judges self.now mail.now reading }
    {
        let slot = self.slot_of(claim_of(mail)?.slot)?;
        is_judged(self.machine.boot, slot, mail, reading).then_some(slot.id)
    }

    // What becomes of the slots, where a slot may have entered Owner, Retiring or Vacating.
    fn change(&self, slots: SlotsChange, offers: u64, restless: bool) -> StartdChange
        ensures { result ≡ record {
          boot = self.now.machine.boot;
          offers = offers;
          slots = slots;
          ticked = self.now.ticked;
          restless = restless;
        } }
    {
        StartdChange {
            boot: self.machine.boot,
            offers,
            slots,
            ticked: self.ticked,
            restless,
        }
    }

    // The startd stays as it is.
    fn prepare_step(&self, step: StartdStep) -> PreparedStartd
        ensures { after_prepared result self.now ≡ record { startd = self.now; step = step } }
    {
        PreparedStartd {
            change: self.change(SlotsChange::Same, self.offers, self.restless),
            step,
        }
    }

    /// A mail is received. `judged` is what `judge` gives of the mail's ad and the ad of the slot
    /// that `judges` names, at the reading. Memory too where a count of 64 bits is at its end.
    /// After an error the startd is as it was. Computes in O(attributes of the mail's ad), and an
    /// evaluation of Rank for an Ask.
    pub fn receive(
        &mut self,
        alloc: Global,
        mail: &Mail,
        judged: Option<Judged>,
        reading: u64,
    ) -> Result<StartdStep, Memory>
        ensures startd { IfOk result (λ _. self.new
            ≡ (after_mail self.old mail.now judged reading).startd) }
        ensures step { IfOk result (λ step. step
            ≡ (after_mail self.old mail.now judged reading).step) }
        ensures kept { OnErr result (self.new ≡ self.old) }
    {
        let prepared = self.prepare_receive(alloc, mail, judged, reading)?;
        Ok(self.commit(prepared))
    }

    /// `receive` but for its `commit`: takes the memory, and changes nothing.
    pub fn prepare_receive(
        &self,
        alloc: Global,
        mail: &Mail,
        judged: Option<Judged>,
        reading: u64,
    ) -> Result<PreparedStartd, Memory>
        ensures startd { IfOk result (λ p. startd_after p self.now
            ≡ (after_mail self.now mail.now judged reading).startd) }
        ensures step { IfOk result (λ p. p.step
            ≡ (after_mail self.now mail.now judged reading).step) }
        ensures sound { IfOk result (λ p. IsSound (startd_after p self.now)) }
    {
        self.soundness();
        let prepared = self.take_mail(alloc, mail, judged, reading)?;
        Ok(prepared)
    }

    fn take_mail(
        &self,
        alloc: Global,
        mail: &Mail,
        judged: Option<Judged>,
        reading: u64,
    ) -> Result<PreparedStartd, Memory>
        ensures { IfOk result (λ p. after_prepared p self.now
            ≡ after_mail self.now mail.now judged reading) }
    {
        let Some(claim) = claim_of(mail) else {
            return Ok(self.prepare_step(nothing_done(alloc)));
        };
        match self.place_of(claim.slot) {
            Some(place) => self.take_mail_at(alloc, place, mail, judged, reading),
            None => {
                let step = answer_stranger(alloc, self.machine, mail, reading)?;
                Ok(self.prepare_step(step))
            }
        }
    }

    fn take_mail_at(
        &self,
        alloc: Global,
        place: usize,
        mail: &Mail,
        judged: Option<Judged>,
        reading: u64,
    ) -> Result<PreparedStartd, Memory>
        ensures { IfOk result (λ p. after_prepared p self.now
            ≡ received_at self.now place (slice_get self.now.slots place) mail.now judged reading) }
    {
        let Some(slot) = self.slot_at(place) else {
            return Ok(self.prepare_step(nothing_done(alloc)));
        };
        let reaction = react(alloc, self.machine.boot, slot, mail, judged, reading)?;
        let prepared = self.take_reaction(alloc, place, slot, reaction, reading)?;
        Ok(prepared)
    }

    // The slot of a place is to become what a reaction comes to.
    fn take_reaction(
        &self,
        alloc: Global,
        place: usize,
        slot: &Slot,
        reaction: Reaction,
        reading: u64,
    ) -> Result<PreparedStartd, Memory>
        requires { slice_get self.now.slots place ≡ Some slot.now }
        ensures { IfOk result (λ p. after_prepared p self.now ≡ after_made self.now place
            (made_by self.now.machine self.now.offers slot.now reaction reading)) }
    {
        let made = made_by(alloc, self.machine, self.offers, slot, reaction, reading)?;
        Ok(self.put_made(place, slot, made))
    }

    // The slot of a place is to become what was made of it.
    #[tactic(auto, unfolding(crate::specs::Startds::put_at))]
    fn put_made(&self, place: usize, slot: &Slot, made: Made) -> PreparedStartd
        requires { slice_get self.now.slots place ≡ Some slot.now }
        ensures { after_prepared result self.now ≡ after_made self.now place made }
    {
        let Made { conclusion, answer } = made;
        let (state, offers, mails) = conclusion.into_parts();
        let restless = self.restless || has_entered(&slot.state, &state);
        PreparedStartd {
            change: self.change(SlotsChange::Slot { place, state }, offers, restless),
            step: StartdStep { mails, answer },
        }
    }

    /// A run's program has ended. Memory too where a count of 64 bits is at its end. After an error
    /// the startd is as it was. Computes in O(1).
    pub fn ended(
        &mut self,
        alloc: Global,
        ending: &Ending,
        reading: u64,
    ) -> Result<StartdStep, Memory>
        ensures startd { IfOk result (λ _. self.new
            ≡ (after_end self.old ending.now reading).startd) }
        ensures step { IfOk result (λ step. step ≡ (after_end self.old ending.now reading).step) }
        ensures kept { OnErr result (self.new ≡ self.old) }
    {
        let prepared = self.prepare_ended(alloc, ending, reading)?;
        Ok(self.commit(prepared))
    }

    /// `ended` but for its `commit`: takes the memory, and changes nothing.
    pub fn prepare_ended(
        &self,
        alloc: Global,
        ending: &Ending,
        reading: u64,
    ) -> Result<PreparedStartd, Memory>
        ensures startd { IfOk result (λ p. startd_after p self.now
            ≡ (after_end self.now ending.now reading).startd) }
        ensures step { IfOk result (λ p. p.step ≡ (after_end self.now ending.now reading).step) }
        ensures sound { IfOk result (λ p. IsSound (startd_after p self.now)) }
    {
        self.soundness();
        let prepared = self.take_end(alloc, ending, reading)?;
        Ok(prepared)
    }

    fn take_end(
        &self,
        alloc: Global,
        ending: &Ending,
        reading: u64,
    ) -> Result<PreparedStartd, Memory>
        ensures { IfOk result (λ p. after_prepared p self.now
            ≡ after_end self.now ending.now reading) }
    {
        match self.place_of(ending.run.claim.slot) {
            Some(place) => self.take_end_at(alloc, place, ending, reading),
            None => Ok(self.prepare_step(nothing_done(alloc))),
        }
    }

    fn take_end_at(
        &self,
        alloc: Global,
        place: usize,
        ending: &Ending,
        reading: u64,
    ) -> Result<PreparedStartd, Memory>
        ensures { IfOk result (λ p. after_prepared p self.now
            ≡ ended_at self.now place (slice_get self.now.slots place) ending.now reading) }
    {
        let Some(slot) = self.slot_at(place) else {
            return Ok(self.prepare_step(nothing_done(alloc)));
        };
        if !slot.state.runs(ending.run) {
            return Ok(self.prepare_step(nothing_done(alloc)));
        }
        let reaction = react_to_end(alloc, &slot.state, ending, reading)?;
        let prepared = self.take_reaction(alloc, place, slot, reaction, reading)?;
        Ok(prepared)
    }

    /// Whether a tick is due at a reading: at the first turn after a boot; where a slot entered
    /// Owner, Retiring or Vacating in the last tick or after it; and at a reading later than the
    /// last tick's, where the state of a slot or an Update would come. Memory only where that hangs
    /// on the Start of a slot; a tick is then to be tried (`is_tick_tried`). Computes in O(slots),
    /// with an evaluation of Start for each slot that nobody has claimed.
    pub fn due(&self, alloc: Global, reading: u64) -> Result<bool, Memory>
        ensures due { IfOk result (λ due. due ≡ is_due self.now reading) }
        ensures refused { OnErr result (hangs_on_start self.now reading ≡ true) }
    {
        let Some(ticked) = self.ticked else {
            return Ok(true);
        };
        if self.restless {
            return Ok(true);
        }
        if reading <= ticked {
            return Ok(false);
        }
        is_any_due(alloc, &self.slots, &self.settings, reading)
    }

    /// Time passes. Memory too where a count of 64 bits is at its end. After an error the startd is
    /// as it was. Computes in O(slots), with an evaluation of Start for each slot that nobody has
    /// claimed.
    pub fn tick(&mut self, alloc: Global, reading: u64) -> Result<StartdStep, Memory>
        ensures startd { IfOk result (λ _. self.new ≡ (after_tick self.old reading).startd) }
        ensures step { IfOk result (λ step. step ≡ (after_tick self.old reading).step) }
        ensures kept { OnErr result (self.new ≡ self.old) }
    {
        let prepared = self.prepare_tick(alloc, reading)?;
        Ok(self.commit(prepared))
    }

    /// `tick` but for its `commit`: takes the memory, and changes nothing.
    pub fn prepare_tick(&self, alloc: Global, reading: u64) -> Result<PreparedStartd, Memory>
        ensures startd { IfOk result (λ p. startd_after p self.now
            ≡ (after_tick self.now reading).startd) }
        ensures step { IfOk result (λ p. p.step ≡ (after_tick self.now reading).step) }
        ensures sound { IfOk result (λ p. IsSound (startd_after p self.now)) }
    {
        self.soundness();
        let prepared = self.take_tick(alloc, reading)?;
        Ok(prepared)
    }

    fn take_tick(&self, alloc: Global, reading: u64) -> Result<PreparedStartd, Memory>
        ensures { IfOk result (λ p. after_prepared p self.now
            ≡ after_tick self.now reading) }
    {
        let ticks = tick_slots(
            alloc,
            self.machine,
            &self.settings,
            &self.slots,
            reading,
            self.offers,
        )?;
        let (slots, offers, mails, killed, restless) = ticks.into_parts();
        let change = StartdChange {
            boot: self.machine.boot,
            offers,
            slots: SlotsChange::All(slots.into_vec()),
            ticked: Some(reading),
            restless,
        };
        let answer = kill_answer(killed);
        Ok(PreparedStartd {
            change,
            step: StartdStep { mails, answer },
        })
    }

    /// The machine boots anew: no slot has a claim. Memory too where the boot is the last number of
    /// 64 bits. After an error the startd is as it was. Computes in O(slots).
    pub fn reboot(&mut self, alloc: Global, reading: u64) -> Result<StartdStep, Memory>
        ensures startd { IfOk result (λ _. self.new ≡ (after_reboot self.old reading).startd) }
        ensures step { IfOk result (λ step. step ≡ (after_reboot self.old reading).step) }
        ensures kept { OnErr result (self.new ≡ self.old) }
    {
        let prepared = self.prepare_reboot(alloc, reading)?;
        Ok(self.commit(prepared))
    }

    /// `reboot` but for its `commit`: takes the memory, and changes nothing.
    pub fn prepare_reboot(&self, alloc: Global, reading: u64) -> Result<PreparedStartd, Memory>
        ensures startd { IfOk result (λ p. startd_after p self.now
            ≡ (after_reboot self.now reading).startd) }
        ensures step { IfOk result (λ p. p.step ≡ (after_reboot self.now reading).step) }
        ensures sound { IfOk result (λ p. IsSound (startd_after p self.now)) }
    {
        self.soundness();
        let prepared = self.take_boot(alloc, reading)?;
        Ok(prepared)
    }

    fn take_boot(&self, alloc: Global, reading: u64) -> Result<PreparedStartd, Memory>
        ensures { IfOk result (λ p. after_prepared p self.now
            ≡ after_reboot self.now reading) }
    {
        let Some(boot) = self.machine.boot.checked_add(1) else {
            return Err(Memory);
        };
        let ticks = boot_slots(alloc, &self.slots, reading, self.offers)?;
        let (slots, _, mails, _killed, _) = ticks.into_parts();
        let change = StartdChange {
            boot,
            offers: self.offers,
            slots: SlotsChange::All(slots.into_vec()),
            ticked: None,
            restless: false,
        };
        let answer = StartdAnswer::Done;
        Ok(PreparedStartd {
            change,
            step: StartdStep { mails, answer },
        })
    }

    /// What was prepared happens, without memory, which can't fail; what is sent and done. Computes
    /// in O(slots).
    pub fn commit(&mut self, prepared: PreparedStartd) -> StartdStep
        requires { IsSound (startd_after prepared self.old) }
        ensures startd { self.new ≡ startd_after prepared self.old }
        ensures step { result ≡ prepared.step }
    {
        let (change, step) = prepared.into_parts();
        let StartdChange {
            boot,
            offers,
            slots,
            ticked,
            restless,
        } = change;
        slots.commit(&mut self.slots);
        self.machine.boot = boot;
        self.offers = offers;
        self.ticked = ticked;
        self.restless = restless;
        step
    }
}

fn copy_slots(alloc: Global, slots: &[Slot]) -> Result<Vec<Slot>, Memory>
    ensures { IfOk result (λ copied. copied.items ≡ slots.now) }
{
    let mut copied = Vec::new(alloc);
    for slot in slots {
        copied.push(slot.copy(alloc)?)?;
    }
    Ok(copied)
}

// A mail that speaks of a slot which the machine doesn't have.
fn answer_stranger(
    alloc: Global,
    machine: Machine,
    mail: &Mail,
    reading: u64,
) -> Result<StartdStep, Memory>
    ensures { IfOk result (λ step. step ≡ stranger_step machine mail.now reading) }
{
    let nowhere = Slot {
        id: SlotId {
            machine: machine.number,
            slot: 0,
        },
        name: Text::new(alloc),
        ad: Ad::new(alloc),
        state: SlotState::after_boot(reading),
    };
    let Reaction { mails, .. } = react(alloc, machine.boot, &nowhere, mail, None, reading)?;
    Ok(StartdStep {
        mails,
        answer: StartdAnswer::Done,
    })
}
