ghost use Rattle.std.specs.Prelude.{◌≡◌, ◌≢◌, ◌+◌, ◌<◌, ◌≤◌, ◌^◌, [], ℕ, length, slice_get, true, Some, IfErr, IfOk, IfSome, IsErrOf, OnOk};
ghost use Rattle.std.specs.Option.{option_copied};
ghost use Rattle.pool_tables.specs.declared.refusal.MailError.TheVariants as error;
ghost use Rattle.pool_tables.specs.MailLists.{IsMailTo, IsNextMail, IsOfPool, again, mail_error, mail_refusal, may_receive, after_receipt, with_mail, with_mails};
ghost use Rattle.pool_tables.specs.Repeats.{times_in, times_of};

use crate::copies::{copy_list, copy_numbers};
use crate::links::{box_of, empty_boxes, last_in, next_in, set_last};
use crate::refusal::{MailError, StepError};
use crate::repeats::{Repeats, count_repeats, times_of};
use crate::sent::{Sent, push_spare, receive_once};
use crate::states::is_same_daemon;
use ad_value::{Copied, Memory};
use pool_mail::{Mail, MailList};
use pool_outer::Daemon;
use std::alloc::Global;
use std::marker::Model;

/// All mails ever sent, numbered from 0. Contracts see them as a `MailsValue`.
pub struct Mails {
    sent: Vec<Sent>,
    // Of each mail, the last one before it to the same daemon.
    before: Vec<Option<u64>>,
    // Of each daemon, the last mail to it.
    last: Vec<Option<u64>>,
    repeats: Repeats,
    // For so many mails more there is room.
    spare: usize,
}

impl Drop for Mails {
    fn drop(self) {
        let Mails {
            sent: _sent,
            before: _before,
            last: _last,
            repeats: _repeats,
            spare: _,
        } = self;
    }
}

impl Model for Mails {
    ghost use Rattle.std.specs.Prelude.{length};
    ghost use Rattle.std.specs.Coded.{codes};
    ghost use Rattle.pool_tables.specs.contracts.sent.Sent as of_sent;
    ghost use Rattle.pool_tables.specs.MailLists.{MailsValue};

    ghost Value = { MailsValue };

    ghost coded = { Prim.hlevel (codes, of_sent.the_row.coded) };

    ghost view = { λ m. record {
      sent = m.sent.items;
      boxes = length m.last.items;
      repeats = m.repeats;
      spare = m.spare;
    } };

    ghost use Rattle.pool_tables.specs.Kept.{AreMails};

    ghost invariant = { λ m. AreMails m };
}

impl Copied for Mails {
    /// Equal mails, with room for as many more; their ads share their attributes. Computes in
    /// O(machines + repeats + room + bytes of the mails' texts + attributes of their ads), a byte
    /// for each attribute.
    fn copy(&self, alloc: Global) -> Result<Mails, Memory> {
        let before = copy_numbers(alloc, &self.before, self.spare)?;
        let last = copy_numbers(alloc, &self.last, 0)?;
        let repeats = self.repeats.copy(alloc)?;
        Ok(Mails {
            sent: copy_list(alloc, &self.sent, self.spare)?,
            before,
            last,
            repeats,
            spare: self.spare,
        })
    }
}

impl Mails {
    /// No mails, of a pool of so many machines. A mail may be received once, and once more for each
    /// time that its number is one of `repeats`. Computes in O(machines + repeats * log repeats).
    /// Memory too where a count of 64 bits is at its end.
    #[tactic(auto, using(crate::proofs::Putting::count_empty))]
    pub fn new(alloc: Global, machines: u16, repeats: &[u64]) -> Result<Mails, Memory>
        ensures sent { IfOk result (λ m. m.sent ≡ []) }
        ensures boxes { IfOk result (λ m. m.boxes ≡ machines + 2) }
        ensures repeats { IfOk result
            (λ m. (n : ℕ) → times_of n m.repeats ≡ times_in n repeats.now) }
    {
        Ok(Mails {
            sent: Vec::new(alloc),
            before: Vec::new(alloc),
            last: empty_boxes(alloc, usize::from(machines) + 2)?,
            repeats: count_repeats(alloc, repeats)?,
            spare: 0,
        })
    }

    /// How many mails were sent, which is the number of the next. Computes in O(1).
    pub fn len(&self) -> u64
        ensures { result ≡ length self.now.sent }
    {
        self.sent.len() as u64
    }

    /// The mail of a number. Computes in O(1).
    pub fn get(&self, number: u64) -> Option<&Sent>
        ensures { option_copied result ≡ slice_get self.now.sent number }
    {
        self.sent.get(number as usize)
    }

    /// The least number of a mail to a daemon of the pool that is at least `from`. Computes in
    /// O(mails to it from that number on), without memory.
    #[tactic(auto, using(crate::proofs::Putting::last_is, crate::proofs::Putting::length_boxes))]
    pub fn next(&self, who: Daemon, from: u64) -> Option<u64>
        ensures { IsOfPool who self.now → IsNextMail who from self.now result }
    {
        let place = box_of(who);
        if place >= self.last.len() {
            return None;
        }
        let last = last_in(&self.last, place);
        next_in(&self.sent, &self.before, self.last.len(), place, last, from)
    }

    /// Why a daemon doesn't receive the mail of a number: there is none, it goes to another, or it
    /// was received as often as it may be. Computes in O(log repeats), without memory.
    pub fn refusal(&self, who: Daemon, index: u64) -> Option<StepError>
        ensures { result ≡ mail_refusal who index self.now }
    {
        match self.get(index) {
            None => Some(StepError::NoMail {
                index,
                sent: self.len(),
            }),
            Some(sent) => {
                if !is_same_daemon(who, sent.to) {
                    return Some(StepError::NotYours { index, to: sent.to });
                }
                again(index, self.may_receive(index))
            }
        }
    }

    /// A copy of the mail of a number, which goes to that daemon. Computes in O(attributes).
    pub fn mail(&self, alloc: Global, who: Daemon, index: u64) -> Result<Mail, MailError>
        ensures mail { IfOk result (λ mail. IsMailTo who index self.now mail) }
        ensures refused { IfErr result
            (λ e. e ≢ error.Memory → mail_error who index self.now ≡ Some e) }
        ensures cause { IfSome (mail_error who index self.now) (λ e. IsErrOf result e) }
    {
        let Some(sent) = self.get(index) else {
            return Err(MailError::NoMail {
                index,
                sent: self.len(),
            });
        };
        if !is_same_daemon(who, sent.to) {
            return Err(MailError::NotYours { index, to: sent.to });
        }
        Ok(sent.mail.copy(alloc)?)
    }

    /// Whether the mail of a number may be received once more. Computes in O(log repeats), without
    /// memory.
    pub fn may_receive(&self, number: u64) -> bool
        ensures may { result ≡ may_receive number self.now }
        ensures below { result ≡ true → IfSome (slice_get self.now.sent number)
            (λ s. s.received + 1 < 2 ^ 64) }
    {
        match self.get(number) {
            Some(sent) => sent.received <= times_of(&self.repeats, number),
            None => false,
        }
    }

    /// Makes room for so many mails more. Computes in O(1) where there is room. An error changes
    /// nothing.
    pub fn room(&mut self, count: usize) -> Result<(), Memory>
        ensures room { OnOk result (count ≤ self.new.spare) }
        ensures same { self.new ≡ record self.old { spare = self.new.spare } }
    {
        if self.spare < count {
            self.sent.reserve(count)?;
            self.before.reserve(count)?;
            self.spare = count;
        }
        Ok(())
    }

    /// A mail is sent to a daemon. Computes in O(1), without memory.
    pub fn put(&mut self, mail: Mail, to: Daemon)
        requires { 0 < self.old.spare }
        ensures { self.new ≡ with_mail mail to self.old }
    {
        let number = self.len();
        let place = box_of(to);
        let before = last_in(&self.last, place);
        set_last(&mut self.last, place, number);
        push_spare(&mut self.before, before);
        let now = Sent {
            mail,
            to,
            received: 0,
        };
        push_spare(&mut self.sent, now);
        self.spare -= 1;
    }

    /// Mails are sent, in order, each to whom it goes first. Computes in O(mails), without memory.
    pub fn put_all(&mut self, mails: MailList)
        requires { length mails ≤ self.old.spare }
        ensures { self.new ≡ with_mails mails self.old }
    {
        'mails: for mail in mails.into_vec() {
            let to = mail.receiver();
            self.put(mail, to);
        }
    }

    /// The mail of a number is received once more. No room is left. Computes in O(1), without
    /// memory.
    pub fn receive(&mut self, number: u64)
        requires { IfSome (slice_get self.old.sent number) (λ s. s.received + 1 < 2 ^ 64) }
        ensures { self.new ≡ after_receipt number self.old }
    {
        receive_once(&mut self.sent, number as usize);
        self.spare = 0;
    }
}

fn again(index: u64, may: bool) -> Option<StepError>
    ensures { result ≡ again index may }
{
    if may {
        None
    } else {
        Some(StepError::Again { index })
    }
}
