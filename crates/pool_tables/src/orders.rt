// The orders of the input.

ghost use Rattle.std.specs.Prelude.{◌≡◌, map, position, IfOk};
ghost use Rattle.std.specs.Option.{option_copied};
ghost use Rattle.pool_tables.specs.OrderTables.{is_due_for, is_open, is_unreceived, given_by, not_given, order_mail, same_verb};

use crate::copies::copy_list;
use crate::mails::Mails;
use crate::sent::Sent;
use ad_value::{Copied, Memory};
use claim_id::{JobId, Verb, Wish};
use pool_mail::Mail;
use std::alloc::Global;
use std::marker::Model;

/// An order of the input, and the number of the mail by which it was given.
#[derive(Clone, Copy)]
pub struct GivenWish {
    pub wish: Wish,
    pub mail: Option<u64>,
}

impl Copied for GivenWish {
    /// An equal value, without memory. Computes in O(1).
    fn copy(&self, _: Global) -> Result<GivenWish, Memory> {
        Ok(*self)
    }
}

/// The orders of the input. Contracts see the list of `GivenWish`es.
#[derive(Drop)]
pub struct Orders {
    list: Vec<GivenWish>,
}

impl Model for Orders {
    ghost use Rattle.std.specs.Prelude.{List};
    ghost use Rattle.pool_tables.specs.declared.orders.GivenWish.{GivenWish};

    ghost Value = { List GivenWish };

    ghost view = { λ o. o.list.items };
}

impl Copied for Orders {
    /// Equal orders. Computes in O(orders).
    fn copy(&self, alloc: Global) -> Result<Orders, Memory> {
        Ok(Orders {
            list: copy_list(alloc, &self.list, 0)?,
        })
    }
}

impl Orders {
    /// The orders of the input, none of them given yet. Computes in O(orders).
    pub fn new(alloc: Global, wishes: &[Wish]) -> Result<Orders, Memory>
        ensures { IfOk result (λ o. o ≡ map not_given wishes.now) }
    {
        Ok(Orders {
            list: wishes.iter().map(|wish| not_given(*wish)).collect(alloc)?,
        })
    }

    /// The orders, in order. Computes in O(1).
    pub fn list(&self) -> &[GivenWish]
        ensures { result.now ≡ self.now }
    {
        self.list.as_slice()
    }

    /// The place of the first order of that verb and job that isn't given and may be given at a
    /// reading. Computes in O(orders).
    pub fn first_due(&self, verb: Verb, job: JobId, reading: u64) -> Option<usize>
        ensures { result ≡ position (is_due_for verb job reading) self.now }
    {
        self.list
            .iter()
            .position(|given| is_due_for(given, verb, job, reading))
    }

    /// The order of a place is given by that mail. Computes in O(1).
    pub fn give(&mut self, place: usize, mail: u64)
        ensures { self.new ≡ given_by place mail self.old }
    {
        give_one(&mut self.list, place, mail);
    }

    /// The place of the first order that wasn't given, or whose mail wasn't received. Computes in
    /// O(orders).
    pub fn first_open(&self, mails: &Mails) -> Option<usize>
        ensures { result ≡ position (is_open mails.now.sent) self.now }
    {
        self.list.iter().position(|given| is_open(given, mails))
    }
}

fn not_given(wish: Wish) -> GivenWish
    ensures { result ≡ not_given wish }
{
    GivenWish { wish, mail: None }
}

fn give_one(list: &mut Vec<GivenWish>, place: usize, mail: u64)
    ensures { list.new.items ≡ given_by place mail list.old.items }
{
    if let Some(given) = list.get_mut(place) {
        given.mail = Some(mail);
    }
}

fn is_same_verb(verb: Verb, other: Verb) -> bool
    ensures { result ≡ same_verb verb other }
{
    match (verb, other) {
        (Verb::Remove, Verb::Remove) | (Verb::Hold, Verb::Hold) | (Verb::Resume, Verb::Resume) => {
            true
        }
        _ => false,
    }
}

fn is_due_for(given: &GivenWish, verb: Verb, job: JobId, reading: u64) -> bool
    ensures { result ≡ is_due_for verb job reading given.now }
{
    given.mail.is_none()
        && (is_same_verb(given.wish.verb, verb)
            && (given.wish.job == job && given.wish.at <= reading))
}

fn is_open(given: &GivenWish, mails: &Mails) -> bool
    ensures { result ≡ is_open mails.now.sent given.now }
{
    match given.mail {
        Some(number) => is_unreceived(mails.get(number)),
        None => true,
    }
}

fn is_unreceived(sent: Option<&Sent>) -> bool
    ensures { result ≡ is_unreceived (option_copied sent.entry) }
{
    match sent {
        Some(sent) => sent.received == 0,
        None => true,
    }
}

/// The mail by which an order is given. Computes in O(1).
pub fn order_mail(verb: Verb, job: JobId) -> Mail
    ensures { result ≡ order_mail verb job }
{
    match verb {
        Verb::Remove => Mail::Remove { job },
        Verb::Hold => Mail::Hold { job },
        Verb::Resume => Mail::Resume { job },
    }
}
