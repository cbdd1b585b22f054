ghost use Rattle.std.specs.Prelude.{◌≡◌, ◌≢◌, ◌≤◌, ◌<◌, ◌*◌, ◌↔◌, [], ℕ, Err, IsTrue, IsErrOf, IsOk, OnOk, OnErr};
ghost use Rattle.matchmaker.specs.declared.account_error.PriorityError.TheVariants as error;
ghost use Rattle.matchmaker.specs.Accounts.{accounts_at, changed_for, charged, with_factor, with_ceiling, standing_of, with_standing, IsFullFor, IsStanding};

use crate::account_error::PriorityError;
use crate::standing::{MAX_FACTOR, MAX_SLOTS, Standing};
use crate::table::{UserTable, advance_all, is_full_for, put, standing_in};
use indexmap::IndexMap;
use std::alloc::Global;
use std::marker::Model;

/// How many users an accountant keeps at most.
pub const MAX_USERS: usize = 4096;

/// The accounts of a pool's users, at a tick (HTCondor manual, condor_userprio). Contracts see
/// them as `Accounts`.
#[derive(Drop)]
pub struct Accountant {
    at_tick: u64,
    users: UserTable,
}

impl Model for Accountant {
    ghost use Rattle.std.specs.Coded.{codes};
    ghost use Rattle.matchmaker.specs.contracts.standing.Standing as standing;
    ghost use Rattle.matchmaker.specs.Accounts.{Accounts};
    ghost use Rattle.matchmaker.specs.Tables.{named_users, IsUserTable};

    ghost Value = { Accounts };

    ghost coded = { Prim.hlevel (codes, standing.the_row.coded) };

    ghost view = { λ a. record { at_tick = a.at_tick; users = named_users a.users.entries } };

    ghost invariant = { λ a. IsUserTable a.users.entries };
}

impl Accountant {
    /// Accounts without users. Takes no memory.
    pub fn new(alloc: Global, at_tick: u64) -> Accountant
        ensures { result ≡ record { at_tick = at_tick; users = [] } }
    {
        Accountant {
            at_tick,
            users: IndexMap::new(alloc),
        }
    }

    /// The tick at which the accounts are. Computes in O(1).
    pub fn at_tick(&self) -> u64
        ensures { result ≡ self.now.at_tick }
    {
        self.at_tick
    }

    /// How a user stands; one who is not known as a new one. Computes in O(bytes of the name),
    /// without memory.
    pub fn standing(&self, user: &str) -> Standing
        ensures standing { result ≡ standing_of user.now self.now.users }
        ensures within { IsStanding result }
    {
        match standing_in(&self.users, user) {
            Some(standing) => standing,
            None => Standing::new(),
        }
    }

    /// The effective priority of a user: the real one times the factor, in millionths; lower is
    /// better. Computes in O(bytes of the name), without memory.
    pub fn effective(&self, user: &str) -> u64
        ensures { let s = standing_of user.now self.now.users in result ≡ s.real * s.factor }
    {
        let standing = self.standing(user);
        standing.real * u64::from(standing.factor)
    }

    /// Whether a user would be one too many. Computes in O(bytes of the name), without memory.
    pub fn is_full_for(&self, user: &str) -> bool
        ensures { IsTrue result ↔ IsFullFor user.now self.now.users }
    {
        is_full_for(&self.users, user)
    }

    /// Sets the slots that a user has in use from this tick on. Computes in O(bytes of the name).
    /// An error leaves the accounts as they were.
    pub fn charge(&mut self, alloc: Global, user: &str, slots: u32) -> Result<(), PriorityError>
        requires slots { slots ≤ MAX_SLOTS }
        ensures charged { OnOk result (self.new ≡ changed_for user.now (charged slots) self.old) }
        ensures users { IsErrOf result error.Users ↔ IsFullFor user.now self.old.users }
        ensures forward { (asked at : ℕ) → result ≢ Err (error.Backward asked at) }
        ensures same { OnErr result (self.new ≡ self.old) }
    {
        let standing = self.standing(user);
        let in_use = slots;
        self.set(alloc, user, Standing { in_use, ..standing })
    }

    /// Sets the factor of a user. Computes in O(bytes of the name). An error leaves the accounts as
    /// they were.
    pub fn set_factor(
        &mut self,
        alloc: Global,
        user: &str,
        factor: u32,
    ) -> Result<(), PriorityError>
        requires least { 1 ≤ factor }
        requires most { factor ≤ MAX_FACTOR }
        ensures given { OnOk result
            (self.new ≡ changed_for user.now (with_factor factor) self.old) }
        ensures users { IsErrOf result error.Users ↔ IsFullFor user.now self.old.users }
        ensures forward { (asked at : ℕ) → result ≢ Err (error.Backward asked at) }
        ensures same { OnErr result (self.new ≡ self.old) }
    {
        let standing = self.standing(user);
        self.set(alloc, user, Standing { factor, ..standing })
    }

    /// Sets the slots that a user may have at most. Computes in O(bytes of the name). An error
    /// leaves the accounts as they were.
    pub fn set_ceiling(
        &mut self,
        alloc: Global,
        user: &str,
        slots: u32,
    ) -> Result<(), PriorityError>
        requires slots { slots ≤ MAX_SLOTS }
        ensures given { OnOk result
            (self.new ≡ changed_for user.now (with_ceiling slots) self.old) }
        ensures users { IsErrOf result error.Users ↔ IsFullFor user.now self.old.users }
        ensures forward { (asked at : ℕ) → result ≢ Err (error.Backward asked at) }
        ensures same { OnErr result (self.new ≡ self.old) }
    {
        let standing = self.standing(user);
        let ceiling = Some(slots);
        self.set(
            alloc,
            user,
            Standing {
                ceiling,
                ..standing
            },
        )
    }

    // A user stands so.
    fn set(&mut self, alloc: Global, user: &str, standing: Standing) -> Result<(), PriorityError>
        requires within { IsStanding standing }
        ensures set { OnOk result (self.new
            ≡ record self.old { users = with_standing user.now standing self.old.users }) }
        ensures users { IsErrOf result error.Users ↔ IsFullFor user.now self.old.users }
        ensures forward { (asked at : ℕ) → result ≢ Err (error.Backward asked at) }
        ensures same { OnErr result (self.new ≡ self.old) }
    {
        if self.is_full_for(user) {
            return Err(PriorityError::Users);
        }
        put(&mut self.users, alloc, user, standing)?;
        Ok(())
    }

    /// Takes the accounts to a later tick, or leaves them at theirs: the real priorities follow
    /// what is in use, tick by tick. Takes no memory. Computes in O(users times ticks), where a
    /// priority that no longer changes costs nothing more: fewer than 20,000 ticks for each user,
    /// however many pass. An error leaves the accounts as they were.
    pub fn advance(&mut self, to_tick: u64) -> Result<(), PriorityError>
        ensures advanced { OnOk result (self.new ≡ accounts_at to_tick self.old) }
        ensures backward { (result ≡ Err (error.Backward to_tick self.old.at_tick))
            ↔ (to_tick < self.old.at_tick) }
        ensures forward { self.old.at_tick ≤ to_tick → IsOk result }
        ensures same { OnErr result (self.new ≡ self.old) }
    {
        let asked = to_tick;
        let at = self.at_tick;
        let Some(ticks) = asked.checked_sub(at) else {
            return Err(PriorityError::Backward { asked, at });
        };
        advance_all(&mut self.users, ticks);
        self.at_tick = to_tick;
        Ok(())
    }
}
