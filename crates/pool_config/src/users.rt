// Users and their numbers, found by their names.

ghost use Rattle.std.specs.Prelude.{◌≡◌, [], IfOk, OnOk, string_bytes};
ghost use Rattle.pool_config.specs.Settings.{with_user};
ghost use Rattle.pool_config.specs.Users.{users_of};

use ad_value::{Memory, Text, UserNumber, UserNumberList};
use indexmap::IndexMap;
use std::alloc::Global;
use std::marker::Model;

/// Users and their numbers, in the order in which the users came, no two of one name. Contracts see
/// the list of them.
pub(crate) struct Users {
    entries: IndexMap<String, u32>,
}

impl Drop for Users {
    fn drop(self) {
        let Users { entries: _entries } = self;
    }
}

impl Model for Users {
    ghost use Rattle.std.specs.Prelude.{List};
    ghost use Rattle.ad_value.specs.declared.user_number.UserNumber.{UserNumber};
    ghost use Rattle.pool_config.specs.Users.{users_of};

    ghost Value = { List UserNumber };

    ghost view = { λ u. users_of u.entries.entries };
}

impl Users {
    /// No users, without memory. Computes in O(1).
    pub(crate) fn new(alloc: Global) -> Users
        ensures { result ≡ [] }
    {
        Users {
            entries: IndexMap::new(alloc),
        }
    }

    /// Gives a user a number. One who is there keeps the place, and a new one comes last. Computes
    /// in O(bytes) on average, where names do not collide. An error leaves them as they were.
    pub(crate) fn set(&mut self, alloc: Global, user: &str, number: u32) -> Result<(), Memory>
        ensures { OnOk result (self.new ≡ with_user user.now number self.old) }
    {
        let user = String::from_str(alloc, user)?;
        put(&mut self.entries, user, number)
    }

    /// The same as a list. Computes in O(users).
    pub(crate) fn list(&self, alloc: Global) -> Result<UserNumberList, Memory>
        ensures { IfOk result (λ l. l ≡ self.now) }
    {
        let mut list = UserNumberList::new(alloc);
        for (user, number) in self.entries.iter() {
            let user = Text::from_str(alloc, user.as_str())?;
            list.push(UserNumber {
                user,
                number: *number,
            })?;
        }
        Ok(list)
    }
}

fn put(entries: &mut IndexMap<String, u32>, user: String, number: u32) -> Result<(), Memory>
    ensures { OnOk result (
        users_of entries.new.entries
        ≡ with_user (string_bytes user) number (users_of entries.old.entries)) }
{
    entries.insert(user, number)?;
    Ok(())
}
