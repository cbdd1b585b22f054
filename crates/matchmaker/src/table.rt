ghost use Rattle.std.specs.Prelude.{◌≡◌, ◌<◌, ◌↔◌, map, IsTrue, OnOk, OnErr, IfSome};
ghost use Rattle.matchmaker.specs.Accounts.{lookup, with_standing, IsFullFor, IsStanding};
ghost use Rattle.matchmaker.specs.Tables.{named_users, IsUserTable, entry_after};

use crate::accountant::MAX_USERS;
use crate::standing::Standing;
use indexmap::IndexMap;
use std::alloc::{AllocError, Global};

pub(crate) type UserTable = IndexMap<String, Standing>;

// How a user stands who is known.
pub(crate) fn standing_in(users: &UserTable, user: &str) -> Option<Standing>
    requires { IsUserTable users.now.entries }
    ensures found { result ≡ lookup user.now (named_users users.now.entries) }
    ensures within { IfSome result IsStanding }
{
    users.get(user).copied()
}

// A user stands so; a new one comes last.
pub(crate) fn put(
    users: &mut UserTable,
    alloc: Global,
    user: &str,
    standing: Standing,
) -> Result<(), AllocError>
    requires table { IsUserTable users.old.entries }
    requires room { ¬ IsFullFor user.now (named_users users.old.entries) }
    requires standing { IsStanding standing }
    ensures ok { OnOk result (named_users users.new.entries
        ≡ with_standing user.now standing (named_users users.old.entries)) }
    ensures table { OnOk result (IsUserTable users.new.entries) }
    ensures err { OnErr result (users.new.entries ≡ users.old.entries) }
{
    if let Some(known) = users.get_mut(user) {
        *known = standing;
        return Ok(());
    }
    let name = String::from_str(alloc, user)?;
    users.insert(name, standing)?;
    Ok(())
}

// Whether a user would be one too many.
pub(crate) fn is_full_for(users: &UserTable, user: &str) -> bool
    ensures { IsTrue result ↔ IsFullFor user.now (named_users users.now.entries) }
{
    users.len() == MAX_USERS && !users.contains_key(user)
}

// Every user stands so many ticks later.
pub(crate) fn advance_all(users: &mut UserTable, ticks: u64)
    requires { IsUserTable users.old.entries }
    ensures later { named_users users.new.entries
        ≡ map (entry_after ticks) (named_users users.old.entries) }
    ensures table { IsUserTable users.new.entries }
{
    'users: for place in 0..users.len() {
        let standing = users[place];
        users[place] = standing.after(ticks);
    }
}
