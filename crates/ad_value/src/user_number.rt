use crate::copied::Copied;
use crate::memory::Memory;
use crate::seq::Seq;
use crate::text::Text;
use std::alloc::Global;

/// A number that a user was given.
#[derive(Drop)]
pub struct UserNumber {
    /// The user's name, with case.
    pub user: Text,
    pub number: u32,
}

/// A list of users and their numbers.
pub type UserNumberList = Seq<UserNumber>;

impl Copied for UserNumber {
    fn copy(&self, alloc: Global) -> Result<UserNumber, Memory> {
        Ok(UserNumber {
            user: self.user.copy(alloc)?,
            number: self.number,
        })
    }
}
