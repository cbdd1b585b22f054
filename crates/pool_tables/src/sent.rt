ghost use Rattle.std.specs.Prelude.{◌≡◌, ◌+◌, ◌<◌, ◌≤◌, ◌^◌, ◌∷◌, ◌++◌, [], IfSome, slice_get, vec_capacity, vec_len};
ghost use Rattle.pool_tables.specs.MailLists.{with_received};

use ad_value::{Copied, Memory};
use pool_mail::Mail;
use pool_outer::Daemon;
use std::alloc::Global;

/// A mail that was sent.
pub struct Sent {
    pub mail: Mail,
    /// To whom it goes.
    pub to: Daemon,
    /// How often it was received.
    pub received: u64,
}

impl Drop for Sent {
    fn drop(self) {
        let Sent {
            mail: _mail,
            to: _,
            received: _,
        } = self;
    }
}

impl Copied for Sent {
    /// An equal value, whose mail shares its ad's attributes. Computes in O(bytes of the mail's
    /// texts + attributes), a byte for each attribute.
    fn copy(&self, alloc: Global) -> Result<Sent, Memory> {
        Ok(Sent {
            mail: self.mail.copy(alloc)?,
            to: self.to,
            received: self.received,
        })
    }
}

/// The mail of a place was received once more.
pub(crate) fn receive_once(sent: &mut Vec<Sent>, place: usize)
    requires { IfSome (slice_get sent.old.items place) (λ s. s.received + 1 < 2 ^ 64) }
    ensures { sent.new.items ≡ with_received place sent.old.items }
{
    if let Some(sent) = sent.get_mut(place) {
        sent.received += 1;
    }
}

/// One more at the end of a list with room.
pub(crate) fn push_spare<T: Drop>(list: &mut Vec<T>, item: T)
    requires { vec_len list.old < vec_capacity list.old }
    ensures items { list.new.items ≡ list.old.items ++ item ∷ [] }
    ensures len { vec_len list.new ≡ vec_len list.old + 1 }
    ensures capacity { vec_capacity list.old ≤ vec_capacity list.new }
{
    list.push(item).unwrap();
}
