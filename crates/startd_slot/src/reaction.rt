ghost use Rattle.std.specs.Prelude.{◌≡◌, ◌∷◌, ◌++◌, [], IfOk};
ghost use Rattle.startd_slot.specs.Reactions.{becomes, says};

use crate::slot::SlotState;
use ad_value::{Copied, Memory};
use claim_id::{JobId, RunNo};
use pool_mail::{Mail, MailList};
use pool_outer::Launch;
use std::alloc::Global;

/// What is to be done beside the mails.
#[derive(Drop)]
pub enum Task {
    Nothing,
    Launch {
        run: RunNo,
        job: JobId,
        what: Launch,
    },
    Kill {
        run: RunNo,
    },
}

/// What an event makes of a slot.
#[derive(Drop)]
pub struct Reaction {
    pub state: SlotState,
    pub mails: MailList,
    pub task: Task,
}

impl Reaction {
    /// Nothing changes.
    pub(crate) fn none(alloc: Global, state: &SlotState) -> Result<Reaction, Memory>
        ensures { IfOk result (λ done. done ≡ becomes state.now) }
    {
        Ok(Reaction {
            state: state.copy(alloc)?,
            mails: MailList::new(alloc),
            task: Task::Nothing,
        })
    }

    pub(crate) fn send(&mut self, mail: Mail) -> Result<(), Memory>
        ensures { IfOk result (λ _. self.new
            ≡ record self.old { mails = self.old.mails ++ mail ∷ [] }) }
    {
        self.mails.push(mail)?;
        Ok(())
    }
}

/// One mail is sent.
pub(crate) fn says(alloc: Global, state: SlotState, mail: Mail) -> Result<Reaction, Memory>
    ensures { IfOk result (λ done. done ≡ says state (mail ∷ [])) }
{
    let mut mails = MailList::new(alloc);
    mails.push(mail)?;
    Ok(Reaction {
        state,
        mails,
        task: Task::Nothing,
    })
}

/// Two mails are sent.
pub(crate) fn says_both(
    alloc: Global,
    state: SlotState,
    first: Mail,
    second: Mail,
) -> Result<Reaction, Memory>
    ensures { IfOk result (λ done. done ≡ says state (first ∷ second ∷ [])) }
{
    let mut mails = MailList::new(alloc);
    mails.push(first)?;
    mails.push(second)?;
    Ok(Reaction {
        state,
        mails,
        task: Task::Nothing,
    })
}
