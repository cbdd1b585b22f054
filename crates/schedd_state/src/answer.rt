ghost use Rattle.std.specs.Prelude.{◌≡◌, ◌∷◌, [], IfOk};
ghost use Rattle.schedd_state.specs.Schedds.{nothing_done, says, plans};

use ad_value::Memory;
use pool_mail::{Mail, MailList};
use schedd_plan::JobPlan;
use std::alloc::Global;

/// What a schedd answers to an event: the mails that it sends, in order, and what is to be logged.
pub struct ScheddStep {
    pub mails: MailList,
    pub plan: Option<JobPlan>,
}

impl Drop for ScheddStep {
    fn drop(self) {
        let ScheddStep {
            mails: _mails,
            plan: _,
        } = self;
    }
}

impl ScheddStep {
    /// What is sent, and what is to be logged, without memory. Computes in O(1).
    pub fn into_parts(self) -> (MailList, Option<JobPlan>)
        ensures { result ≡ (self.mails, self.plan) }
    {
        let ScheddStep { mails, plan } = self;
        (mails, plan)
    }

    /// Nothing is sent or logged. Computes in O(1).
    pub fn nothing(alloc: Global) -> ScheddStep
        ensures { result ≡ nothing_done }
    {
        ScheddStep {
            mails: MailList::new(alloc),
            plan: None,
        }
    }

    pub(crate) fn mail(alloc: Global, mail: Mail) -> Result<ScheddStep, Memory>
        ensures { IfOk result (λ step. step ≡ says (mail ∷ [])) }
    {
        let mut mails = MailList::new(alloc);
        mails.push(mail)?;
        Ok(ScheddStep { mails, plan: None })
    }

    /// A plan is to be logged. Computes in O(1).
    pub fn plan(alloc: Global, plan: JobPlan) -> ScheddStep
        ensures { result ≡ plans plan }
    {
        ScheddStep {
            mails: MailList::new(alloc),
            plan: Some(plan),
        }
    }
}
