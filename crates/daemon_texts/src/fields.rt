// The fields of a case, one after the other.

ghost use Rattle.std.specs.Prelude.{◌≤◌, IfOk};
ghost use Rattle.pool_mail.specs.declared.settings.TheConstants.{MAX_SECONDS};
ghost use Rattle.pool_mail.specs.Seconds.{IsSeconds};

use crate::ad::read_ad;
use crate::error::TextError;
use crate::field::{interval_of, seconds_of};
use crate::ids::{read_claim, read_job, read_run};
use crate::slot::slot_id_of;
use crate::why::read_end;
use ad_tree::Ad;
use ad_value::Text;
use cases::{Case, CaseError};
use claim_id::{ClaimId, JobId, RunNo, SlotId, Verb};
use pool_mail::Ending;
use pool_outer::Daemon;
use std::alloc::Global;

/// The fields of a case, and how many of them were read. After an error it is not to be used.
pub struct Fields<'a> {
    case: Case<'a>,
    fields: Vec<&'a str>,
    next: usize,
}

impl Drop for Fields<'_> {
    fn drop(self) {
        let Fields {
            case: _,
            fields: _fields,
            next: _,
        } = self;
    }
}

impl<'a> Fields<'a> {
    /// The fields of a case, of which none was read. Computes in O(bytes).
    pub fn of(alloc: Global, case: Case<'a>) -> Result<Fields<'a>, CaseError> {
        Ok(Fields {
            case,
            fields: case.all_fields(alloc)?,
            next: 0,
        })
    }

    /// The case's fault of a field that is not of its form. Computes in O(1).
    pub fn form(&self) -> CaseError {
        CaseError::Form {
            line: self.case.line,
        }
    }

    fn fault(&self, error: TextError) -> CaseError {
        error.at_line(self.case.line)
    }

    /// How many fields were not read. Computes in O(1).
    pub fn left(&self) -> usize {
        self.fields.len().saturating_sub(self.next)
    }

    /// Nothing may be left. Computes in O(1).
    pub fn end(&self) -> Result<(), CaseError> {
        if self.left() == 0 {
            Ok(())
        } else {
            Err(CaseError::Fields {
                line: self.case.line,
            })
        }
    }

    /// The next field. Computes in O(1).
    pub fn field(&mut self) -> Result<&'a str, CaseError> {
        let Some(field) = self.fields.get(self.next) else {
            return Err(CaseError::Fields {
                line: self.case.line,
            });
        };
        self.next = self.next.saturating_add(1);
        Ok(field)
    }

    /// A number. Computes in O(bytes of the field).
    pub fn natural(&mut self) -> Result<u64, CaseError> {
        let field = self.field()?;
        self.case.natural(field)
    }

    /// A number of 16 bits. Computes in O(bytes of the field).
    pub fn short(&mut self) -> Result<u16, CaseError> {
        match u16::try_from(self.natural()?) {
            Ok(number) => Ok(number),
            Err(_) => Err(CaseError::Number {
                line: self.case.line,
            }),
        }
    }

    /// Seconds, from 1 to `MAX_SECONDS`. Computes in O(bytes of the field).
    pub fn interval(&mut self) -> Result<u64, CaseError>
        ensures { IfOk result IsSeconds }
    {
        let field = self.field()?;
        interval_of(self.case, field)
    }

    /// Seconds, at most `MAX_SECONDS`. Computes in O(bytes of the field).
    pub fn seconds(&mut self) -> Result<u64, CaseError>
        ensures { IfOk result (λ n. n ≤ MAX_SECONDS) }
    {
        let field = self.field()?;
        seconds_of(self.case, field)
    }

    /// `true` or `false`. Computes in O(bytes of the field).
    pub fn truth(&mut self) -> Result<bool, CaseError> {
        match self.field()? {
            "true" => Ok(true),
            "false" => Ok(false),
            _ => Err(self.form()),
        }
    }

    /// A text. Computes in O(bytes of the field).
    pub fn text(&mut self, alloc: Global) -> Result<Text, CaseError> {
        let field = self.field()?;
        Ok(Text::from(self.case.text(alloc, field)?))
    }

    /// Bytes. Computes in O(bytes of the field).
    pub fn bytes(&mut self, alloc: Global) -> Result<Vec<u8>, CaseError> {
        let field = self.field()?;
        self.case.bytes(alloc, field)
    }

    /// An ad. Computes in O(bytes of the field).
    pub fn ad(&mut self, alloc: Global) -> Result<Ad, CaseError> {
        let field = self.field()?;
        self.ad_of(alloc, field)
    }

    /// The ad that a field says. Computes in O(bytes of the field).
    pub fn ad_of(&self, alloc: Global, field: &str) -> Result<Ad, CaseError> {
        let text = self.case.text(alloc, field)?;
        match read_ad(alloc, text.as_str()) {
            Ok(ad) => Ok(ad),
            Err(error) => Err(self.fault(error)),
        }
    }

    /// `C.P`. Computes in O(bytes of the field).
    pub fn job(&mut self) -> Result<JobId, CaseError> {
        match read_job(self.field()?) {
            Ok(job) => Ok(job),
            Err(error) => Err(self.fault(error)),
        }
    }

    /// The claim that a field says with its secret. Computes in O(bytes of the field).
    pub fn claim_of(&self, field: &str) -> Result<ClaimId, CaseError> {
        match read_claim(field) {
            Ok(claim) => Ok(claim),
            Err(error) => Err(self.fault(error)),
        }
    }

    fn run(&mut self, alloc: Global) -> Result<RunNo, CaseError> {
        match read_run(alloc, self.field()?) {
            Ok(run) => Ok(run),
            Err(error) => Err(self.fault(error)),
        }
    }

    /// `RUN END`, two fields. Computes in O(bytes of both).
    pub fn ending(&mut self, alloc: Global) -> Result<Ending, CaseError> {
        let run = self.run(alloc)?;
        match read_end(self.field()?) {
            Ok(end) => Ok(Ending { run, end }),
            Err(error) => Err(self.fault(error)),
        }
    }

    /// `M:S`. Computes in O(bytes of the field).
    pub fn slot(&mut self) -> Result<SlotId, CaseError> {
        match slot_id_of(self.field()?) {
            Some(slot) => Ok(slot),
            None => Err(self.form()),
        }
    }

    /// `schedd`, `startd:M` or `matchmaker`. Computes in O(bytes of the field).
    pub fn daemon(&mut self) -> Result<Daemon, CaseError> {
        match daemon_of(self.field()?) {
            Some(who) => Ok(who),
            None => Err(self.form()),
        }
    }

    /// `Remove`, `Hold` or `Resume`. Computes in O(bytes of the field).
    pub fn verb(&mut self) -> Result<Verb, CaseError> {
        match self.field()? {
            "Remove" => Ok(Verb::Remove),
            "Hold" => Ok(Verb::Hold),
            "Resume" => Ok(Verb::Resume),
            _ => Err(self.form()),
        }
    }

    /// A number, or none for `-`. Computes in O(bytes of the field).
    pub fn maybe_natural(&mut self) -> Result<Option<u64>, CaseError> {
        let field = self.field()?;
        if field == "-" {
            return Ok(None);
        }
        Ok(Some(self.case.natural(field)?))
    }
}

fn daemon_of(field: &str) -> Option<Daemon> {
    match field {
        "schedd" => Some(Daemon::Schedd),
        "matchmaker" => Some(Daemon::Matchmaker),
        _ => startd_of(field),
    }
}

fn startd_of(field: &str) -> Option<Daemon> {
    let machine = field.strip_prefix("startd:")?;
    match machine.parse::<u16>() {
        Ok(machine) => Some(Daemon::Startd(machine)),
        Err(_) => None,
    }
}
