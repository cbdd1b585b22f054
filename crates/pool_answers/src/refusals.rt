// Refusals, and what is left to do in a pool that is to be closed.

ghost use Rattle.std.specs.Prelude.{◌≡◌, ◌++◌, OnOk, string_bytes};
ghost use Rattle.pool_answers.specs.RefusalTexts.{daemon_refusal, daemon_text, refusal_text, slot_field, some_number, unquiet_text};

use claim_id::SlotId;
use daemon_texts::{write_job, write_run};
use pool_outer::Daemon;
use pool_tables::{StepError, Unquiet};
use std::alloc::AllocError;
use std::fmt::Write;

// `schedd`, `startd:M` or `matchmaker`.
fn write_daemon(who: Daemon, out: &mut String) -> Result<(), AllocError>
    ensures { OnOk result (string_bytes out.new ≡ string_bytes out.old ++ daemon_text who) }
{
    match who {
        Daemon::Schedd => out.push_str("schedd"),
        Daemon::Startd(machine) => write!(out, "startd:{machine}"),
        Daemon::Matchmaker => out.push_str("matchmaker"),
    }
}

/// Appends a slot: `M:S`.
pub(crate) fn write_slot(id: SlotId, out: &mut String) -> Result<(), AllocError>
    ensures { OnOk result (string_bytes out.new ≡ string_bytes out.old ++ slot_field id) }
{
    let SlotId { machine, slot } = id;
    write!(out, "{machine}:{slot}")
}

/// Appends a refusal: its variant, and its values in the order of its fields.
#[tactic(auto, unfolding(crate::specs::RefusalTexts::refusal_text))]
pub fn write_refusal(error: StepError, out: &mut String) -> Result<(), AllocError>
    ensures { OnOk result (string_bytes out.new ≡ string_bytes out.old ++ refusal_text error) }
{
    match error {
        StepError::Closed => out.push_str("Closed"),
        StepError::Events => out.push_str("Events"),
        StepError::Down { who } => write_daemon_refusal("Down", who, out),
        StepError::Up { who } => write_daemon_refusal("Up", who, out),
        StepError::NotDue => out.push_str("NotDue"),
        StepError::AdMoved { slot } => {
            out.push_str("AdMoved\t")?;
            write_slot(slot, out)
        }
        StepError::NoRun { run } => {
            out.push_str("NoRun\t")?;
            write_run(run, out)
        }
        StepError::RunLeft { run } => {
            out.push_str("RunLeft\t")?;
            write_run(run, out)
        }
        StepError::NotQuiet { what } => write_unquiet(what, out),
        StepError::Jobs => out.push_str("Jobs"),
        StepError::Bytes => out.push_str("Bytes"),
        _ => write_number_refusal(error, out),
    }
}

#[tactic(auto, unfolding(crate::specs::RefusalTexts::daemon_refusal))]
fn write_daemon_refusal(name: &str, who: Daemon, out: &mut String) -> Result<(), AllocError>
    ensures { OnOk result (string_bytes out.new
        ≡ string_bytes out.old ++ daemon_refusal name.now who) }
{
    write!(out, "{name}\t")?;
    write_daemon(who, out)
}

#[tactic(auto, unfolding(crate::specs::RefusalTexts::refusal_text))]
fn write_number_refusal(error: StepError, out: &mut String) -> Result<(), AllocError>
    ensures { OnOk result (string_bytes out.new ≡ string_bytes out.old ++ refusal_text error) }
{
    match error {
        StepError::OldBoot { asked, current } => write!(out, "OldBoot\t{asked}\t{current}"),
        StepError::NoMail { index, sent } => write!(out, "NoMail\t{index}\t{sent}"),
        StepError::NotYours { index, to } => {
            write!(out, "NotYours\t{index}\t")?;
            write_daemon(to, out)
        }
        StepError::Again { index } => write!(out, "Again\t{index}"),
        StepError::StillPending { number } => write!(out, "StillPending\t{number}"),
        StepError::NotPending { asked, current } => {
            write!(out, "NotPending\t{asked}\t")?;
            write_some_number(current, out)
        }
        StepError::OtherItem { number } => write!(out, "OtherItem\t{number}"),
        StepError::Moved { asked, length } => write!(out, "Moved\t{asked}\t{length}"),
        _ => Err(AllocError),
    }
}

// A number, or `-`.
fn write_some_number(number: Option<u64>, out: &mut String) -> Result<(), AllocError>
    ensures { OnOk result (string_bytes out.new ≡ string_bytes out.old ++ some_number number) }
{
    match number {
        Some(number) => write!(out, "{number}"),
        None => out.push('-'),
    }
}

#[tactic(auto, unfolding(crate::specs::RefusalTexts::unquiet_text))]
fn write_unquiet(what: Unquiet, out: &mut String) -> Result<(), AllocError>
    ensures { OnOk result (string_bytes out.new ≡ string_bytes out.old ++ unquiet_text what) }
{
    match what {
        Unquiet::Down(who) => write_daemon_refusal("NotQuiet\tDown", who, out),
        Unquiet::Claim(slot) => {
            out.push_str("NotQuiet\tClaim\t")?;
            write_slot(slot, out)
        }
        Unquiet::Under(job) => {
            out.push_str("NotQuiet\tUnder\t")?;
            write_job(job, out)
        }
        Unquiet::Pending(number) => write!(out, "NotQuiet\tPending\t{number}"),
        Unquiet::Order(place) => write!(out, "NotQuiet\tOrder\t{place}"),
    }
}
