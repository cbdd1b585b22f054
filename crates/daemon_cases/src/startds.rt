use crate::judging::judge_pair;
use ad_eval::Judged;
use ad_tree::Ad;
use ad_value::{Memory, Text};
use cases::{Case, CaseError};
use claim_id::SlotId;
use daemon_mails::{mail_of, write_launch, write_mails};
use daemon_texts::{
    interval_of, read_ad, read_end, read_run, seconds_of, write_job, write_run, write_runs,
};
use pool_mail::{Ending, Mail, Settings};
use startd_core::{Permit, Startd, StartdAnswer, StartdStep, is_tick_tried};
use std::alloc::{AllocError, Global};

/// `new-startd MACHINE BOOT UPDATE_INTERVAL MATCH_TIMEOUT CLAIM_LEASE MAXJOBRETIREMENTTIME
/// MACHINEMAXVACATETIME KEY`: a startd without slots.
pub(crate) fn new_startd(alloc: Global, case: Case<'_>) -> Result<Startd, CaseError> {
    let fields = case.all_fields(alloc)?;
    let [
        machine,
        boot,
        update,
        timeout,
        lease,
        retirement,
        vacate,
        key,
    ] = fields.as_slice()
    else {
        return Err(CaseError::Fields { line: case.line });
    };
    let Ok(machine) = u16::try_from(case.natural(machine)?) else {
        return Err(CaseError::Number { line: case.line });
    };
    let settings = Settings {
        update_interval: interval_of(case, update)?,
        match_timeout: interval_of(case, timeout)?,
        claim_lease: interval_of(case, lease)?,
        job_lease: 1,
        alive_interval: 1,
        periodic_interval: 1,
        retirement: seconds_of(case, retirement)?,
        vacate: seconds_of(case, vacate)?,
    };
    Ok(Startd::new(
        alloc,
        machine,
        case.natural(boot)?,
        case.natural(key)?,
        settings,
    ))
}

/// `slot NAME AD`: one more slot.
pub(crate) fn add_slot(
    alloc: Global,
    case: Case<'_>,
    startd: &mut Startd,
) -> Result<(), CaseError> {
    let (name, ad) = case.two_fields()?;
    let name = Text::from(case.text(alloc, name)?);
    let ad = ad_of(alloc, case, ad)?;
    match startd.add_slot(name, ad) {
        Ok(()) => Ok(()),
        Err(Memory) => Err(CaseError::Memory),
    }
}

fn ad_of(alloc: Global, case: Case<'_>, field: &str) -> Result<Ad, CaseError> {
    let text = case.text(alloc, field)?;
    match read_ad(alloc, text.as_str()) {
        Ok(ad) => Ok(ad),
        Err(error) => Err(error.at_line(case.line)),
    }
}

/// `receive MAIL READING`, `ended RUN END READING`, `tick READING`, `reboot READING`.
pub(crate) fn answer_startd(
    alloc: Global,
    case: Case<'_>,
    startd: &mut Startd,
    out: &mut String,
) -> Result<(), CaseError> {
    match case.kind {
        "receive" => answer_receive(alloc, case, startd, out),
        "ended" => answer_ended(alloc, case, startd, out),
        "tick" => answer_tick(alloc, case, startd, out),
        "reboot" => answer_reboot(alloc, case, startd, out),
        _ => Err(CaseError::Kind { line: case.line }),
    }
}

fn answer_receive(
    alloc: Global,
    case: Case<'_>,
    startd: &mut Startd,
    out: &mut String,
) -> Result<(), CaseError> {
    let (mail, reading) = case.two_fields()?;
    let reading = case.natural(reading)?;
    let mail = mail_of(alloc, case, mail)?;
    take_mail(alloc, startd, &mail, reading, out)
}

fn take_mail(
    alloc: Global,
    startd: &mut Startd,
    mail: &Mail,
    reading: u64,
    out: &mut String,
) -> Result<(), CaseError> {
    match judged(alloc, startd, mail, reading) {
        Ok(judged) => write_step(alloc, startd.receive(alloc, mail, judged, reading), out),
        Err(Memory) => Err(CaseError::Memory),
    }
}

fn answer_ended(
    alloc: Global,
    case: Case<'_>,
    startd: &mut Startd,
    out: &mut String,
) -> Result<(), CaseError> {
    let (run, end, reading) = case.three_fields()?;
    let reading = case.natural(reading)?;
    match (read_run(alloc, run), read_end(end)) {
        (Ok(run), Ok(end)) => {
            write_step(
                alloc,
                startd.ended(alloc, &Ending { run, end }, reading),
                out,
            )
        }
        (Err(error), _) | (_, Err(error)) => Err(error.at_line(case.line)),
    }
}

fn answer_tick(
    alloc: Global,
    case: Case<'_>,
    startd: &mut Startd,
    out: &mut String,
) -> Result<(), CaseError> {
    let reading = case.natural(case.one_field()?)?;
    if !is_tick_tried(startd.due(alloc, reading)) {
        out.push_str("NotDue")?;
        return Ok(());
    }
    write_step(alloc, startd.tick(alloc, reading), out)
}

fn answer_reboot(
    alloc: Global,
    case: Case<'_>,
    startd: &mut Startd,
    out: &mut String,
) -> Result<(), CaseError> {
    let reading = case.natural(case.one_field()?)?;
    write_step(alloc, startd.reboot(alloc, reading), out)
}

// What `judge` gives of the mail's ad and the ad of the slot with which it is judged.
fn judged(
    alloc: Global,
    startd: &Startd,
    mail: &Mail,
    reading: u64,
) -> Result<Option<Judged>, Memory> {
    let (Some(ad), Some(slot)) = (mail.ad(), startd.judges(mail, reading)) else {
        return Ok(None);
    };
    judged_on(alloc, startd, ad, slot, reading)
}

fn judged_on(
    alloc: Global,
    startd: &Startd,
    ad: &Ad,
    id: SlotId,
    reading: u64,
) -> Result<Option<Judged>, Memory> {
    for slot in startd.slots() {
        if slot.id == id {
            return judge_pair(alloc, ad, &slot.ad, reading);
        }
    }
    Ok(None)
}

fn write_step(
    alloc: Global,
    step: Result<StartdStep, Memory>,
    out: &mut String,
) -> Result<(), CaseError> {
    let Ok(StartdStep { mails, answer }) = step else {
        return Err(CaseError::Memory);
    };
    let wrote = write_mails(alloc, mails.as_slice(), out);
    let answered = write_answer(answer, out);
    wrote?;
    answered?;
    Ok(())
}

fn write_answer(answer: StartdAnswer, out: &mut String) -> Result<(), AllocError> {
    match answer {
        StartdAnswer::Done => out.push_str("\tDone"),
        StartdAnswer::Launch { permit } => write_permit(permit, out),
        StartdAnswer::Kill { runs } => {
            out.push_str("\tKill")?;
            write_runs(runs.as_slice(), out)
        }
    }
}

fn write_permit(permit: Permit, out: &mut String) -> Result<(), AllocError> {
    let (run, job, what) = permit.spend();
    out.push_str("\tLaunch\t")?;
    write_run(run, out)?;
    out.push('\t')?;
    write_job(job, out)?;
    write_launch(&what, out)
}
