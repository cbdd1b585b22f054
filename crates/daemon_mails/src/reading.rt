// What a mail's text says.

use crate::words::Words;
use ad_value::Text;
use cases::{Case, CaseError};
use claim_id::{ClaimId, Pair, RunNo, SlotId};
use daemon_texts::{TextError, read_how, read_run, read_why};
use pool_mail::{Mail, Match, SlotAd};
use std::alloc::Global;

/// The mail that a case's field says. Computes in O(bytes).
pub fn mail_of(alloc: Global, case: Case<'_>, field: &str) -> Result<Mail, CaseError> {
    let text = case.text(alloc, field)?;
    match read_mail(alloc, text.as_str()) {
        Ok(mail) => Ok(mail),
        Err(error) => Err(error.at_line(case.line)),
    }
}

/// The mail that a text says: its name and its fields, divided by blanks. Computes in O(bytes).
pub fn read_mail(alloc: Global, text: &str) -> Result<Mail, TextError> {
    let mut words = Words::of(alloc, text)?;
    let mail = read_named(alloc, &mut words)?;
    words.end()?;
    Ok(mail)
}

fn read_named(alloc: Global, words: &mut Words<'_>) -> Result<Mail, TextError> {
    match words.word()? {
        "Update" => read_update(alloc, words),
        "Matched" => read_matched(words),
        "Ask" => read_ask(alloc, words),
        "Granted" => read_granted(words),
        "Denied" => read_denied(alloc, words),
        "Activate" => read_activate(alloc, words),
        name => read_short(alloc, name, words),
    }
}

fn read_update(alloc: Global, words: &mut Words<'_>) -> Result<Mail, TextError> {
    Ok(Mail::Update(read_slot(alloc, words)?))
}

fn read_matched(words: &mut Words<'_>) -> Result<Mail, TextError> {
    Ok(Mail::Matched(Match {
        job: words.job()?,
        claim: words.claim()?,
        by_priority: words.truth("by_priority")?,
    }))
}

fn read_ask(alloc: Global, words: &mut Words<'_>) -> Result<Mail, TextError> {
    Ok(Mail::Ask {
        claim: words.claim()?,
        job: words.job()?,
        by_priority: words.truth("by_priority")?,
        ad: words.ad(alloc)?,
    })
}

fn read_granted(words: &mut Words<'_>) -> Result<Mail, TextError> {
    Ok(Mail::Granted {
        claim: words.claim()?,
        job: words.job()?,
    })
}

fn read_denied(alloc: Global, words: &mut Words<'_>) -> Result<Mail, TextError> {
    Ok(Mail::Denied {
        claim: words.claim_no(alloc)?,
        run: read_some_run(alloc, words.value("run")?)?,
        job: words.job()?,
        why: read_why(alloc, words.value("why")?)?,
    })
}

fn read_activate(alloc: Global, words: &mut Words<'_>) -> Result<Mail, TextError> {
    Ok(Mail::Activate {
        run: words.run(alloc)?,
        job: words.job()?,
        until: words.number("until")?,
        ad: words.ad(alloc)?,
    })
}

fn read_short(alloc: Global, name: &str, words: &mut Words<'_>) -> Result<Mail, TextError> {
    match name {
        "Release" => Ok(Mail::Release {
            claim: words.claim_no(alloc)?,
        }),
        "Remove" => Ok(Mail::Remove { job: words.job()? }),
        "Hold" => Ok(Mail::Hold { job: words.job()? }),
        "Resume" => Ok(Mail::Resume { job: words.job()? }),
        _ => read_of_run(name, words.run(alloc)?, words),
    }
}

// A mail whose first field is its run.
fn read_of_run(name: &str, run: RunNo, words: &mut Words<'_>) -> Result<Mail, TextError> {
    match name {
        "Alive" => read_alive(run, words),
        "Seen" => read_seen(run, words),
        "Stop" => Ok(Mail::Stop { run }),
        "Gone" => read_gone(run, words),
        "Ended" => read_ended(run, words),
        _ => Err(TextError::Form),
    }
}

fn read_alive(run: RunNo, words: &mut Words<'_>) -> Result<Mail, TextError> {
    let until = words.number("until")?;
    Ok(Mail::Alive { run, until })
}

fn read_seen(run: RunNo, words: &mut Words<'_>) -> Result<Mail, TextError> {
    let until = words.number("until")?;
    Ok(Mail::Seen { run, until })
}

fn read_gone(run: RunNo, words: &mut Words<'_>) -> Result<Mail, TextError> {
    let kept = words.truth("kept")?;
    Ok(Mail::Gone { run, kept })
}

fn read_ended(run: RunNo, words: &mut Words<'_>) -> Result<Mail, TextError> {
    let how = read_how(words.value("how")?)?;
    Ok(Mail::Ended { run, how })
}

// What an Update says first.
#[derive(Clone, Copy)]
struct SlotHead<'a> {
    slot: SlotId,
    name: &'a str,
    claim: Option<ClaimId>,
    pair: Pair,
}

// What it says then, but for the ad.
#[derive(Clone, Copy)]
struct SlotTail<'a> {
    user: &'a str,
    rank: i64,
    at: u64,
}

fn read_slot(alloc: Global, words: &mut Words<'_>) -> Result<SlotAd, TextError> {
    let head = read_slot_head(words)?;
    let tail = read_slot_tail(words)?;
    let name = Text::from_str(alloc, head.name)?;
    let user = read_user(alloc, tail.user)?;
    let ad = words.ad(alloc)?;
    Ok(SlotAd {
        slot: head.slot,
        name,
        claim: head.claim,
        pair: head.pair,
        user,
        rank: tail.rank,
        at: tail.at,
        ad,
    })
}

fn read_slot_head<'a>(words: &mut Words<'a>) -> Result<SlotHead<'a>, TextError> {
    Ok(SlotHead {
        slot: words.slot()?,
        name: words.value("name")?,
        claim: words.some_claim()?,
        pair: words.pair()?,
    })
}

fn read_slot_tail<'a>(words: &mut Words<'a>) -> Result<SlotTail<'a>, TextError> {
    Ok(SlotTail {
        user: words.value("user")?,
        rank: words.rank()?,
        at: words.number("at")?,
    })
}

fn read_some_run(alloc: Global, text: &str) -> Result<Option<RunNo>, TextError> {
    if text == "-" {
        return Ok(None);
    }
    Ok(Some(read_run(alloc, text)?))
}

fn read_user(alloc: Global, text: &str) -> Result<Option<Text>, TextError> {
    if text == "-" {
        return Ok(None);
    }
    Ok(Some(Text::from_str(alloc, text)?))
}
