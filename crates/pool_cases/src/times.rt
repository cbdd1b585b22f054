// How long events took.

use cases::{Case, CaseError};
use daemon_texts::Fields;
use pool_outer::Daemon;
use pool_parts::{Event, Kept};
use std::alloc::AllocError;
use std::fmt::Write;
use std::time::Instant;

/// What an event is, as far as its time goes.
#[derive(Clone, Copy)]
pub(crate) enum Kind {
    Submit,
    /// A submission is logged.
    LoggedJobs,
    /// What a schedd planned is logged.
    LoggedPlan,
    ScheddReceives,
    StartdReceives,
    MatchmakerReceives,
    ScheddTicks,
    StartdTicks,
    Matches,
    Ended,
    Close,
}

// What each kind is called, in their order.
const NAMES: [&str; 11] = [
    "Submit",
    "LoggedJobs",
    "LoggedPlan",
    "ScheddReceives",
    "StartdReceives",
    "MatchmakerReceives",
    "ScheddTicks",
    "StartdTicks",
    "Matches",
    "Ended",
    "Close",
];

#[derive(Clone, Copy)]
struct Time {
    count: u64,
    nanos: u128,
}

const NO_TIME: Time = Time { count: 0, nanos: 0 };

/// How many events of each kind there were, and how long they took.
#[derive(Clone, Copy)]
pub(crate) struct Times {
    // By kind.
    all: [Time; 11],
    // Whether the transaction that was asked for last is a submission's.
    is_of_jobs: bool,
}

impl Times {
    pub(crate) fn none() -> Times {
        Times {
            all: [NO_TIME; 11],
            is_of_jobs: false,
        }
    }

    /// What an event is; none of an order, a check, a crash and a return. Computes in O(1).
    pub(crate) fn kind_of(&self, event: &Event) -> Option<Kind> {
        match event {
            Event::Submit { .. } => Some(Kind::Submit),
            Event::Logged { .. } => Some(self.logged_kind()),
            Event::Receive { who, .. } => Some(receive_kind(*who)),
            Event::Tick { who, .. } => Some(tick_kind(*who)),
            Event::Matches { .. } => Some(Kind::Matches),
            Event::Ended { .. } => Some(Kind::Ended),
            Event::Close { .. } => Some(Kind::Close),
            Event::Order { .. }
            | Event::Check { .. }
            | Event::Crash { .. }
            | Event::Reopen { .. } => None,
        }
    }

    fn logged_kind(&self) -> Kind {
        if self.is_of_jobs {
            Kind::LoggedJobs
        } else {
            Kind::LoggedPlan
        }
    }

    /// One accepted event more, and what was kept of its answer. Computes in O(1).
    pub(crate) fn add(&mut self, kind: Option<Kind>, nanos: u128, kept: &Kept) {
        if let Kept::Append { .. } = kept {
            self.is_of_jobs = matches!(kind, Some(Kind::Submit));
        }
        if let Some(kind) = kind {
            self.count(kind, nanos);
        }
    }

    fn count(&mut self, kind: Kind, nanos: u128) {
        if let Some(time) = self.all.get_mut(kind as usize) {
            time.count = time.count.saturating_add(1);
            time.nanos = time.nanos.saturating_add(nanos);
        }
    }

    // Of each kind appends how many events there were, and prints on standard error how many
    // nanoseconds they took.
    fn tell(&self, rt: &HostRuntime, out: &mut String) -> Result<(), AllocError> {
        out.push_str("ok")?;
        for (name, time) in NAMES.iter().zip(&self.all) {
            let (count, nanos) = (time.count, time.nanos);
            write!(out, "\t{name}={count}")?;
            let _ = eprintln!(rt; "{name}: {nanos} nanoseconds for {count} events");
        }
        Ok(())
    }
}

/// `times`. Computes in O(1).
pub(crate) fn answer_times(
    rt: &HostRuntime,
    case: Case<'_>,
    times: &Times,
    out: &mut String,
) -> Result<(), CaseError> {
    times.tell(rt, out)?;
    Fields::of(rt.alloc(), case)?.end()
}

fn receive_kind(who: Daemon) -> Kind {
    match who {
        Daemon::Schedd => Kind::ScheddReceives,
        Daemon::Startd(_) => Kind::StartdReceives,
        Daemon::Matchmaker => Kind::MatchmakerReceives,
    }
}

fn tick_kind(who: Daemon) -> Kind {
    match who {
        Daemon::Schedd => Kind::ScheddTicks,
        Daemon::Startd(_) | Daemon::Matchmaker => Kind::StartdTicks,
    }
}

/// What the clock says; none where it can't be read.
pub(crate) fn moment(rt: &HostRuntime) -> Option<Instant> {
    Instant::now(rt).ok()
}

/// The time since a moment; 0 where the clock couldn't be read.
pub(crate) fn nanos_since(rt: &HostRuntime, start: Option<Instant>) -> u128 {
    match (start, moment(rt)) {
        (Some(start), Some(end)) => end.duration_since(start).as_nanos(),
        _ => 0,
    }
}
