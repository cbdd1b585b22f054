use crate::accounts::{answer_accounts, open_accounts};
use crate::clustering::answer_clusters;
use crate::collecting::{answer_collector, expire_ads, open_collector};
use crate::negotiating::answer_cycle;
use crate::snapshots::{add_offer, add_request, add_submitter, empty_snapshot, open_snapshot};
use cases::{Case, CaseError, read_cases};
use matchmaker::{Accountant, Collector, Snapshot};
use std::alloc::Global;

// What the cases speak of: one of each at a time.
struct State {
    accounts: Accountant,
    collector: Collector,
    snapshot: Snapshot,
}

impl Drop for State {
    fn drop(self) {
        let State {
            accounts: _accounts,
            collector: _collector,
            snapshot: _snapshot,
        } = self;
    }
}

/// Appends an answer for each command that has one, a line each.
pub(crate) fn answer_all(alloc: Global, input: &str, out: &mut String) -> Result<(), CaseError> {
    let cases = read_cases(alloc, input)?;
    let mut state = State {
        accounts: Accountant::new(alloc, 0),
        collector: Collector::new(alloc, 0),
        snapshot: empty_snapshot(alloc),
    };
    for case in cases.as_slice() {
        if !set_state(alloc, *case, &mut state)? {
            answer(alloc, *case, &mut state, out)?;
            out.push('\n')?;
        }
    }
    Ok(())
}

// Does what a command without an answer asks, and says whether it is one.
fn set_state(alloc: Global, case: Case<'_>, state: &mut State) -> Result<bool, CaseError> {
    match case.kind {
        "new-accountant" => state.accounts = open_accounts(alloc, case)?,
        "new-collector" => state.collector = open_collector(alloc, case)?,
        "expire" => expire_ads(case, &mut state.collector)?,
        "new-snapshot" => state.snapshot = open_snapshot(alloc, case)?,
        "submitter" => add_submitter(alloc, case, &mut state.snapshot)?,
        "request" => add_request(alloc, case, &mut state.snapshot)?,
        "offer" => add_offer(alloc, case, &mut state.snapshot)?,
        _ => return Ok(false),
    }
    Ok(true)
}

fn answer(
    alloc: Global,
    case: Case<'_>,
    state: &mut State,
    out: &mut String,
) -> Result<(), CaseError> {
    match case.kind {
        "update" | "update-many" | "forget" | "offered" => {
            answer_collector(alloc, case, &mut state.collector, out)
        }
        "significant" | "clusters" | "judgements" => {
            answer_clusters(alloc, case, &state.snapshot, out)
        }
        "cycle" => answer_cycle(alloc, case, &state.snapshot, out),
        _ => answer_accounts(alloc, case, &mut state.accounts, out),
    }
}
