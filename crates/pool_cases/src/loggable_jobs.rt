// Which jobs can be logged as they are submitted.

ghost use Rattle.std.specs.Prelude.{◌≡◌, IfSome, IsTrue, Some, slice_get};
ghost use Rattle.ad_tree.specs.Tree.{tree};
ghost use Rattle.claim_id.specs.declared.numbers.JobId.{JobId};
ghost use Rattle.pool_parts.specs.Loggable.{AreLoggableJobs, IsLoggableJob};
ghost use Rattle.pool_cases.specs.Logged.{IsPrintableAttribute};
ghost use Rattle.queue_tx.specs.declared.key.Key.TheVariants.{Proc};
ghost use Rattle.queue_tx.specs.Printable.{IsPrintableAd, IsPrintableTree};
ghost use Rattle.queue_tx.specs.Roomy.{HasRoom};

use ad_parse::{parse_expr, print_expr};
use ad_token::is_name;
use ad_tree::{Ad, Expr};
use queue_tx::MAX_OWN_OF_PROC;
use std::alloc::Global;

/// Whether each of these jobs can be logged; no where memory runs out. Computes in O(size of the
/// ads, and of the texts of what differs from the first).
pub(crate) fn are_loggable(alloc: Global, jobs: &[Ad]) -> bool
    ensures { IsTrue result → AreLoggableJobs jobs.now }
{
    match jobs.first() {
        Some(first) => {
            is_printable(alloc, first, &Ad::new(alloc)) && are_loggable_as(alloc, jobs, first)
        }
        None => true,
    }
}

// Whether they can, where the sample can be printed.
fn are_loggable_as(alloc: Global, jobs: &[Ad], sample: &Ad) -> bool
    ensures { IsTrue result → IsPrintableAd sample.now → AreLoggableJobs jobs.now }
{
    for job in jobs {
        if !is_loggable(alloc, job, sample) {
            return false;
        }
    }
    true
}

fn is_loggable(alloc: Global, job: &Ad, sample: &Ad) -> bool
    ensures { IsTrue result → IsPrintableAd sample.now → IsLoggableJob job.now }
{
    has_room(job) && is_printable(alloc, job, sample)
}

// Whether it has few attributes, of whatever names.
#[tactic(auto, using(crate::proofs::Logging::room_of_few))]
fn has_room(job: &Ad) -> bool
    ensures { IsTrue result → (id : JobId) → HasRoom (Proc id) job.now }
{
    job.len() <= MAX_OWN_OF_PROC
}

// Whether a text can say each of its attributes, where one can say those of the sample.
fn is_printable(alloc: Global, job: &Ad, sample: &Ad) -> bool
    ensures { IsTrue result → IsPrintableAd sample.now → IsPrintableAd job.now }
{
    for place in 0..job.len() {
        if !is_printable_at(alloc, job, place, sample) {
            return false;
        }
    }
    true
}

fn is_printable_at(alloc: Global, job: &Ad, place: usize, sample: &Ad) -> bool
    ensures { IsTrue result → IsPrintableAd sample.now
        → IfSome (slice_get job.now place) IsPrintableAttribute }
{
    match job.attribute(place) {
        Some((name, expr)) => is_attribute(alloc, sample, place, name, expr),
        None => true,
    }
}

// Whether a text can say it: the sample has it at that place, or its own text does.
fn is_attribute(alloc: Global, sample: &Ad, place: usize, name: &str, expr: &Expr) -> bool
    ensures { IsTrue result → IsPrintableAd sample.now
        → IsPrintableAttribute (name.now, tree expr.now) }
{
    has_at(sample, place, name, expr) || is_name(name) && says_itself(alloc, expr)
}

fn has_at(ad: &Ad, place: usize, name: &str, expr: &Expr) -> bool
    ensures { IsTrue result → slice_get ad.now place ≡ Some (name.now, tree expr.now) }
{
    match ad.attribute(place) {
        Some((other, same)) => other == name && same.same(expr),
        None => false,
    }
}

// Whether an expression's canonical text says it.
fn says_itself(alloc: Global, expr: &Expr) -> bool
    ensures { IsTrue result → IsPrintableTree (tree expr.now) }
{
    let Ok(text) = print_expr(alloc, expr) else {
        return false;
    };
    match parse_expr(alloc, text.as_str()) {
        Ok(read) => read.same(expr),
        Err(_) => false,
    }
}
