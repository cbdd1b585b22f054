// Orders: the lines `at`.

ghost use Rattle.std.specs.Prelude.{◌≡◌, ◌↔◌, ℕ};
ghost use Rattle.claim_id.specs.declared.numbers.JobId.{JobId};
ghost use Rattle.claim_id.specs.declared.order.Verb.{Verb};
ghost use Rattle.claim_id.specs.declared.order.Wish.{Wish};
ghost use Rattle.script_plan.specs.Entries.{IsTime, IsVerb, IsJobWord, IsOrder};

use ad_value::{Text, number_in};
use claim_id::{JobId, Verb, Wish};
use pool_outer::LAST_READING;

/// The order that the words behind `at` are: its time, its verb and its job. Computes in O(bytes).
pub(crate) fn order(words: &[Text]) -> Option<Wish>
    ensures { (w : Wish) → (result ≡ Some w) ↔ IsOrder words.now w }
{
    let [time, verb, job] = words else {
        return None;
    };
    order_of(time.as_str(), verb.as_str(), job.as_str())
}

fn order_of(time: &str, verb: &str, job: &str) -> Option<Wish>
    ensures { (w : Wish) → (result ≡ Some w)
        ↔ (IsTime time.now w.at × IsVerb verb.now w.verb × IsJobWord job.now w.job) }
{
    Some(Wish {
        at: time_of(time)?,
        verb: verb_of(verb)?,
        job: job_of(job)?,
    })
}

// The reading that a word is.
fn time_of(word: &str) -> Option<u64>
    ensures { (n : ℕ) → (result ≡ Some n) ↔ IsTime word.now n }
{
    let number = number_in(word)?;
    if number > LAST_READING {
        return None;
    }
    Some(number)
}

// The verb that a word is.
fn verb_of(word: &str) -> Option<Verb>
    ensures { (v : Verb) → (result ≡ Some v) ↔ IsVerb word.now v }
{
    match word {
        "rm" => Some(Verb::Remove),
        "hold" => Some(Verb::Hold),
        "release" => Some(Verb::Resume),
        _ => None,
    }
}

// The job that a word is.
fn job_of(word: &str) -> Option<JobId>
    ensures { (job : JobId) → (result ≡ Some job) ↔ IsJobWord word.now job }
{
    match JobId::read(word) {
        Ok(job) => Some(job),
        Err(_) => None,
    }
}
