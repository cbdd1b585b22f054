ghost use Rattle.std.specs.Prelude.{◌≡◌, ◌<◌, IfOk, IsOk, codes};
ghost use Rattle.ad_rows.specs.Rows.{integer_literal};
ghost use Rattle.queue_tx.specs.Operations.{operation, new_ad, set_attr};
ghost use Rattle.queue_tx.specs.Printable.{IsPrintable};
ghost use Rattle.queue_tx.specs.Queues.{queue_after};
ghost use Rattle.log_hammer.specs.Submissions.{first_job, submission};

use ad_tree::Expr;
use ad_value::{Memory, Text, Value};
use anyhow::{Result, bail};
use claim_id::JobId;
use pool_outer::Store;
use queue_log::Log;
use queue_tx::{Key, Op, Tx};
use std::alloc::Global;

/// The submission of a job that a log can take: that of the cluster behind its next number.
pub(crate) fn next_submission<D: Store>(alloc: Global, log: &Log<D>) -> Result<Tx>
    ensures printable { IfOk result (λ tx. IsPrintable tx) }
    ensures applies { IfOk result (λ tx. IsOk (queue_after log.now.queue tx)) }
{
    let tx = printable_submission(alloc, cluster_at(log.roll().len())?)?;
    match log.queue().prepare(alloc, &tx) {
        Ok(_prepared) => Ok(tx),
        Err(error) => Err(error.into()),
    }
}

/// Whether a log has the submission of that number, and its job.
pub(crate) fn has_submission<D: Store>(log: &Log<D>, number: u64) -> bool {
    let Ok(cluster) = cluster_at(number) else {
        return false;
    };
    match log.roll().items().get(number as usize) {
        Some(tx) => makes_first_job(tx, cluster) && log.queue().get(&first_job(cluster)).is_some(),
        None => false,
    }
}

fn cluster_at(number: u64) -> Result<u32>
    ensures { IfOk result (λ cluster. 0 < cluster) }
{
    match u32::try_from(number) {
        Ok(number) if number < u32::MAX => Ok(number + 1),
        _ => bail!("there are too many transactions"),
    }
}

fn first_job(cluster: u32) -> Key
    ensures { result ≡ first_job cluster }
{
    Key::Proc(JobId { cluster, proc: 0 })
}

fn printable_submission(alloc: Global, cluster: u32) -> Result<Tx, Memory>
    requires { 0 < cluster }
    ensures { IfOk result (λ tx. IsPrintable tx) }
{
    submission(alloc, cluster)
}

// The submission of the first job of a cluster.
fn submission(alloc: Global, cluster: u32) -> Result<Tx, Memory>
    ensures { IfOk result (λ tx. tx ≡ submission cluster) }
{
    let mut tx = Tx::new(alloc);
    tx.push(new_job(alloc, first_job(cluster))?)?;
    tx.push(idle(alloc, first_job(cluster))?)?;
    Ok(tx)
}

fn new_job(alloc: Global, key: Key) -> Result<Op, Memory>
    ensures { IfOk result (λ op. operation op ≡ new_ad key (codes "Job") (codes "Machine")) }
{
    Ok(Op::NewAd {
        key,
        kind: Text::from_str(alloc, "Job")?,
        other: Text::from_str(alloc, "Machine")?,
    })
}

fn idle(alloc: Global, key: Key) -> Result<Op, Memory>
    ensures { IfOk result (λ op. operation op
        ≡ set_attr key (codes "JobStatus") (integer_literal 1)) }
{
    Ok(Op::SetAttr {
        key,
        name: Text::from_str(alloc, "JobStatus")?,
        expr: Expr::Lit(Value::Int(1)),
    })
}

// Whether a transaction makes the first job of a cluster.
fn makes_first_job(tx: &Tx, cluster: u32) -> bool {
    match tx.ops() {
        [Op::NewAd { key, .. }, ..] => *key == first_job(cluster),
        _ => false,
    }
}
