ghost use Rattle.std.specs.Prelude.{◌≡◌, ◌+◌, ◌++◌, ◌∷◌, [], slice_get, IfOk};
ghost use Rattle.ad_rows.specs.Rows.{integer_literal};
ghost use Rattle.ad_tree.specs.Tree.{tree};
ghost use Rattle.queue_tx.specs.declared.key.Key.TheVariants.{Proc};
ghost use Rattle.pool_parts.specs.Submissions.{ad_ops, attribute_ops, header_ops, jobs_ops, new_ad_op, next_cluster_op, submission_ops};

use ad_tree::{Ad, Expr};
use ad_value::{Memory, Text, Value};
use claim_id::JobId;
use queue_tx::{Key, NEXT_CLUSTER_NUM, Op, Tx};
use std::alloc::Global;

/// The first word that the log keeps beside the key of an ad.
pub const KIND: &str = "Job";
/// The second one.
pub const OTHER: &str = "Machine";

/// The transaction that brings jobs into the queue, as one cluster, with procs from 0, each ad with
/// its attributes in order; the cluster after it is the next one. `header` says whether the queue
/// has a header, which is made otherwise. Memory too where there are 2 to the 32 jobs or more.
/// Computes in O(size of the ads).
pub fn submission_tx(alloc: Global, header: bool, cluster: u32, jobs: &[Ad]) -> Result<Tx, Memory>
    ensures { IfOk result (λ tx. tx ≡ submission_ops header cluster jobs.now) }
{
    let mut tx = Tx::new(alloc);
    push_header(alloc, &mut tx, header)?;
    push_next_cluster(alloc, &mut tx, cluster)?;
    push_jobs(alloc, &mut tx, cluster, jobs)?;
    Ok(tx)
}

fn push_header(alloc: Global, tx: &mut Tx, header: bool) -> Result<(), Memory>
    ensures { IfOk result (λ _. tx.new ≡ tx.old ++ header_ops header) }
{
    if header {
        return Ok(());
    }
    push_new(alloc, tx, Key::Header)
}

fn push_new(alloc: Global, tx: &mut Tx, key: Key) -> Result<(), Memory>
    ensures { IfOk result (λ _. tx.new ≡ tx.old ++ new_ad_op key ∷ []) }
{
    let kind = Text::from_str(alloc, KIND)?;
    let other = Text::from_str(alloc, OTHER)?;
    tx.push(Op::NewAd { key, kind, other })?;
    Ok(())
}

fn push_next_cluster(alloc: Global, tx: &mut Tx, cluster: u32) -> Result<(), Memory>
    ensures { IfOk result (λ _. tx.new ≡ tx.old ++ next_cluster_op cluster ∷ []) }
{
    let name = Text::from_str(alloc, NEXT_CLUSTER_NUM)?;
    let expr = following(cluster);
    tx.push(Op::SetAttr {
        key: Key::Header,
        name,
        expr,
    })?;
    Ok(())
}

// The literal of the number after this one.
fn following(cluster: u32) -> Expr
    ensures { tree result ≡ integer_literal (cluster + 1) }
{
    Expr::Lit(Value::Int(i64::from(cluster) + 1))
}

fn push_jobs(alloc: Global, tx: &mut Tx, cluster: u32, jobs: &[Ad]) -> Result<(), Memory>
    ensures { IfOk result (λ _. tx.new ≡ tx.old ++ jobs_ops cluster 0 jobs.now) }
{
    let mut proc = 0u32;
    for ad in jobs {
        push_ad(alloc, tx, Key::Proc(JobId { cluster, proc }), ad)?;
        proc = next_proc(proc)?;
    }
    Ok(())
}

fn next_proc(proc: u32) -> Result<u32, Memory>
    ensures { IfOk result (λ next. next ≡ proc + 1) }
{
    match proc.checked_add(1) {
        Some(next) => Ok(next),
        None => Err(Memory),
    }
}

// An ad comes into the queue under a key.
fn push_ad(alloc: Global, tx: &mut Tx, key: Key, ad: &Ad) -> Result<(), Memory>
    ensures { IfOk result (λ _. tx.new ≡ tx.old ++ ad_ops key ad.now) }
{
    push_new(alloc, tx, key)?;
    for place in 0..ad.len() {
        push_attribute(alloc, tx, key, ad, place)?;
    }
    Ok(())
}

// The attribute of a place comes into the ad of a key.
fn push_attribute(alloc: Global, tx: &mut Tx, key: Key, ad: &Ad, place: usize) -> Result<(), Memory>
    ensures { IfOk result (λ _. tx.new
        ≡ tx.old ++ attribute_ops key (slice_get ad.now place)) }
{
    if let Some((name, expr)) = ad.attribute(place) {
        let name = Text::from_str(alloc, name)?;
        let expr = expr.copy(alloc)?;
        tx.push(Op::SetAttr { key, name, expr })?;
    }
    Ok(())
}
