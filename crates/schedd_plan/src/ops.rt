// The operations of plans.

ghost use Rattle.std.specs.Prelude.{◌≡◌, ◌++◌, ◌∷◌, [], IfOk};
ghost use Rattle.ad_tree.specs.Tree.{tree};
ghost use Rattle.ad_rows.specs.Rows.{integer_literal, text_literal};
ghost use Rattle.claim_id.specs.Texts.{claim_text};
ghost use Rattle.queue_tx.specs.Operations.{set_attr, delete_attr, destroy_ad};
ghost use Rattle.queue_tx.specs.declared.key.Key.TheVariants.{Proc};
ghost use Rattle.schedd_plan.specs.Plans.{status_op, truth_literal, whole_literal};

use ad_tree::Expr;
use ad_value::names::job::JOB_STATUS;
use ad_value::{Memory, Text, Value};
use claim_id::{ClaimId, JobId};
use queue_tx::{Key, Op, Tx};
use std::alloc::Global;

/// The literal of a number; Memory too where it is 2 to the 63 or more.
pub(crate) fn integer_expr(number: u64) -> Result<Expr, Memory>
    ensures { IfOk result (λ e. tree e ≡ integer_literal number) }
{
    match i64::try_from(number) {
        Ok(number) => Ok(Expr::Lit(Value::Int(number))),
        Err(_) => Err(Memory),
    }
}

/// The literal of a text.
pub(crate) fn text_expr(alloc: Global, text: &str) -> Result<Expr, Memory>
    ensures { IfOk result (λ e. tree e ≡ text_literal text.now) }
{
    Ok(Expr::Lit(Value::Str(Text::from_str(alloc, text)?)))
}

/// The literal of a claim's text.
pub(crate) fn claim_expr(alloc: Global, claim: ClaimId) -> Result<Expr, Memory>
    ensures { IfOk result (λ e. tree e ≡ text_literal (claim_text claim)) }
{
    Ok(Expr::Lit(Value::Str(claim.print(alloc)?)))
}

pub(crate) fn truth_expr(truth: bool) -> Expr
    ensures { tree result ≡ truth_literal truth }
{
    Expr::Lit(Value::Bool(truth))
}

/// The expression of a number that may be negative.
pub(crate) fn whole_expr(alloc: Global, number: i32) -> Result<Expr, Memory>
    ensures { IfOk result (λ e. tree e ≡ whole_literal number) }
{
    Expr::of(alloc, &Value::Int(i64::from(number)))
}

pub(crate) fn push_set(
    alloc: Global,
    tx: &mut Tx,
    key: Key,
    name: &str,
    expr: Expr,
) -> Result<(), Memory>
    ensures { IfOk result (λ _. tx.new ≡ tx.old ++ set_attr key name.now (tree expr) ∷ []) }
{
    let name = Text::from_str(alloc, name)?;
    tx.push(Op::SetAttr { key, name, expr })?;
    Ok(())
}

pub(crate) fn push_delete(alloc: Global, tx: &mut Tx, job: JobId, name: &str) -> Result<(), Memory>
    ensures { IfOk result (λ _. tx.new ≡ tx.old ++ delete_attr (Proc job) name.now ∷ []) }
{
    let name = Text::from_str(alloc, name)?;
    tx.push(Op::DeleteAttr {
        key: Key::Proc(job),
        name,
    })?;
    Ok(())
}

pub(crate) fn push_status(alloc: Global, tx: &mut Tx, job: JobId, status: u64) -> Result<(), Memory>
    ensures { IfOk result (λ _. tx.new ≡ tx.old ++ status_op job status ∷ []) }
{
    push_set(alloc, tx, Key::Proc(job), JOB_STATUS, integer_expr(status)?)
}

pub(crate) fn push_destroy(tx: &mut Tx, job: JobId) -> Result<(), Memory>
    ensures { IfOk result (λ _. tx.new ≡ tx.old ++ destroy_ad (Proc job) ∷ []) }
{
    tx.push(Op::DestroyAd {
        key: Key::Proc(job),
    })?;
    Ok(())
}
