ghost use Rattle.std.specs.Prelude.{◌≡◌, map};
ghost use Rattle.ad_tree.specs.Tree.{tree};
ghost use Rattle.pool_parts.specs.Loggable.{AreShortOps, HasShortEnd, HasShortNumbers, IsShortOp, IsShortTree};
ghost use Rattle.queue_tx.specs.Operations.{operation};
ghost use Rattle.schedd_plan.specs.Plans.{plan_ops};

use ad_tree::Expr;
use ad_value::Value;
use queue_tx::{Op, Tx};
use schedd_plan::JobPlan;

/// Goes over the numbers of a plan and of its transaction. Each stands in an expression there, as
/// an integer of 64 bits. Computes in O(operations), without memory.
pub fn go_over_numbers(plan: &JobPlan, tx: &Tx)
    ensures { tx.now ≡ plan_ops plan.now → HasShortNumbers plan.now }
{
    look_at_end(*plan);
    go_over_ops(tx.ops());
}

// An exit status, or the number of a signal, has 32 bits.
fn look_at_end(plan: JobPlan)
    ensures { HasShortEnd plan }
{
    let _ = plan;
}

fn go_over_ops(ops: &[Op])
    ensures { AreShortOps (map operation ops.now) }
{
    for op in ops {
        look_at_op(op);
    }
}

fn look_at_op(op: &Op)
    ensures { IsShortOp (operation op.now) }
{
    if let Op::SetAttr { expr, .. } = op {
        look_at_expr(expr);
    }
}

// An integer is known to have 64 bits once it is read.
fn look_at_expr(expr: &Expr)
    ensures { IsShortTree (tree expr.now) }
{
    if let Expr::Lit(Value::Int(number)) = expr {
        let _number = *number;
    }
}
