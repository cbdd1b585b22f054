// How loosely operators and expressions hold together: 1 is the tightest level of operators, 6 the
// loosest.

ghost use Rattle.std.specs.Prelude.{◌≡◌};
ghost use Rattle.ad_tree.specs.Tree.{tree, rests, rests_of};
ghost use Rattle.ad_parse.specs.Operators.{level_of};
ghost use Rattle.ad_parse.specs.Canon as canon;

use ad_tree::{BinOp, Expr, RestList};

// The loosest level of the operators between two operands.
pub(crate) const LOOSEST: usize = 6;

// The level of an operator.
pub(crate) fn level_of(op: BinOp) -> usize
    ensures { result ≡ level_of op }
{
    match op {
        BinOp::Multiply | BinOp::Divide | BinOp::Modulo => 1,
        BinOp::Add | BinOp::Subtract => 2,
        BinOp::Less | BinOp::LessEqual | BinOp::GreaterEqual | BinOp::Greater => 3,
        BinOp::Equal | BinOp::NotEqual | BinOp::Same | BinOp::NotSame => 4,
        BinOp::And => 5,
        BinOp::Or => LOOSEST,
    }
}

// The level of a chain is that of its first operator.
pub(crate) fn rests_level(rest: &RestList) -> usize
    ensures { result ≡ canon.rests_level (rests_of (rests rest.now)) }
{
    match rest.items.first() {
        Some(first) => level_of(first.op),
        None => 0,
    }
}

// 0 needs no brackets anywhere, and a choice is looser than each chain.
pub(crate) fn looseness(expr: &Expr) -> usize
    ensures { result ≡ canon.looseness (tree expr.now) }
{
    match expr {
        Expr::Chain { rest, .. } => rests_level(rest),
        Expr::Cond { .. } | Expr::OrElse { .. } => LOOSEST + 1,
        _ => 0,
    }
}
