// Which transactions a log can say.

ghost use Rattle.std.specs.Prelude.{IsTrue, map};
ghost use Rattle.ad_tree.specs.Tree.{tree};
ghost use Rattle.queue_tx.specs.Operations.{operation};
ghost use Rattle.queue_tx.specs.Printable.{IsPrintable, IsPrintableKey, IsPrintableOp, IsPrintableTree, IsWord};

use ad_parse::{parse_expr, print_expr};
use ad_token::is_name;
use ad_tree::Expr;
use claim_id::JobId;
use queue_tx::{Key, Op, Tx};
use std::alloc::Global;

/// Whether a log can say a transaction, of whose new ads the words are `Job` and `Machine`.
pub(crate) fn is_printable(alloc: Global, tx: &Tx) -> bool
    ensures { IsTrue result → IsPrintable tx.now }
{
    are_printable(alloc, tx.ops())
}

fn are_printable(alloc: Global, ops: &[Op]) -> bool
    ensures { IsTrue result → IsPrintable (map operation ops.now) }
{
    for op in ops {
        if !is_printable_op(alloc, op) {
            return false;
        }
    }
    true
}

fn is_printable_op(alloc: Global, op: &Op) -> bool
    ensures { IsTrue result → IsPrintableOp (operation op.now) }
{
    match op {
        Op::NewAd { key, kind, other } => {
            is_printable_key(*key) && is_job(kind.as_str()) && is_machine(other.as_str())
        }
        Op::DestroyAd { key } => is_printable_key(*key),
        Op::SetAttr { key, name, expr } => {
            is_printable_key(*key) && is_name(name.as_str()) && says_itself(alloc, expr)
        }
        Op::DeleteAttr { key, name } => is_printable_key(*key) && is_name(name.as_str()),
    }
}

fn is_printable_key(key: Key) -> bool
    ensures { IsTrue result → IsPrintableKey key }
{
    match key {
        Key::Header => true,
        Key::Proc(JobId { cluster, proc: _ }) => cluster > 0,
    }
}

fn is_job(word: &str) -> bool
    ensures { IsTrue result → IsWord word.now }
{
    word == "Job"
}

fn is_machine(word: &str) -> bool
    ensures { IsTrue result → IsWord word.now }
{
    word == "Machine"
}

// Whether an expression's canonical text says it.
fn says_itself(alloc: Global, expr: &Expr) -> bool
    ensures { IsTrue result → IsPrintableTree (tree expr.now) }
{
    let Ok(text) = print_expr(alloc, expr) else {
        return false;
    };
    match parse_expr(alloc, text.as_str()) {
        Ok(read) => read.same(expr),
        Err(_) => false,
    }
}
