// Whether a log's file says what the log wrote.

ghost use Rattle.std.specs.Prelude.{◌≡◌, ◌↔◌, IsTrue};
ghost use Rattle.queue_tx.specs.Operations.{operation};

use ad_value::Text;
use queue_tx::{Op, Tx};

// Whether two lists have the same transactions.
pub(crate) fn is_same_list(a: &[Tx], b: &[Tx]) -> bool
    ensures { IsTrue result ↔ (a.now ≡ b.now) }
{
    if a.len() != b.len() {
        return false;
    }
    for (i, tx) in a.iter().enumerate() {
        if !is_same_tx(tx, &b[i]) {
            return false;
        }
    }
    true
}

pub(crate) fn is_same_tx(a: &Tx, b: &Tx) -> bool
    ensures { IsTrue result ↔ (a.now ≡ b.now) }
{
    let (ops, others) = (a.ops(), b.ops());
    if ops.len() != others.len() {
        return false;
    }
    for (i, op) in ops.iter().enumerate() {
        if !is_same_op(op, &others[i]) {
            return false;
        }
    }
    true
}

fn is_same_op(a: &Op, b: &Op) -> bool
    ensures { IsTrue result ↔ (operation a.now ≡ operation b.now) }
{
    match (a, b) {
        (
            Op::NewAd { key, kind, other },
            Op::NewAd {
                key: k,
                kind: s,
                other: t,
            },
        ) => *key == *k && is_same_text(kind, s) && is_same_text(other, t),
        (Op::DestroyAd { key }, Op::DestroyAd { key: k }) => *key == *k,
        (
            Op::SetAttr { key, name, expr },
            Op::SetAttr {
                key: k,
                name: n,
                expr: e,
            },
        ) => *key == *k && is_same_text(name, n) && expr.same(e),
        (Op::DeleteAttr { key, name }, Op::DeleteAttr { key: k, name: n }) => {
            *key == *k && is_same_text(name, n)
        }
        _ => false,
    }
}

fn is_same_text(a: &Text, b: &Text) -> bool
    ensures { IsTrue result ↔ (a.now ≡ b.now) }
{
    a.as_str() == b.as_str()
}
