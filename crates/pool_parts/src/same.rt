// Whether two transactions are the same.

ghost use Rattle.std.specs.Prelude.{◌≡◌, ◌≢◌, ◌↔◌, ◌∷◌, List, map, IsTrue, MatchOption};
ghost use Rattle.queue_tx.specs.Operations.{Operation, operation};

use ad_value::Text;
use queue_tx::{Key, Op, Tx};

/// Whether two transactions are the same: the same operations in the same order, with the same
/// texts and trees. Computes in O(size of the smaller), without memory.
pub fn is_same_tx(tx: &Tx, other: &Tx) -> bool
    ensures { IsTrue result ↔ (tx.now ≡ other.now) }
{
    are_same_ops(tx.ops(), other.ops())
}

fn are_same_ops(ops: &[Op], others: &[Op]) -> bool
    ensures { IsTrue result ↔ (map operation ops.now ≡ map operation others.now) }
{
    let mut left = ops;
    for other in others {
        match after_first(left, other) {
            Some(rest) => left = rest,
            None => return false,
        }
    }
    left.is_empty()
}

// What follows the first operation, where it is this one.
fn after_first<'a>(ops: &'a [Op], op: &Op) -> Option<&'a [Op]>
    ensures { MatchOption result
        ((more : List Operation) → map operation ops.now ≢ operation op.now ∷ more)
        (λ rest. map operation ops.now ≡ operation op.now ∷ map operation rest.now) }
{
    let (first, rest) = ops.split_first()?;
    if !is_same_op(first, op) {
        return None;
    }
    Some(rest)
}

fn is_same_op(op: &Op, other: &Op) -> bool
    ensures { IsTrue result ↔ (operation op.now ≡ operation other.now) }
{
    match (op, other) {
        (
            Op::NewAd {
                key: k,
                kind: c,
                other: o,
            },
            Op::NewAd {
                key: l,
                kind: d,
                other: p,
            },
        ) => is_same_key(*k, *l) && is_same_text(c, d) && is_same_text(o, p),
        (Op::DestroyAd { key: k }, Op::DestroyAd { key: l }) => is_same_key(*k, *l),
        (
            Op::SetAttr {
                key: k,
                name: n,
                expr: e,
            },
            Op::SetAttr {
                key: l,
                name: m,
                expr: f,
            },
        ) => is_same_key(*k, *l) && is_same_text(n, m) && e.same(f),
        (Op::DeleteAttr { key: k, name: n }, Op::DeleteAttr { key: l, name: m }) => {
            is_same_key(*k, *l) && is_same_text(n, m)
        }
        _ => false,
    }
}

fn is_same_key(key: Key, other: Key) -> bool
    ensures { IsTrue result ↔ (key ≡ other) }
{
    match (key, other) {
        (Key::Header, Key::Header) => true,
        (Key::Proc(job), Key::Proc(other)) => job == other,
        _ => false,
    }
}

fn is_same_text(text: &Text, other: &Text) -> bool
    ensures { IsTrue result ↔ (text.now ≡ other.now) }
{
    text.as_str() == other.as_str()
}
