ghost use Rattle.std.specs.Prelude.{◌≡◌};
ghost use Rattle.ad_tree.specs.Tree.{tree};
ghost use Rattle.ad_rows.specs.Digests.{attribute_digest, name_fed};

use crate::expression::feed_expr;
use ad_tree::Expr;
use std::hash::{FoldHasher, Hasher};

/// A number for a name and an expression, which is the same for the same name without case and an
/// equal expression. Who picks the expressions can make others have it too. Takes no memory.
/// Computes in O(size).
pub fn attribute_digest(name: &str, expr: &Expr) -> u64
    ensures { result ≡ attribute_digest name.now (tree expr.now) }
{
    feed_expr(feed_name(FoldHasher::default(), name), expr).finish()
}

// Feeds a name's bytes in lower case, one by one.
#[tactic(auto, using(crate::proofs::Feeding::steps))]
fn feed_name(state: FoldHasher, name: &str) -> FoldHasher
    ensures { result ≡ name_fed state name.now }
{
    let mut fed = state;
    for byte in name.as_bytes() {
        fed.write_u8(byte.to_ascii_lowercase());
    }
    fed
}
