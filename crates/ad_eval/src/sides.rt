ghost use Rattle.std.specs.Prelude.{◌≡◌, ◌≤◌, IfSome};
ghost use Rattle.std.specs.Option.{option_map};
ghost use Rattle.ad_tree.specs.Tree.{tree};
ghost use Rattle.ad_eval.specs.Mean.{opposite, found_in_ad, found_place, found_on_side};
ghost use Rattle.ad_eval.specs.Size.{tree_size, largest_tree};
ghost use Rattle.ad_eval.specs.Sides.{ads_of, found_tree, IsNoLarger};

use ad_tree::{Ad, Expr, Scope};

/// An ad of the two.
#[derive(Clone, Copy, PartialEq, Eq)]
pub enum Side {
    My,
    Target,
}

/// The two ads of an evaluation. The other ad may be absent.
#[derive(Clone, Copy)]
pub struct Sides<'a> {
    pub my: &'a Ad,
    pub target: Option<&'a Ad>,
}

fn opposite(side: Side) -> Side
    ensures { result ≡ opposite side }
{
    match side {
        Side::My => Side::Target,
        Side::Target => Side::My,
    }
}

// The place of a name, and the expression there.
#[tactic(auto, using(crate::proofs::FindLemmas::found_no_larger))]
fn find_in_ad<'a>(ad: &'a Ad, name: &str) -> Option<(usize, &'a Expr)>
    ensures value { option_map (λ x. (x.0, tree x.1.now)) result ≡ found_in_ad name.now ad.now }
    ensures size { IfSome result (λ x. tree_size (tree x.1.now) ≤ largest_tree ad.now) }
{
    let place = ad.place(name)?;
    let (_, expr) = ad.attribute(place)?;
    Some((place, expr))
}

// The attribute of a name on one side.
fn find_on_side<'a>(sides: Sides<'a>, side: Side, name: &str) -> Option<(Side, usize, &'a Expr)>
    ensures value { found_tree result ≡ found_on_side (ads_of sides.entry) side name.now }
    ensures size { IfSome result (IsNoLarger (ads_of sides.entry)) }
{
    let ad = match side {
        Side::My => sides.my,
        Side::Target => sides.target?,
    };
    let (place, expr) = find_in_ad(ad, name)?;
    Some((side, place, expr))
}

/// The attribute that a name means on the side that holds it, after one look-up in each ad that the
/// scope asks.
pub fn find_in_scope<'a>(
    sides: Sides<'a>,
    side: Side,
    scope: Scope,
    name: &str,
) -> Option<(Side, usize, &'a Expr)>
    ensures value { found_tree result ≡ found_place (ads_of sides.entry) side scope name.now }
    ensures size { IfSome result (IsNoLarger (ads_of sides.entry)) }
{
    match scope {
        Scope::My => find_on_side(sides, side, name),
        Scope::Target => find_on_side(sides, opposite(side), name),
        Scope::Bare => match find_on_side(sides, side, name) {
            Some(attribute) => Some(attribute),
            None => find_on_side(sides, opposite(side), name),
        },
    }
}
