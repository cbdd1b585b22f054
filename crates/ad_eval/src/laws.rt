ghost use Rattle.std.specs.Prelude.{◌≡◌, ◌↔◌, ℕ, true, false, IsTrue, List, Some, Contains};
ghost use Rattle.std.specs.List.{All};
ghost use Rattle.ad_tree.specs.Ad.{Attributes, place_of};
ghost use Rattle.ad_tree.specs.Tree.{Tree};
ghost use Rattle.ad_tree.specs.declared.operator.BinOp.{BinOp};
ghost use Rattle.ad_tree.specs.declared.operator.Scope.{Scope};
ghost use Rattle.ad_value.specs.Content.{Content};
ghost use Rattle.ad_value.specs.Names.{same_name};
ghost use Rattle.ad_eval.specs.declared.progress.Progress.{Progress};
ghost use Rattle.ad_eval.specs.declared.sides.Side.{Side};
ghost use Rattle.ad_eval.specs.Laws.{FindsWhatIsThere, MeansTheSameExchanged, IsIdentity, SettlesWhereRightIsIdle, IsConditional};
ghost use Rattle.ad_eval.specs.Match.{matches, requirements_hold};
ghost use Rattle.ad_eval.specs.Mean.{Ads, NameValues};
ghost use Rattle.ad_eval.specs.declared.progress.TheConstants.{MOST_IN_PROGRESS};

use crate::judging::Judged;
use crate::mismatch::NoMatch;
use ad_tree::Ad;
use ad_value::Seq;

/// Of each judged pair both Requirements hold with the other as target. Does nothing: whoever has
/// the list knows it.
#[tactic(auto, using(crate::proofs::MatchLemmas::both_hold))]
pub fn judged_pairs_match(list: &Seq<Judged>)
    ensures { All
        (λ j. (requirements_hold j.job j.slot j.at ≡ true)
        × (requirements_hold j.slot j.job j.at ≡ true))
        list.now }
{}

/// No pair of the jobs and slots matches. Does nothing: whoever has the value knows it.
#[tactic(auto, using(crate::proofs::MatchLemmas::none_fits))]
pub fn no_pair_matches(none: &NoMatch)
    ensures { (job slot : Attributes)
        → Contains none.now.jobs job
        → Contains none.now.slots slot
        → matches job slot none.now.at ≡ false }
{}

/// Two names have the same place in an ad exactly where they are the same name, so that places tell
/// attributes in progress apart. Does nothing.
#[tactic(auto, using(crate::proofs::PlaceLemmas::same_place))]
pub fn places_are_names(ad: &Ad)
    ensures { (x y : List ℕ) (i : ℕ)
        → place_of x ad.now ≡ Some i
        → (place_of y ad.now ≡ Some i ↔ IsTrue (same_name x y)) }
{}

/// A reference finds what look-ups by name in the ads give, as `Ad::get` does. Does nothing.
#[tactic(auto, using(crate::proofs::SideLemmas::finds_what_is_there))]
pub fn references_look_up()
    ensures { (ads : Ads) (s : Side) (c : Scope) (x : List ℕ) → FindsWhatIsThere ads s c x }
{}

/// An expression means on a side what it means on the other one where the two ads are exchanged.
/// Does nothing.
#[tactic(auto, using(crate::proofs::SideLemmas::means_the_same_exchanged))]
pub fn sides_are_alike()
    ensures { (ads : Ads) (s : Side) (now : ℕ) (b : Progress) (e : Tree)
        → MeansTheSameExchanged ads s now b e }
{}

/// `=?=` is equality of values: TRUE exactly where `Value::same` is, else FALSE; and `=!=` is its
/// negation. Does nothing.
pub fn identity_is_equality()
    ensures { (a b : Content) → IsIdentity a b }
{}

/// The left operand settles an operator's value exactly where the right one does not matter: of
/// `&&` where it is false, of `||` where it is true. Does nothing.
#[tactic(auto, using(crate::proofs::SettlingLemmas::settles_where_right_is_idle))]
pub fn left_side_settles()
    ensures { (op : BinOp) (a : Content) → SettlesWhereRightIsIdle op a }
{}

/// `ifThenElse` is the conditional operator, whatever its operands mean. Does nothing.
#[tactic(auto, using(crate::proofs::ConditionalLemmas::is_conditional))]
pub fn if_then_else_is_conditional()
    ensures { (look : NameValues) (now : ℕ) (x : List ℕ) (t y n : Tree)
        → IsConditional look now x t y n }
{}

/// The limit of attributes in progress is this number. Does nothing.
pub fn limits_are()
    ensures { MOST_IN_PROGRESS ≡ 32 }
{}
