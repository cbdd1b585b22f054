//! What the two ads of a match both have (HTCondor manual, Job ClassAd Attributes and Machine
//! ClassAd Attributes).

ghost use Rattle.std.specs.Prelude.{◌≡◌, codes};

/// What must hold for a match.
pub const REQUIREMENTS: &str = "Requirements";
/// How much the ad prefers the other.
pub const RANK: &str = "Rank";

/// The names are these texts.
pub fn texts_are()
    ensures requirements { REQUIREMENTS.now ≡ codes "Requirements" }
    ensures rank { RANK.now ≡ codes "Rank" }
{}
