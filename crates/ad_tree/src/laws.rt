//! The limits of the crate.

ghost use Rattle.std.specs.Prelude.{◌≡◌};
ghost use Rattle.ad_tree.specs.declared.ad.TheConstants.{MAX_ATTRIBUTES};

/// The limit of an ad's attributes is this number.
pub fn limits_are()
    ensures { MAX_ATTRIBUTES ≡ 256 }
{}
