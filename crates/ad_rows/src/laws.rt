//! What holds of all digests, and the limits.

ghost use Rattle.ad_rows.specs.Digests.{SameHaveOneDigest};
ghost use Rattle.std.specs.Prelude.{◌≡◌};
ghost use Rattle.ad_rows.specs.declared.TheConstants.{MAX_OWN_ATTRIBUTES};

/// The same name, without case, with an equal expression has the same digest.
pub fn same_attributes_have_one_digest()
    ensures { SameHaveOneDigest }
{}

/// The limit of a submitted job's own attributes is this number.
pub fn limits_are()
    ensures { MAX_OWN_ATTRIBUTES ≡ 248 }
{}
