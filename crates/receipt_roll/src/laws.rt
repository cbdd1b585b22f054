//! The limits of the crate.

ghost use Rattle.std.specs.Prelude.{◌≡◌};
ghost use Rattle.receipt_roll.specs.declared.roll.TheConstants.{MAX_ITEMS};

/// The limit of a roll's items is this number.
pub fn limits_are()
    ensures { MAX_ITEMS ≡ 1048576 }
{}
