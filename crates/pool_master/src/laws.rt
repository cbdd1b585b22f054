//! What holds of every history.

ghost use Rattle.std.specs.Prelude.{◌≡◌, ℕ, List};
ghost use Rattle.thin_pool.specs.declared.history.History.{History};
ghost use Rattle.pool_master.specs.UserLog.{IsUserLog};

/// A history has one user log.
pub fn user_log_is_determined()
    ensures { (history : History) (one other : List ℕ) → IsUserLog history one
        → IsUserLog history other → one ≡ other }
{}
