use ad_value::Memory;
use std::fmt;
use thiserror::Error;

/// Why a value is refused.
#[derive(Clone, Copy, Error)]
pub enum ValueError {
    /// The program's name is empty, or it is not given.
    #[error("no executable")]
    NoExecutable,
    /// A universe other than vanilla.
    #[error("not the vanilla universe")]
    Universe,
    /// Arguments whose quotes are not closed.
    #[error("a quote that is not closed")]
    Quotes,
    /// No expression, or its attribute would be too long or nested too deep.
    #[error("not an expression")]
    BadExpr,
    #[error("out of memory")]
    Memory,
}

impl fmt::Debug for ValueError {
    fn fmt<W: fmt::Write>(&self, f: &mut fmt::Formatter<W>) -> fmt::Result {
        fmt::Display::fmt(self, f)
    }
}

impl From<Memory> for ValueError {
    ghost use Rattle.std.specs.Prelude.{◌≡◌};
    ghost use Rattle.submit_lines.specs.declared.error.ValueError.TheVariants as error;

    ghost from_gives = { λ _ e. e ≡ error.Memory };

    fn from(_: Memory) -> ValueError {
        ValueError::Memory
    }
}
