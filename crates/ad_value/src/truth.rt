ghost use Rattle.std.specs.Prelude.{◌≡◌};
ghost use Rattle.ad_value.specs.Content.{content};
ghost use Rattle.ad_value.specs.Truth.{truth_of};

use crate::value::Value;

/// What a value counts as where a truth value is asked for.
#[derive(Clone, Copy)]
pub enum Truth {
    True,
    False,
    Undefined,
    Error,
}

impl Value {
    /// What the value counts as: a number is true where it is not 0, and strings and lists count as
    /// errors. Computes in O(1), without memory.
    pub fn truth(&self) -> Truth
        ensures { result ≡ truth_of (content self.now) }
    {
        match self {
            Value::Undefined => Truth::Undefined,
            Value::Bool(true) => Truth::True,
            Value::Bool(false) | Value::Int(0) => Truth::False,
            Value::Int(_) => Truth::True,
            Value::Error | Value::Str(_) | Value::List(_) => Truth::Error,
        }
    }
}
