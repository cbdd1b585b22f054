ghost use Rattle.std.specs.Prelude.{◌≡◌};
ghost use Rattle.ad_value.specs.Content.{content};
ghost use Rattle.ad_eval.specs.Operators.{both, either, negated_value};

use ad_value::{Truth, Value};

/// `a && b`
pub fn both(a: Truth, b: Truth) -> Value
    ensures { content result ≡ both a b }
{
    match (a, b) {
        (Truth::False, _) | (_, Truth::False) => Value::Bool(false),
        (Truth::Error, _) | (_, Truth::Error) => Value::Error,
        (Truth::Undefined, _) | (_, Truth::Undefined) => Value::Undefined,
        (Truth::True, Truth::True) => Value::Bool(true),
    }
}

/// `a || b`
pub fn either(a: Truth, b: Truth) -> Value
    ensures { content result ≡ either a b }
{
    match (a, b) {
        (Truth::True, _) | (_, Truth::True) => Value::Bool(true),
        (Truth::Error, _) | (_, Truth::Error) => Value::Error,
        (Truth::Undefined, _) | (_, Truth::Undefined) => Value::Undefined,
        (Truth::False, Truth::False) => Value::Bool(false),
    }
}

/// `!a`
pub fn negated_value(a: Truth) -> Value
    ensures { content result ≡ negated_value a }
{
    match a {
        Truth::True => Value::Bool(false),
        Truth::False => Value::Bool(true),
        Truth::Undefined => Value::Undefined,
        Truth::Error => Value::Error,
    }
}
