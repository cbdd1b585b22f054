ghost use Rattle.std.specs.Prelude.{◌≡◌};
ghost use Rattle.ad_value.specs.Content.{content};
ghost use Rattle.ad_value.specs.Truth.{truth_of, chosen_value};
ghost use Rattle.ad_value.specs.Gives.{GivesValue};
ghost use Rattle.ad_func.specs.Values.{arguments};
ghost use Rattle.ad_func.specs.Kinds.{is_of_kind, kind_test, if_then_else};

use crate::function::ValueKind;
use ad_value::{Memory, Truth, Value};
use std::alloc::Global;

/// Whether the value is of the kind.
pub fn is_of_kind(kind: ValueKind, value: &Value) -> bool
    ensures { result ≡ is_of_kind kind (content value.now) }
{
    matches!(
        (kind, value),
        (ValueKind::Undefined, Value::Undefined)
            | (ValueKind::Error, Value::Error)
            | (ValueKind::Str, Value::Str(_))
            | (ValueKind::Int, Value::Int(_))
            | (ValueKind::Bool, Value::Bool(_))
            | (ValueKind::List, Value::List(_))
    )
}

/// `isUndefined(x)` and its kin.
pub fn kind_test(kind: ValueKind, values: &[Value]) -> Value
    ensures { content result ≡ kind_test kind (arguments values.now) }
{
    let [x] = values else {
        return Value::Error;
    };
    Value::Bool(is_of_kind(kind, x))
}

fn chosen_argument(alloc: Global, test: &Value, yes: &Value, no: &Value) -> Result<Value, Memory>
    ensures { GivesValue result
        (chosen_value (truth_of (content test.now)) (content yes.now) (content no.now)) }
{
    match test.truth() {
        Truth::True => yes.copy(alloc),
        Truth::False => no.copy(alloc),
        Truth::Undefined => Ok(Value::Undefined),
        Truth::Error => Ok(Value::Error),
    }
}

/// `ifThenElse(c, a, b)`: what is not chosen may be an error.
pub fn if_then_else(alloc: Global, values: &[Value]) -> Result<Value, Memory>
    ensures { GivesValue result (if_then_else (arguments values.now)) }
{
    let [test, yes, no] = values else {
        return Ok(Value::Error);
    };
    chosen_argument(alloc, test, yes, no)
}
