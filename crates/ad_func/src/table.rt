ghost use Rattle.ad_value.specs.Gives.{GivesValue};
ghost use Rattle.ad_func.specs.Values.{arguments};
ghost use Rattle.ad_func.specs.Called.{call_value, function_value};

use crate::function::{Function, function_named};
use crate::{kinds, lists, numbers, texts};
use ad_value::{Memory, Value};
use std::alloc::Global;

/// The value of a call (HTCondor manual, "ClassAd predefined functions"). Names are without ASCII
/// case; an unknown name or a wrong count of arguments is an error. `now` is the reading of the
/// clock, in seconds since 1970-01-01 00:00:00 UTC, that `time()` gives. Computes in O(size of the
/// arguments); `member` in O(size of the list + items × bytes of the wanted string), and the
/// functions of string lists in O(bytes of the list × delimiters).
pub fn call(alloc: Global, name: &str, values: &[Value], now: u64) -> Result<Value, Memory>
    ensures { GivesValue result (call_value name.now (arguments values.now) now) }
{
    match function_named(name) {
        Some(function) => function_value(alloc, function, values, now),
        None => Ok(Value::Error),
    }
}

fn function_value(
    alloc: Global,
    function: Function,
    values: &[Value],
    now: u64,
) -> Result<Value, Memory>
    ensures { GivesValue result (function_value function (arguments values.now) now) }
{
    match function {
        Function::Is(kind) => Ok(kinds::kind_test(kind, values)),
        Function::IfThenElse => kinds::if_then_else(alloc, values),
        Function::Int => Ok(numbers::int(values)),
        Function::String => texts::string(alloc, values),
        Function::Strcat => texts::strcat(alloc, values),
        Function::ToUpper => texts::to_upper(alloc, values),
        Function::ToLower => texts::to_lower(alloc, values),
        Function::Substr => texts::substr(alloc, values),
        Function::Size => Ok(numbers::size(values)),
        Function::Member => lists::member(alloc, values),
        Function::StringListMember => lists::string_list_member(alloc, values),
        Function::StringListSize => lists::string_list_size(alloc, values),
        Function::Strcmp => texts::strcmp(alloc, values),
        Function::Stricmp => texts::stricmp(alloc, values),
        Function::Time => Ok(numbers::time(values, now)),
    }
}
