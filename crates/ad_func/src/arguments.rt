ghost use Rattle.std.specs.Prelude.{◌≡◌, Option, MatchResult};
ghost use Rattle.std.specs.List.{list_any};
ghost use Rattle.ad_value.specs.Content.{Content, content};
ghost use Rattle.ad_value.specs.Gives.{ComesTo};
ghost use Rattle.ad_func.specs.Values.{arguments, optional_argument};
ghost use Rattle.ad_func.specs.Arguments.{is_error, is_undefined, strict, with_one, with_two, with_three, with_one_or_two, with_two_or_three};

use ad_value::Value;

fn is_error(value: &Value) -> bool
    ensures { result ≡ is_error (content value.now) }
{
    matches!(value, Value::Error)
}

fn is_undefined(value: &Value) -> bool
    ensures { result ≡ is_undefined (content value.now) }
{
    matches!(value, Value::Undefined)
}

fn has_error(values: &[Value]) -> bool
    ensures { result ≡ list_any (λ v. is_error (content v)) values.now }
{
    values.iter().any(is_error)
}

fn has_undefined(values: &[Value]) -> bool
    ensures { result ≡ list_any (λ v. is_undefined (content v)) values.now }
{
    values.iter().any(is_undefined)
}

/// The arguments again, or the value where an error or else an undefined value among them gives it.
#[tactic(auto, using(crate::proofs::ArgumentLemmas::any_of))]
pub fn unless_settled<T: Drop>(values: &[Value], given: T) -> Result<T, Value>
    ensures { (v : Content) → MatchResult result
        (λ x. (x ≡ given) × (strict (arguments values.now) v ≡ v))
        (λ s. strict (arguments values.now) v ≡ content s) }
{
    if has_error(values) {
        Err(Value::Error)
    } else if has_undefined(values) {
        Err(Value::Undefined)
    } else {
        Ok(given)
    }
}

/// The one argument, or the value where the count, an error or an undefined value already gives it.
pub fn one(values: &[Value]) -> Result<&Value, Value>
    ensures { (f : Content → Content) → ComesTo result
        (with_one f (arguments values.now))
        (λ x. f (content x.now)) }
{
    let [x] = values else {
        return Err(Value::Error);
    };
    unless_settled(values, x)
}

/// The two arguments, or the value where it is already given.
pub fn two(values: &[Value]) -> Result<(&Value, &Value), Value>
    ensures { (f : Content → Content → Content) → ComesTo result
        (with_two f (arguments values.now))
        (λ p. f (content p.0.now) (content p.1.now)) }
{
    let [x, y] = values else {
        return Err(Value::Error);
    };
    unless_settled(values, (x, y))
}

/// The three arguments, or the value where it is already given.
pub fn three(values: &[Value]) -> Result<(&Value, &Value, &Value), Value>
    ensures { (f : Content → Content → Content → Content) → ComesTo result
        (with_three f (arguments values.now))
        (λ p. f (content p.0.now) (content p.1.now) (content p.2.now)) }
{
    let [x, y, z] = values else {
        return Err(Value::Error);
    };
    unless_settled(values, (x, y, z))
}

/// One argument and perhaps a second, or the value where it is already given.
pub fn one_or_two(values: &[Value]) -> Result<(&Value, Option<&Value>), Value>
    ensures { (f : Content → Option Content → Content) → ComesTo result
        (with_one_or_two f (arguments values.now))
        (λ p. f (content p.0.now) (optional_argument p.1)) }
{
    if values.len() == 1 {
        return match one(values) {
            Ok(x) => Ok((x, None)),
            Err(value) => Err(value),
        };
    }
    match two(values) {
        Ok((x, y)) => Ok((x, Some(y))),
        Err(value) => Err(value),
    }
}

/// Two arguments and perhaps a third, or the value where it is already given.
pub fn two_or_three(values: &[Value]) -> Result<(&Value, &Value, Option<&Value>), Value>
    ensures { (f : Content → Content → Option Content → Content) → ComesTo result
        (with_two_or_three f (arguments values.now))
        (λ p. f (content p.0.now) (content p.1.now) (optional_argument p.2)) }
{
    if values.len() == 2 {
        return match two(values) {
            Ok((x, y)) => Ok((x, y, None)),
            Err(value) => Err(value),
        };
    }
    match three(values) {
        Ok((x, y, z)) => Ok((x, y, Some(z))),
        Err(value) => Err(value),
    }
}
