ghost use Rattle.std.specs.Prelude.{◌≡◌, ◌↔◌, IfOk, IsTrue};
ghost use Rattle.ad_value.specs.Content.{content, contents};
ghost use Rattle.ad_value.specs.Gives.{GivesValue};

use crate::copied::Copied;
use crate::memory::Memory;
use crate::text::Text;
use std::alloc::Global;

/// What an expression may evaluate to (HTCondor manual, "ClassAd evaluation semantics").
#[cycle(value)]
pub enum Value {
    Undefined,
    Error,
    /// A truth value.
    Bool(bool),
    /// An integer.
    Int(i64),
    /// A string.
    Str(Text),
    List(ValueList),
}

/// A list of values, made of a `Vec` and taken apart again in O(1), without memory.
#[cycle(value)]
pub struct ValueList {
    /// The values, in order.
    pub items: Vec<Value>,
}

// Drops are written out, so that they are proved here and not anew in each crate above.
impl Drop for Value {
    #[cycle(drop)]
    fn drop(self) {
        match self {
            Value::Undefined | Value::Error | Value::Bool(_) | Value::Int(_) => {}
            Value::Str(_text) => {}
            Value::List(_list) => {}
        }
    }
}

impl Drop for ValueList {
    #[cycle(drop)]
    fn drop(self) {
        let ValueList { items: _items } = self;
    }
}

impl Value {
    /// An equal value. Computes in O(size).
    #[cycle(copy)]
    pub fn copy(&self, alloc: Global) -> Result<Value, Memory>
        ensures { GivesValue result (content self.now) }
    {
        match self {
            Value::Undefined => Ok(Value::Undefined),
            Value::Error => Ok(Value::Error),
            Value::Bool(b) => Ok(Value::Bool(*b)),
            Value::Int(n) => Ok(Value::Int(*n)),
            Value::Str(text) => Ok(Value::Str(text.copy(alloc)?)),
            Value::List(list) => Ok(Value::List(list.copy(alloc)?)),
        }
    }

    /// Whether both have the same kind and content, as `=?=` asks: strings with case, lists item by
    /// item. Computes in O(size of the smaller).
    #[cycle(same)]
    pub fn same(&self, other: &Value) -> bool
        ensures { IsTrue result ↔ (content self.now ≡ content other.now) }
    {
        match (self, other) {
            (Value::Undefined, Value::Undefined) => true,
            (Value::Error, Value::Error) => true,
            (Value::Bool(a), Value::Bool(b)) => *a == *b,
            (Value::Int(a), Value::Int(b)) => *a == *b,
            (Value::Str(a), Value::Str(b)) => a.as_str() == b.as_str(),
            (Value::List(a), Value::List(b)) => a.same(b),
            _ => false,
        }
    }
}

impl ValueList {
    /// An equal list. Computes in O(size).
    #[cycle(copy)]
    pub fn copy(&self, alloc: Global) -> Result<ValueList, Memory>
        ensures { IfOk result (λ l. contents l ≡ contents self.now) }
    {
        let mut items = Vec::new(alloc);
        for item in &self.items {
            items.push(item.copy(alloc)?)?;
        }
        Ok(ValueList { items })
    }

    /// Whether both have the same items, each compared by `Value::same`. Computes in O(size of the
    /// smaller).
    #[cycle(same)]
    pub fn same(&self, other: &ValueList) -> bool
        ensures { IsTrue result ↔ (contents self.now ≡ contents other.now) }
    {
        if self.items.len() != other.items.len() {
            return false;
        }
        for (i, item) in self.items.iter().enumerate() {
            if !item.same(&other.items[i]) {
                return false;
            }
        }
        true
    }
}
