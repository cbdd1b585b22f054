ghost use Rattle.std.specs.Prelude.{◌≡◌, IfOk, OnOk, OnErr, encode_utf8, string_bytes};
ghost use Rattle.std.specs.List.{flat_map};
ghost use Rattle.ad_value.specs.Content.{content, contents, contents_of};
ghost use Rattle.ad_value.specs.Literal.{literal_text, items_text, item_separator, integer_text, quoted_text, escape_text};
ghost use Rattle.ad_value.specs.Writing.{AddsText};

use crate::memory::Memory;
use crate::text::Text;
use crate::value::{Value, ValueList};
use itoa::Buffer;
use std::alloc::Global;

impl Value {
    /// The literal in an expression's canonical text. The least integer has none of its own and is
    /// written `-9223372036854775807 - 1`. Computes in O(bytes of the text).
    pub fn text(&self, alloc: Global) -> Result<Text, Memory>
        ensures { IfOk result (λ t. t ≡ literal_text (content self.now)) }
    {
        let mut text = String::new(alloc);
        self.write(&mut text)?;
        Ok(Text::from(text))
    }

    #[cycle(write)]
    fn write(&self, text: &mut String) -> Result<(), Memory>
        ensures { OnOk result (AddsText text.old text.new (literal_text (content self.now))) }
    {
        match self {
            Value::Undefined => Ok(text.push_str("UNDEFINED")?),
            Value::Error => Ok(text.push_str("ERROR")?),
            Value::Bool(true) => Ok(text.push_str("TRUE")?),
            Value::Bool(false) => Ok(text.push_str("FALSE")?),
            Value::Int(n) => write_integer(text, *n),
            Value::Str(s) => write_quoted(text, s.as_str()),
            Value::List(list) => {
                text.push_str("{")?;
                list.write(text)?;
                Ok(text.push_str("}")?)
            }
        }
    }
}

impl ValueList {
    #[cycle(write)]
    fn write(&self, text: &mut String) -> Result<(), Memory>
        ensures { OnOk result (
            AddsText text.old text.new (items_text (contents_of (contents self.now)))) }
    {
        for (i, item) in self.items.iter().enumerate() {
            write_item_separator(text, i)?;
            item.write(text)?;
        }
        Ok(())
    }
}

/// Writes what stands before the item at a place of a list: nothing before the first, `, ` before
/// the others. Computes in O(1) on average. An error leaves the text as it was.
pub fn write_item_separator(text: &mut String, place: usize) -> Result<(), Memory>
    ensures ok { OnOk result (AddsText text.old text.new (item_separator place)) }
    ensures err { OnErr result (string_bytes text.new ≡ string_bytes text.old) }
{
    if place == 0 {
        return Ok(());
    }
    Ok(text.push_str(", ")?)
}

fn write_integer(text: &mut String, n: i64) -> Result<(), Memory>
    ensures { OnOk result (AddsText text.old text.new (integer_text n)) }
{
    if n == i64::MIN {
        return Ok(text.push_str("-9223372036854775807 - 1")?);
    }
    let mut buffer = Buffer::new();
    Ok(text.push_str(buffer.format(n))?)
}

fn write_quoted(text: &mut String, s: &str) -> Result<(), Memory>
    ensures { OnOk result (AddsText text.old text.new (quoted_text s.now)) }
{
    text.push('"')?;
    for c in s.chars() {
        write_escaped(text, c)?;
    }
    Ok(text.push('"')?)
}

#[tactic(auto, using(crate::proofs::LiteralLemmas::escapes))]
fn write_escaped(text: &mut String, c: char) -> Result<(), Memory>
    ensures { OnOk result (AddsText text.old text.new (flat_map escape_text (encode_utf8 c))) }
{
    match c {
        '"' => Ok(text.push_str("\\\"")?),
        '\\' => Ok(text.push_str("\\\\")?),
        _ => Ok(text.push(c)?),
    }
}
