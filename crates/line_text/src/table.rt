// Macros: names and their values.

ghost use Rattle.std.specs.Prelude.{◌≡◌, ◌↔◌, ◌<◌, [], length, string_bytes, IfOk, IfSome, IsTrue, OnOk, OnErr};
ghost use Rattle.std.specs.Option.{option_map};
ghost use Rattle.ad_value.specs.Names.{lowercase};
ghost use Rattle.line_text.specs.Macros.{macros_of, with_macro, find_macro};

use ad_value::{Copied, Memory, Text};
use indexmap::IndexMap;
use std::alloc::Global;
use std::marker::Model;

/// Macros: pairs of a name and its value, in the order in which the names came. Names are without
/// case: the table has them in lower case, no two equal.
///
/// A look-up by name is fast where names do not collide in the table. Names can be made to collide,
/// and then it takes O(names).
pub struct MacroTable {
    entries: IndexMap<String, Text>,
}

impl Drop for MacroTable {
    fn drop(self) {
        let MacroTable { entries: _entries } = self;
    }
}

impl Model for MacroTable {
    ghost use Rattle.std.specs.Prelude.{List, ℕ};

    ghost Value = { List (List ℕ × List ℕ) };

    ghost use Rattle.line_text.specs.Macros.{macros_of};

    ghost view = { λ t. macros_of t.entries.entries };
}

impl MacroTable {
    /// A table without names, without memory. Computes in O(1).
    pub fn new(alloc: Global) -> MacroTable
        ensures { result ≡ [] }
    {
        MacroTable {
            entries: IndexMap::new(alloc),
        }
    }

    /// How many names there are. Computes in O(1).
    pub fn len(&self) -> usize
        ensures { result ≡ length self.now }
    {
        self.entries.len()
    }

    /// Whether there are no names. Computes in O(1).
    pub fn is_empty(&self) -> bool
        ensures { IsTrue result ↔ (self.now ≡ []) }
    {
        self.entries.is_empty()
    }

    /// Puts a value under a name. A name that is there keeps its place, and a new one comes last.
    /// Computes in O(bytes) on average, where names do not collide. An error leaves the table as it
    /// was.
    pub fn set(&mut self, alloc: Global, name: &str, value: &str) -> Result<(), Memory>
        ensures ok { OnOk result (
            self.new ≡ with_macro (lowercase name.now) value.now self.old) }
        ensures err { OnErr result (self.new ≡ self.old) }
    {
        let name = lowercase(alloc, name)?;
        let value = Text::from_str(alloc, value)?;
        put(&mut self.entries, name, value)
    }

    /// The place of a name, from 0, and its value. Computes in O(bytes of the name) where names do
    /// not collide.
    pub(crate) fn look_up(&self, alloc: Global, name: &str) -> Result<Option<(usize, &str)>, Memory>
        ensures value { IfOk result (λ found.
            option_map (λ f. (f.0, f.1.now)) found ≡ find_macro (lowercase name.now) self.now) }
        ensures within { IfOk result (λ found. IfSome found (λ f. f.0 < length self.now)) }
    {
        let name = lowercase(alloc, name)?;
        Ok(self.find(name.as_str()))
    }

    // The same of a name that is given in lower case, without memory.
    fn find(&self, name: &str) -> Option<(usize, &str)>
        ensures value { option_map (λ f. (f.0, f.1.now)) result ≡ find_macro name.now self.now }
        ensures within { IfSome result (λ f. f.0 < length self.now) }
    {
        match self.entries.get_full(name) {
            Some((place, _, value)) => Some((place, value.as_str())),
            None => None,
        }
    }
}

/// A name in lower case. Computes in O(bytes).
fn lowercase(alloc: Global, name: &str) -> Result<String, Memory>
    ensures { IfOk result (λ l. string_bytes l ≡ lowercase name.now) }
{
    Ok(name.to_ascii_lowercase(alloc)?)
}

// Puts a value under a name.
fn put(entries: &mut IndexMap<String, Text>, name: String, value: Text) -> Result<(), Memory>
    ensures ok { OnOk result (
        macros_of entries.new.entries
        ≡ with_macro (string_bytes name) value (macros_of entries.old.entries)) }
    ensures err { OnErr result (entries.new.entries ≡ entries.old.entries) }
{
    if let Some(place) = entries.get_index_of(name.as_str()) {
        entries[place] = value;
        return Ok(());
    }
    entries.insert(name, value)?;
    Ok(())
}

impl Copied for MacroTable {
    fn copy(&self, alloc: Global) -> Result<MacroTable, Memory> {
        let mut entries = IndexMap::new(alloc);
        for (name, value) in self.entries.iter() {
            put_copy(alloc, &mut entries, name, value)?;
        }
        Ok(MacroTable { entries })
    }
}

// Puts an equal value under an equal name.
fn put_copy(
    alloc: Global,
    entries: &mut IndexMap<String, Text>,
    name: &String,
    value: &Text,
) -> Result<(), Memory>
    ensures { OnOk result (
        macros_of entries.new.entries
        ≡ with_macro (string_bytes name.now) value.now (macros_of entries.old.entries)) }
{
    let name = name.clone()?;
    let value = value.copy(alloc)?;
    put(entries, name, value)
}
