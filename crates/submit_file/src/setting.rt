ghost use Rattle.std.specs.Prelude.{◌≡◌, ◌≤◌, ◌++◌, ◌∷◌, [], false, length, string_bytes, OnOk, OnErr};
ghost use Rattle.std.specs.List.{list_any, position_or_len};
ghost use Rattle.std.specs.Option.{option_map};
ghost use Rattle.std.specs.Str.{bytes_eq};
ghost use Rattle.ad_value.specs.Names.{lowercase};
ghost use Rattle.submit_file.specs.Settings.{with_setting, setting_of, lowercase_names};

use ad_value::{Memory, Text};
use indexmap::IndexSet;
use line_text::MacroTable;
use std::alloc::Global;
use std::marker::Model;

/// What a line sets, before macros are replaced.
#[derive(Drop)]
pub struct Setting {
    /// As the first line of this name spells it.
    pub name: Text,
    pub value: Text,
    /// The number of the line that gives the value.
    pub line: u32,
}

/// Settings in the order in which their names came; no two names are equal without case.
///
/// A look-up by name is fast where names do not collide. Names can be made to collide, and then it
/// takes O(settings).
pub struct Settings {
    items: Vec<Setting>,
    /// The names in lower case, at the places of their settings.
    names: IndexSet<String>,
}

impl Drop for Settings {
    fn drop(self) {
        let Settings {
            items: _items,
            names: _names,
        } = self;
    }
}

impl Model for Settings {
    ghost use Rattle.std.specs.Prelude.{◌≡◌, List, map, string_bytes};
    ghost use Rattle.submit_file.specs.declared.setting.Setting.{Setting};
    ghost use Rattle.submit_file.specs.Settings.{lowercase_names};

    ghost Value = { List Setting };

    ghost view = { λ s. s.items.items };

    ghost invariant = { λ s. map string_bytes s.names.keys ≡ lowercase_names s.items.items };
}

impl Settings {
    /// No settings, without memory. Computes in O(1).
    pub fn new(alloc: Global) -> Settings
        ensures { result ≡ [] }
    {
        Settings {
            items: Vec::new(alloc),
            names: IndexSet::new(alloc),
        }
    }

    /// The settings, in order. Computes in O(1).
    pub(crate) fn as_slice(&self) -> &[Setting]
        ensures { result.now ≡ self.now }
    {
        self.items.as_slice()
    }

    /// The setting of a name that is given in lower case, without memory. Computes in O(bytes)
    /// where names do not collide.
    pub fn get(&self, name: &str) -> Option<&Setting>
        requires { lowercase name.now ≡ name.now }
        ensures { option_map (λ s. s.now) result ≡ setting_of name.now self.now }
    {
        self.items.get(self.place(name))
    }

    // How many settings stand before that of a name that is given in lower case.
    fn place(&self, name: &str) -> usize
        ensures value { result
            ≡ position_or_len (λ s. bytes_eq (lowercase s.name) name.now) self.now }
        ensures within { result ≤ length self.now }
    {
        match self.names.get_index_of(name) {
            Some(place) => place,
            None => self.items.len(),
        }
    }

    /// Puts a value under a name. A name that is there keeps its place and spelling, and gets the
    /// value and the line. Computes in O(bytes of both) where names do not collide. An error leaves
    /// the settings as they were.
    #[tactic(auto, using(crate::proofs::Puts::puts))]
    pub fn put(&mut self, alloc: Global, name: &str, value: &str, line: u32) -> Result<(), Memory>
        ensures ok { OnOk result (self.new ≡ with_setting name.now value.now line self.old) }
        ensures err { OnErr result (self.new ≡ self.old) }
    {
        let key = name.to_ascii_lowercase(alloc)?;
        let value = Text::from_str(alloc, value)?;
        let place = self.place(key.as_str());
        if place < self.items.len() {
            let setting = &mut self.items[place];
            setting.value = value;
            setting.line = line;
            return Ok(());
        }
        let name = Text::from_str(alloc, name)?;
        self.add(key, Setting { name, value, line })
    }

    // Adds the setting of a new name, which is also given in lower case.
    fn add(&mut self, key: String, setting: Setting) -> Result<(), Memory>
        requires named { string_bytes key ≡ lowercase setting.name }
        requires new { list_any (bytes_eq (string_bytes key)) (lowercase_names self.old) ≡ false }
        ensures ok { OnOk result (self.new ≡ self.old ++ setting ∷ []) }
        ensures err { OnErr result (self.new ≡ self.old) }
    {
        self.items.reserve(1)?;
        self.names.insert(key)?;
        self.items.push(setting).unwrap();
        Ok(())
    }
}

/// What the lines of a file have set.
#[derive(Drop)]
pub struct LinesSoFar {
    /// The macros, without the names that each job has for itself.
    pub table: MacroTable,
    /// The lines of names.
    pub commands: Settings,
    /// The lines of attributes.
    pub attributes: Settings,
}
