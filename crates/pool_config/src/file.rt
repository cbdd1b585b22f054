// Configurations from text.

ghost use Rattle.std.specs.Prelude.{◌≡◌, [], IfOk};
ghost use Rattle.pool_config.specs.Configuration.{configuration_of, outcome, HaveSlots, IsWithinLimits};
ghost use Rattle.pool_config.specs.Errors.{Becomes, UnlessMemory, changed_to};
ghost use Rattle.pool_config.specs.Keys.{sets_of};
ghost use Rattle.pool_config.specs.Lines.{IsConfiguration, Reads, TakesLines, TakesLine, TakesSetting, TakesKey, TakesValue, and_macro, begun, macro_fault};
ghost use Rattle.pool_config.specs.Settings.{set_to};
ghost use Rattle.pool_config.specs.SoFar.{so_far};
ghost use Rattle.pool_config.specs.LinesSoFar.{lines_so_far};

use crate::line::setting_in;
use crate::name::key_of;
use crate::{Config, ConfigError, Key, Settings};
use ad_value::Memory;
use line_text::{Line, MacroError, MacroTable, expand, lines};
use std::alloc::Global;

/// What was read so far: what lines have set, and the names that they have set as macros.
#[derive(Drop)]
pub(crate) struct Reading {
    pub(crate) settings: Settings,
    pub(crate) table: MacroTable,
}

/// The configuration that a text says: in its logical lines `NAME = value`, with macros over the
/// names set before; names are without case. docs/MANUAL.md has the names with their values and
/// defaults. Of more than one cause of refusal the first line's is answered, and of a line's the
/// one that comes first in `ConfigError`, but `Macro` before `BadValue`. Computes in O(bytes of
/// the text and of its expanded values) where names do not collide.
pub fn read(alloc: Global, text: &str) -> Result<Config, ConfigError>
    ensures is { UnlessMemory (IsConfiguration text.now) (outcome result) }
    ensures within { IfOk result (λ c. IsWithinLimits (configuration_of c)) }
    ensures each { IfOk result (λ c. HaveSlots (configuration_of c).machines) }
{
    configuration_in(alloc, text)
}

// What the lines set, or the first refusal.
fn configuration_in(alloc: Global, text: &str) -> Result<Config, ConfigError>
    ensures { UnlessMemory (IsConfiguration text.now) (outcome result) }
{
    let lines = lines(alloc, text)?;
    let mut reading = Reading::new(alloc)?;
    match reading.read_lines(alloc, lines.as_slice()) {
        Ok(()) => reading.into_config(alloc),
        Err(error) => Err(error),
    }
}

impl Reading {
    fn new(alloc: Global) -> Result<Reading, Memory>
        ensures { IfOk result (λ r. lines_so_far r ≡ begun) }
    {
        Ok(Reading {
            settings: Settings::new(alloc)?,
            table: MacroTable::new(alloc),
        })
    }

    // Takes lines, in order.
    fn read_lines(&mut self, alloc: Global, lines: &[Line]) -> Result<(), ConfigError>
        ensures { UnlessMemory (TakesLines lines.now (lines_so_far self.old))
            (changed_to (lines_so_far self.new) result) }
    {
        for line in lines {
            match self.read_line(alloc, line) {
                Ok(()) => {}
                Err(error) => return Err(error),
            }
        }
        Ok(())
    }

    // Takes a line.
    fn read_line(&mut self, alloc: Global, line: &Line) -> Result<(), ConfigError>
        ensures { UnlessMemory (TakesLine (lines_so_far self.old) line.now)
            (changed_to (lines_so_far self.new) result) }
    {
        match setting_in(line.text.as_str()) {
            Some((name, value)) => self.read_setting(alloc, name, value, line.number),
            None => Err(ConfigError::BadLine { line: line.number }),
        }
    }

    // Takes a name with its value.
    fn read_setting(
        &mut self,
        alloc: Global,
        name: &str,
        value: &str,
        line: u32,
    ) -> Result<(), ConfigError>
        ensures { UnlessMemory (TakesSetting (lines_so_far self.old) line name.now value.now)
            (changed_to (lines_so_far self.new) result) }
    {
        match key_of(name) {
            Some(key) => self.read_key(alloc, key, name, value, line),
            None => Err(ConfigError::Unknown { line }),
        }
    }

    // Takes a name of which is known what it sets.
    fn read_key(
        &mut self,
        alloc: Global,
        key: Key<'_>,
        name: &str,
        value: &str,
        line: u32,
    ) -> Result<(), ConfigError>
        ensures { UnlessMemory
            (TakesKey (lines_so_far self.old) line (sets_of key.entry) name.now value.now)
            (changed_to (lines_so_far self.new) result) }
    {
        if self.settings.is_homeless(key) {
            return Err(ConfigError::BadLine { line });
        }
        self.take(alloc, key, name, value, line)
    }

    // Takes a value.
    fn take(
        &mut self,
        alloc: Global,
        key: Key<'_>,
        name: &str,
        value: &str,
        line: u32,
    ) -> Result<(), ConfigError>
        ensures { UnlessMemory
            (TakesValue (lines_so_far self.old) line (sets_of key.entry) name.now value.now)
            (changed_to (lines_so_far self.new) result) }
    {
        match expand(alloc, value, &self.table) {
            Ok(text) => self.put(alloc, key, name, text.as_str(), line),
            Err(error) => Err(macro_error(error, line)),
        }
    }

    // Puts in a value in which macros are replaced.
    fn put(
        &mut self,
        alloc: Global,
        key: Key<'_>,
        name: &str,
        text: &str,
        line: u32,
    ) -> Result<(), ConfigError>
        ensures { Becomes (lines_so_far self.new) result
            (and_macro name.now text.now self.old.table
            (set_to (sets_of key.entry) text.now line (so_far self.old.settings))) }
    {
        match self.settings.set(alloc, key, text, line) {
            Ok(()) => {
                self.table.set(alloc, name, text)?;
                Ok(())
            }
            Err(error) => Err(error),
        }
    }

    // The configuration, if there is a machine.
    fn into_config(self, alloc: Global) -> Result<Config, ConfigError>
        ensures { UnlessMemory (Reads [] (lines_so_far self)) (outcome result) }
    {
        let Reading { settings, .. } = self;
        if settings.has_machine() {
            settings.into_config(alloc)
        } else {
            Err(ConfigError::NoMachine)
        }
    }
}

fn macro_error(error: MacroError, line: u32) -> ConfigError
    ensures { result ≡ macro_fault line error }
{
    match error {
        MacroError::Memory => ConfigError::Memory,
        MacroError::Bad { .. } | MacroError::Circular { .. } | MacroError::TooLong { .. } => {
            ConfigError::Macro { line, error }
        }
    }
}
