// What lines set of a machine.

ghost use Rattle.std.specs.Prelude.{◌≡◌, map};
ghost use Rattle.ad_tree.specs.Tree.{tree};
ghost use Rattle.submit_lines.specs.Numbers.{decimal};
ghost use Rattle.pool_config.specs.Configuration.{machine_of, total_slots};
ghost use Rattle.pool_config.specs.Errors.{Becomes};
ghost use Rattle.pool_config.specs.Settings.{machine_with, slots_with, cpus_with, memory_with, disk_with, start_with, rank_with, attribute_with, attributes_with, expression_in, is_full};

use crate::config::{MAX_MACHINE_ATTRIBUTES, Machine, discard};
use crate::error::ConfigError;
use crate::setting_word::SlotWord;
use crate::settings::are_above;
use crate::value::{MAX_AMOUNT, expression_in, set_expression, small_within};
use ad_tree::{Ad, Expr, SetError};
use std::alloc::Global;
use submit_lines::decimal;

impl Machine {
    /// Sets what a word sets to a value of line `line`, in which macros are replaced, of a machine
    /// beside others.
    pub(crate) fn set(
        &mut self,
        alloc: Global,
        word: SlotWord,
        text: &str,
        line: u32,
        others: &[Machine],
    ) -> Result<(), ConfigError>
        ensures { Becomes (machine_of self.new) result
            (machine_with word text.now line (total_slots (map machine_of others.now))
            (machine_of self.old)) }
    {
        match word {
            SlotWord::Slots => self.set_slots(text, line, others),
            SlotWord::Cpus => self.set_cpus(text, line),
            SlotWord::Memory => self.set_memory(text, line),
            SlotWord::Disk => self.set_disk(text, line),
            SlotWord::Start => self.set_start(alloc, text, line),
            SlotWord::Rank => self.set_rank(alloc, text, line),
        }
    }

    fn set_slots(&mut self, text: &str, line: u32, others: &[Machine]) -> Result<(), ConfigError>
        ensures { Becomes (machine_of self.new) result
            (slots_with (total_slots (map machine_of others.now)) line (machine_of self.old)
            (decimal text.now)) }
    {
        match decimal(text) {
            None | Some(0) => Err(ConfigError::BadValue { line }),
            Some(n) if are_above(others, n) => Err(ConfigError::Slots { line }),
            Some(n) => {
                self.slots = n as u32;
                Ok(())
            }
        }
    }

    fn set_cpus(&mut self, text: &str, line: u32) -> Result<(), ConfigError>
        ensures { Becomes (machine_of self.new) result
            (cpus_with text.now line (machine_of self.old)) }
    {
        match small_within(0, MAX_AMOUNT, text) {
            Some(n) => {
                self.cpus = n;
                Ok(())
            }
            None => Err(ConfigError::BadValue { line }),
        }
    }

    fn set_memory(&mut self, text: &str, line: u32) -> Result<(), ConfigError>
        ensures { Becomes (machine_of self.new) result
            (memory_with text.now line (machine_of self.old)) }
    {
        match small_within(0, MAX_AMOUNT, text) {
            Some(n) => {
                self.memory = n;
                Ok(())
            }
            None => Err(ConfigError::BadValue { line }),
        }
    }

    fn set_disk(&mut self, text: &str, line: u32) -> Result<(), ConfigError>
        ensures { Becomes (machine_of self.new) result
            (disk_with text.now line (machine_of self.old)) }
    {
        match small_within(0, MAX_AMOUNT, text) {
            Some(n) => {
                self.disk = n;
                Ok(())
            }
            None => Err(ConfigError::BadValue { line }),
        }
    }

    fn set_start(&mut self, alloc: Global, text: &str, line: u32) -> Result<(), ConfigError>
        ensures { Becomes (machine_of self.new) result
            (start_with text.now line (machine_of self.old)) }
    {
        set_expression(&mut self.start, alloc, text, line)
    }

    fn set_rank(&mut self, alloc: Global, text: &str, line: u32) -> Result<(), ConfigError>
        ensures { Becomes (machine_of self.new) result
            (rank_with text.now line (machine_of self.old)) }
    {
        set_expression(&mut self.rank, alloc, text, line)
    }

    /// Sets an attribute of the machine's own.
    pub(crate) fn set_attribute(
        &mut self,
        alloc: Global,
        name: &str,
        text: &str,
        line: u32,
    ) -> Result<(), ConfigError>
        ensures { Becomes (machine_of self.new) result
            (attribute_with name.now line (machine_of self.old) (expression_in text.now)) }
    {
        let Some(expr) = expression_in(alloc, text)? else {
            return Err(ConfigError::BadValue { line });
        };
        set_own(&mut self.attrs, alloc, name, expr, line)
    }
}

// Sets an attribute of a machine's own.
fn set_own(
    attrs: &mut Ad,
    alloc: Global,
    name: &str,
    expr: Expr,
    line: u32,
) -> Result<(), ConfigError>
    ensures { Becomes attrs.new result (attributes_with name.now line (tree expr) attrs.old) }
{
    if is_full(attrs, name) {
        discard(expr);
        return Err(ConfigError::Full { line });
    }
    match attrs.set(alloc, name, expr) {
        Ok(()) => Ok(()),
        Err(SetError::Full) => Err(ConfigError::Full { line }),
        Err(SetError::Memory) => Err(ConfigError::Memory),
    }
}

// Whether a name would be one too many of a machine's own.
fn is_full(attrs: &Ad, name: &str) -> bool
    ensures { result ≡ is_full name.now attrs.now }
{
    attrs.len() >= MAX_MACHINE_ATTRIBUTES && attrs.get(name).is_none()
}
