ghost use Rattle.std.specs.Prelude.{◌≡◌, Result};
ghost use Rattle.std.specs.Option.{option_map};
ghost use Rattle.ad_tree.specs.Tree.{Tree, tree};
ghost use Rattle.submit_lines.specs.declared.error.ValueError.{ValueError};
ghost use Rattle.submit_lines.specs.Values.{GivesValue, some_of};
ghost use Rattle.submit_file.specs.Origins.{origin_of, setting_for, name_for, value_for, preset_for};

use crate::setting::{LinesSoFar, Setting};
use ad_tree::Expr;
use ad_value::names::job::OWNER;
use ad_value::{Text, Value};
use std::alloc::Global;
use submit_lines::{Command, ValueError, expression, string_expression};

/// Where an attribute of a job comes from.
#[derive(Clone, Copy)]
pub(crate) enum Source<'a> {
    /// The command `owner`.
    Owner,
    Command(Command),
    /// The attribute's own line.
    Line(&'a Setting),
}

impl<'a> Source<'a> {
    /// What the file sets for the attribute, without memory. Computes in O(1) where names do not
    /// collide.
    pub(crate) fn setting(self, file: &'a LinesSoFar) -> Option<&'a Setting>
        ensures { option_map (λ s. s.now) result
            ≡ setting_for file.entry.now (origin_of self.entry) }
    {
        match self {
            Source::Owner => file.commands.get("owner"),
            Source::Command(command) => file.commands.get(command.name()),
            Source::Line(setting) => Some(setting),
        }
    }

    /// The attribute's name, where what is set says this text once its macros are replaced.
    /// Computes in O(1).
    pub(crate) fn name(self, text: &str) -> &'a str
        ensures { result.now ≡ name_for (origin_of self.entry) text.now }
    {
        match self {
            Source::Owner => OWNER,
            Source::Command(command) => command.attribute(text),
            Source::Line(setting) => setting.name.as_str(),
        }
    }

    /// What the attribute is then. Computes in O(bytes of the text and of its canonical text).
    pub(crate) fn read(self, alloc: Global, text: &str) -> Result<Option<Expr>, ValueError>
        ensures { GivesValue (option_map tree) result
            (value_for (origin_of self.entry) text.now) }
    {
        match self {
            Source::Owner => some_of(string_expression(alloc, text)),
            Source::Command(command) => command.read(alloc, text),
            Source::Line(_) => some_of(expression(alloc, text)),
        }
    }

    /// What the attribute is where the file sets nothing for it. Computes in O(bytes of the owner).
    pub(crate) fn preset(self, alloc: Global, owner: &str) -> Result<Option<Expr>, ValueError>
        ensures { GivesValue (option_map tree) result
            (preset_for owner.now (origin_of self.entry)) }
    {
        match self {
            Source::Owner => Ok(Some(Expr::Lit(Value::Str(Text::from_str(alloc, owner)?)))),
            Source::Command(command) => command.preset(alloc),
            Source::Line(_) => Ok(None),
        }
    }
}

// An attribute's expression, which is there.
fn some_of(value: Result<Expr, ValueError>) -> Result<Option<Expr>, ValueError>
    ensures { (g : Result Tree ValueError) → GivesValue tree value g
        → GivesValue (option_map tree) result (some_of g) }
{
    match value {
        Ok(expr) => Ok(Some(expr)),
        Err(error) => Err(error),
    }
}
