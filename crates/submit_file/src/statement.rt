ghost use Rattle.std.specs.Prelude.{◌≡◌, Result, Option, Some, IfOk};
ghost use Rattle.std.specs.Option.{option_map};
ghost use Rattle.ad_tree.specs.Tree.{Tree, tree};
ghost use Rattle.submit_lines.specs.declared.error.ValueError.{ValueError};
ghost use Rattle.submit_lines.specs.Values.{GivesValue};
ghost use Rattle.submit_file.specs.Drafts.{named_value, macro_refusal};
ghost use Rattle.submit_file.specs.Errors.{IsNoMemory};
ghost use Rattle.submit_file.specs.Origins.{origin_of, setting_for};
ghost use Rattle.submit_file.specs.OneJob.{place_of};
ghost use Rattle.submit_file.specs.Plans.{effect_of, value_in, is_memory_value, GivesFor};

use crate::draft::{Place, is_memory_error};
use crate::error::SubmitError;
use crate::macros::expand_at;
use crate::setting::{LinesSoFar, Setting};
use crate::source::Source;
use ad_tree::Expr;
use ad_value::Memory;
use line_text::MacroTable;
use std::alloc::Global;
use submit_lines::ValueError;

/// What the ads of a file have in common.
#[derive(Clone, Copy)]
pub struct Heading<'a> {
    pub cluster: u32,
    /// The owner of a job, where its file names no other.
    pub owner: &'a str,
    /// The reading at which the file is submitted.
    pub now: u64,
}

/// A queue statement.
#[derive(Clone, Copy)]
pub struct Statement<'a> {
    pub heading: Heading<'a>,
    /// What the lines before it have set.
    pub file: &'a LinesSoFar,
    /// The number of its line.
    pub line: u32,
}

/// What an attribute is, under which name, and where that is set.
pub(crate) struct NamedValue<'a> {
    pub(crate) name: &'a str,
    pub(crate) value: Result<Option<Expr>, ValueError>,
    pub(crate) place: Place,
}

impl Drop for NamedValue<'_> {
    fn drop(self) {
        let NamedValue {
            name: _,
            value: _value,
            place: _,
        } = self;
    }
}

/// What a source gives: a value, or why its macros cannot be replaced.
#[derive(Drop)]
pub(crate) enum Contribution<'a> {
    Value(NamedValue<'a>),
    Refusal(SubmitError),
}

impl<'a> Statement<'a> {
    /// What a source gives over macros. Computes in O(bytes of what is set, of the macros and of
    /// the canonical text) where names do not collide.
    pub(crate) fn contribution(
        self,
        alloc: Global,
        source: Source<'a>,
        table: &MacroTable,
    ) -> Result<Contribution<'a>, Memory>
        ensures { IfOk result (λ c. GivesFor
            self.entry table.now (origin_of source.entry) (effect_of c)) }
    {
        match source.setting(self.file) {
            Some(setting) => self.setting_contribution(alloc, source, table, setting),
            None => {
                let value = source.preset(alloc, self.heading.owner);
                let place = Place {
                    line: self.line,
                    statement: self.line,
                };
                value_contribution(source.name(""), value, place)
            }
        }
    }

    // What a source gives by what is set for it.
    fn setting_contribution(
        self,
        alloc: Global,
        source: Source<'a>,
        table: &MacroTable,
        setting: &Setting,
    ) -> Result<Contribution<'a>, Memory>
        ensures { (setting_for self.entry.file.now (origin_of source.entry) ≡ Some setting.now)
            → IfOk result (λ c. GivesFor
            self.entry table.now (origin_of source.entry) (effect_of c)) }
    {
        match expand_at(alloc, setting.value.as_str(), table, setting.line) {
            Ok(text) => {
                let value = source.read(alloc, text.as_str());
                value_contribution(source.name(text.as_str()), value, self.place(setting))
            }
            Err(refusal) => refusal_contribution(refusal),
        }
    }

    fn place(self, setting: &Setting) -> Place
        ensures { result ≡ place_of setting.now self.entry.line }
    {
        Place {
            line: setting.line,
            statement: self.line,
        }
    }
}

impl<'a> Contribution<'a> {
    /// The value, if it is one. Computes in O(1).
    pub(crate) fn value(self) -> Option<NamedValue<'a>>
        ensures { result ≡ value_in self.entry }
    {
        match self {
            Contribution::Value(value) => Some(value),
            Contribution::Refusal(_) => None,
        }
    }
}

// A value with its name and place, unless memory ran out.
fn value_contribution<'a>(
    name: &'a str,
    value: Result<Option<Expr>, ValueError>,
    place: Place,
) -> Result<Contribution<'a>, Memory>
    ensures { (g : Result (Option Tree) ValueError) → GivesValue (option_map tree) value g
        → IfOk result (λ c. effect_of c ≡ named_value name.entry.now place g) }
{
    if is_memory(&value) {
        return Err(Memory);
    }
    Ok(Contribution::Value(NamedValue { name, value, place }))
}

fn is_memory(value: &Result<Option<Expr>, ValueError>) -> bool
    ensures { result ≡ is_memory_value value.now }
{
    matches!(value, Err(ValueError::Memory))
}

// A refusal, unless it is that memory ran out.
fn refusal_contribution<'a>(refusal: SubmitError) -> Result<Contribution<'a>, Memory>
    ensures { IfOk result (λ c. (effect_of c ≡ macro_refusal refusal) × IsNoMemory refusal) }
{
    if is_memory_error(&refusal) {
        return Err(Memory);
    }
    Ok(Contribution::Refusal(refusal))
}
