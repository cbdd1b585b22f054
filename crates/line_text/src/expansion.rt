// The expansion of a text.

ghost use Rattle.std.specs.Prelude.{◌≡◌, ◌<◌, ◌≤◌, ◌+◌, length, IfOk, IfErr, OnOk};
ghost use Rattle.std.specs.Prelude.{[], ◌∷◌};
ghost use Rattle.line_text.specs.Expansion.{total, IsExpansion, IsRefused};
ghost use Rattle.line_text.specs.References.{ended, refers, reference_at, stretch_length};
ghost use Rattle.line_text.specs.UnderWay.{frame_of, frames, begun_frame, IsSound, IsSoundWith, IsReferenceTo, work_left};

use crate::error::MacroError;
use crate::reference::{Next, cut, reference};
use crate::table::MacroTable;
use crate::written::Written;
use ad_value::Text;
use std::alloc::{AllocError, Global};

/// How many bytes the longest expansion has.
pub const MAX_EXPANSION: usize = 65_536;

/// How far a name's expansion has come.
#[derive(Clone, Copy)]
pub enum Progress {
    Untouched,
    Open,
    /// Written once, as the pieces from a place up to another.
    Done { from: usize, to: usize },
}

/// A text that is being expanded: the given one, a name's value, or a default.
#[derive(Clone, Copy)]
pub struct Suspended<'a> {
    pub whole: &'a str,
    /// What is left of it.
    pub rest: &'a str,
    /// The place of the name whose value it is.
    pub place: Option<usize>,
    /// How many pieces were written before it.
    pub from: usize,
}

/// An expansion under way.
#[derive(Drop)]
pub struct Expansion<'a> {
    pub given: &'a str,
    pub table: &'a MacroTable,
    /// By the places of the names.
    pub progress: Vec<Progress>,
    /// The texts that are being expanded, the innermost last.
    pub suspended: Vec<Suspended<'a>>,
    pub written: Written<'a>,
}

/// The text with its references replaced (HTCondor manual, "Submit file macros"). `$(name)` is
/// replaced by the value of the name, or by nothing where it is not set, `$(name:text)` by the
/// value, or by `text` where the name is not set; what is put in is expanded in its turn. Of more
/// than one cause of refusal, the one that is reached first from left to right is answered.
///
/// Each name's value is read once, however often it is referenced. Computes in O(bytes of the text,
/// of the table and of what is written) where names do not collide.
pub fn expand(alloc: Global, text: &str, table: &MacroTable) -> Result<Text, MacroError>
    ensures ok { IfOk result (IsExpansion table.now text.now) }
    ensures refused { IfErr result (IsRefused table.now text.now) }
{
    let mut expansion = Expansion::new(alloc, text, table)?;
    expansion.run(alloc)?;
    Ok(expansion.written.join(alloc)?)
}

impl<'a> Expansion<'a> {
    fn new(alloc: Global, text: &'a str, table: &'a MacroTable) -> Result<Expansion<'a>, AllocError>
        ensures sound { IfOk result IsSound }
        ensures given { IfOk result (λ e. e.given.now ≡ text.now) }
        ensures table { IfOk result (λ e. e.table.now ≡ table.now) }
    {
        let given = Suspended {
            whole: text,
            rest: text,
            place: None,
            from: 0,
        };
        Ok(Expansion {
            given: text,
            table,
            progress: vec![in alloc; Progress::Untouched; table.len()]?,
            suspended: vec![in alloc; given]?,
            written: Written::new(alloc),
        })
    }

    // Goes on until no text is left.
    fn run(&mut self, alloc: Global) -> Result<(), MacroError>
        requires { IsSound self.old }
        ensures sound { OnOk result (IsSound self.new) }
        ensures ended { OnOk result (self.new.suspended.items ≡ []) }
        ensures given { self.new.given.now ≡ self.old.given.now }
        ensures table { self.new.table.now ≡ self.old.table.now }
        ensures refused { IfErr result (IsRefused self.old.table.now self.old.given.now) }
    {
        while let Some(current) = self.suspended.pop() {
            self.go_on(alloc, current)?;
        }
        Ok(())
    }

    // Goes on with a text up to its next reference, or to its end.
    fn go_on(&mut self, alloc: Global, current: Suspended<'a>) -> Result<(), MacroError>
        requires { IsSoundWith self.old current }
        ensures sound { OnOk result (IsSound self.new) }
        ensures less { OnOk result (
            work_left self.new < work_left self.old + (length current.entry.rest.now + 1)) }
        ensures given { self.new.given.now ≡ self.old.given.now }
        ensures table { self.new.table.now ≡ self.old.table.now }
        ensures refused { IfErr result (IsRefused self.old.table.now self.old.given.now) }
    {
        let (stretch, rest) = cut(current.rest);
        self.written.add(stretch)?;
        self.follow(alloc, Suspended { rest, ..current })
    }

    // Goes on with a text that begins with a reference or is at its end.
    fn follow(&mut self, alloc: Global, current: Suspended<'a>) -> Result<(), MacroError>
        requires sound { IsSoundWith self.old current }
        requires fits { total self.old.written ≤ MAX_EXPANSION }
        requires stop { stretch_length current.rest.now ≡ 0 }
        ensures sound { OnOk result (IsSound self.new) }
        ensures less { OnOk result (
            work_left self.new < work_left self.old + (length current.entry.rest.now + 1)) }
        ensures given { self.new.given.now ≡ self.old.given.now }
        ensures table { self.new.table.now ≡ self.old.table.now }
        ensures refused { IfErr result (IsRefused self.old.table.now self.old.given.now) }
    {
        match reference(current.rest) {
            Next::End => {
                self.close(current);
                Ok(())
            }
            Next::Bad => Err(MacroError::Bad {
                at: current.whole.len().saturating_sub(current.rest.len()) as u64,
            }),
            Next::Reference {
                name,
                default,
                rest,
            } => self.refer(alloc, current, name, default, rest),
        }
    }

    // Puts in what a name stands for.
    fn refer(
        &mut self,
        alloc: Global,
        current: Suspended<'a>,
        name: &'a str,
        default: &'a str,
        rest: &'a str,
    ) -> Result<(), MacroError>
        requires sound { IsSoundWith self.old current }
        requires fits { total self.old.written ≤ MAX_EXPANSION }
        requires stop { stretch_length current.rest.now ≡ 0 }
        requires reference { reference_at current.rest.now
            ≡ refers name.now default.now rest.now }
        ensures sound { OnOk result (IsSound self.new) }
        ensures less { OnOk result (
            work_left self.new < work_left self.old + (length current.entry.rest.now + 1)) }
        ensures given { self.new.given.now ≡ self.old.given.now }
        ensures table { self.new.table.now ≡ self.old.table.now }
        ensures refused { IfErr result (IsRefused self.old.table.now self.old.given.now) }
    {
        match self.table.look_up(alloc, name)? {
            Some((place, value)) => self.put_in(alloc, current, name, rest, place, value),
            None => self.begin(Suspended { rest, ..current }, default, None),
        }
    }

    // Puts in the value of a name that is set.
    fn put_in(
        &mut self,
        alloc: Global,
        current: Suspended<'a>,
        name: &'a str,
        rest: &'a str,
        place: usize,
        value: &'a str,
    ) -> Result<(), MacroError>
        requires sound { IsSoundWith self.old current }
        requires fits { total self.old.written ≤ MAX_EXPANSION }
        requires stop { stretch_length current.rest.now ≡ 0 }
        requires reference { IsReferenceTo
            self.old.table.now current.rest.now name.now rest.now
            place value.now }
        ensures sound { OnOk result (IsSound self.new) }
        ensures less { OnOk result (
            work_left self.new < work_left self.old + (length current.entry.rest.now + 1)) }
        ensures given { self.new.given.now ≡ self.old.given.now }
        ensures table { self.new.table.now ≡ self.old.table.now }
        ensures refused { IfErr result (IsRefused self.old.table.now self.old.given.now) }
    {
        match self.progress[place] {
            Progress::Untouched => {
                self.progress[place] = Progress::Open;
                self.begin(Suspended { rest, ..current }, value, Some(place))
            }
            Progress::Open => Err(MacroError::Circular {
                name: Text::from_str(alloc, name)?,
            }),
            Progress::Done { from, to } => {
                self.written.add_again(from, to)?;
                self.suspended.push(Suspended { rest, ..current })?;
                Ok(())
            }
        }
    }

    // Begins with a text, for which another one waits.
    fn begin(
        &mut self,
        waiting: Suspended<'a>,
        text: &'a str,
        place: Option<usize>,
    ) -> Result<(), MacroError>
        ensures begun { OnOk result (
            frames self.new.suspended.items
            ≡ begun_frame text.entry.now place (length self.old.written)
            ∷ frame_of waiting.entry ∷ frames self.old.suspended.items) }
        ensures given { self.new.given.now ≡ self.old.given.now }
        ensures table { self.new.table.now ≡ self.old.table.now }
        ensures progress { self.new.progress.items ≡ self.old.progress.items }
        ensures written { self.new.written ≡ self.old.written }
        ensures refused { IfErr result (IsRefused self.old.table.now self.old.given.now) }
    {
        let from = self.written.count();
        self.suspended.push(waiting)?;
        self.suspended.push(Suspended {
            whole: text,
            rest: text,
            place,
            from,
        })?;
        Ok(())
    }

    // Ends a text: where it is a name's value, what was written since it was begun is what the name
    // stands for.
    fn close(&mut self, current: Suspended<'a>)
        requires sound { IsSoundWith self.old current }
        requires stop { stretch_length current.rest.now ≡ 0 }
        requires ended { reference_at current.rest.now ≡ ended }
        ensures sound { IsSound self.new }
        ensures less { work_left self.new
            < work_left self.old + (length current.entry.rest.now + 1) }
        ensures given { self.new.given.now ≡ self.old.given.now }
        ensures table { self.new.table.now ≡ self.old.table.now }
    {
        if let Some(place) = current.place {
            let to = self.written.count();
            self.progress[place] = Progress::Done {
                from: current.from,
                to,
            };
        }
    }
}
