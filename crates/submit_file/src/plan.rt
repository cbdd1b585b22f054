ghost use Rattle.std.specs.Prelude.{◌≡◌, ◌<◌, ◌^◌, ◌++◌, [], map, IfOk, OnOk};
ghost use Rattle.ad_tree.specs.Tree.{tree};
ghost use Rattle.line_text.specs.Macros.{Macros};
ghost use Rattle.submit_file.specs.Errors.{UnlessMemory};
ghost use Rattle.submit_file.specs.Drafts.{draft_of, with_given};
ghost use Rattle.submit_file.specs.Origins.{origin_of, other_command, own_line};
ghost use Rattle.submit_file.specs.OneJob.{common, origins, whole, Takes, TakesAll, Fills, IsJob};
ghost use Rattle.submit_file.specs.Plans.{origins_of, Spares, IsPartFor, ArePartsFor, IsPlanFor};

use crate::draft::Draft;
use crate::error::SubmitError;
use crate::setting::Setting;
use crate::source::Source;
use crate::statement::{Contribution, NamedValue, Statement};
use ad_tree::{Ad, Expr};
use ad_value::names::job::{CLUSTER_ID, JOB_STATUS, JOB_UNIVERSE, PROC_ID, Q_DATE};
use ad_value::{Memory, Value};
use line_text::MacroTable;
use std::alloc::Global;
use submit_lines::Command;

/// An attribute of the jobs of a queue statement.
pub(crate) struct Part<'a> {
    pub(crate) source: Source<'a>,
    /// What it is for each of the jobs, where that is known before there is a job.
    pub(crate) fixed: Option<NamedValue<'a>>,
}

impl Drop for Part<'_> {
    fn drop(self) {
        let Part {
            source: _,
            fixed: _fixed,
        } = self;
    }
}

/// How the jobs of a queue statement are made: what is the same for all of them is known.
pub struct Plan<'a> {
    pub statement: Statement<'a>,
    pub(crate) owner: Part<'a>,
    /// The commands, in the order of their attributes, and behind them the lines of attributes.
    pub(crate) parts: Vec<Part<'a>>,
}

impl Drop for Plan<'_> {
    fn drop(self) {
        let Plan {
            statement: _,
            owner: _owner,
            parts: _parts,
        } = self;
    }
}

// The commands, in the order of their attributes.
const COMMANDS: &[Command] = &[
    Command::Executable,
    Command::Arguments,
    Command::Universe,
    Command::InitialDir,
    Command::Input,
    Command::Output,
    Command::Error,
    Command::Log,
    Command::Priority,
    Command::Requirements,
    Command::Rank,
    Command::RequestCpus,
    Command::RequestMemory,
    Command::RequestDisk,
    Command::JobLeaseDuration,
    Command::OnExitHold,
    Command::OnExitRemove,
    Command::PeriodicHold,
    Command::PeriodicRemove,
    Command::PeriodicRelease,
];

impl<'a> Statement<'a> {
    /// How the jobs of the statement are made, by macros in which those of a job's own have no
    /// expansion: a value that has one all the same is expanded and read here, once for all jobs.
    /// Computes in O(bytes of the macros and of the values) where names do not collide.
    pub fn plan(self, alloc: Global, table: &MacroTable) -> Result<Plan<'a>, Memory>
        ensures statement { IfOk result (λ p. p.statement ≡ self.entry) }
        ensures plan { IfOk result (λ p. (t : Macros) → Spares table.now t → IsPlanFor t p) }
    {
        let owner = self.part(alloc, Source::Owner, table)?;
        let mut plan = Plan {
            statement: self,
            owner,
            parts: Vec::new(alloc),
        };
        self.add_parts(alloc, table, &mut plan.parts)?;
        Ok(plan)
    }

    // Adds all but the owner.
    fn add_parts(
        self,
        alloc: Global,
        table: &MacroTable,
        parts: &mut Vec<Part<'a>>,
    ) -> Result<(), Memory>
        requires { parts.old.items ≡ [] }
        ensures sources { OnOk result (
            origins_of parts.new.items ≡ origins self.entry.file.now) }
        ensures parts { OnOk result ((t : Macros) → Spares table.now t
            → ArePartsFor self.entry t parts.new.items) }
    {
        self.add_commands(alloc, table, COMMANDS, parts)?;
        self.add_lines(alloc, table, self.file.attributes.as_slice(), parts)?;
        Ok(())
    }

    fn add_commands(
        self,
        alloc: Global,
        table: &MacroTable,
        commands: &[Command],
        parts: &mut Vec<Part<'a>>,
    ) -> Result<(), Memory>
        ensures sources { OnOk result (origins_of parts.new.items
            ≡ origins_of parts.old.items ++ map (λ c. other_command c) commands.now) }
        ensures parts { OnOk result ((t : Macros) → Spares table.now t
            → ArePartsFor self.entry t parts.old.items → ArePartsFor self.entry t parts.new.items) }
    {
        for command in commands {
            let part = self.part(alloc, Source::Command(*command), table)?;
            parts.push(part)?;
        }
        Ok(())
    }

    fn add_lines(
        self,
        alloc: Global,
        table: &MacroTable,
        settings: &'a [Setting],
        parts: &mut Vec<Part<'a>>,
    ) -> Result<(), Memory>
        ensures sources { OnOk result (origins_of parts.new.items
            ≡ origins_of parts.old.items ++ map (λ s. own_line s) settings.entry.now) }
        ensures parts { OnOk result ((t : Macros) → Spares table.now t
            → ArePartsFor self.entry t parts.old.items → ArePartsFor self.entry t parts.new.items) }
    {
        for setting in settings {
            let part = self.part(alloc, Source::Line(setting), table)?;
            parts.push(part)?;
        }
        Ok(())
    }

    fn part(self, alloc: Global, source: Source<'a>, table: &MacroTable) -> Result<Part<'a>, Memory>
        ensures source { IfOk result (λ p. p.source ≡ source.entry) }
        ensures part { IfOk result (λ p.
            (t : Macros) → Spares table.now t → IsPartFor self.entry t p) }
    {
        let fixed = self.contribution(alloc, source, table)?.value();
        Ok(Part { source, fixed })
    }
}

impl Plan<'_> {
    /// The ad of the job of this number, over its macros. Computes in O(bytes of the macros and of
    /// the ad) where names do not collide.
    pub fn job_ad(&self, alloc: Global, table: &MacroTable, proc: u32) -> Result<Ad, SubmitError>
        requires reading { self.now.statement.heading.now < 2 ^ 63 }
        requires plan { IsPlanFor table.now self.now }
        ensures { UnlessMemory (IsJob
            (common self.now.statement.heading) self.now.statement.file.now table.now
            proc self.now.statement.line) result }
    {
        let mut draft = Draft::new(alloc);
        self.fill(alloc, table, proc, &mut draft)?;
        draft.into_ad(self.statement.line)
    }

    fn fill(
        &self,
        alloc: Global,
        table: &MacroTable,
        proc: u32,
        draft: &mut Draft,
    ) -> Result<(), Memory>
        requires reading { self.now.statement.heading.now < 2 ^ 63 }
        requires plan { IsPlanFor table.now self.now }
        ensures { OnOk result (Fills
            (common self.now.statement.heading) self.now.statement.file.now table.now
            proc self.now.statement.line (draft_of draft.old) (draft_of draft.new)) }
    {
        add_small(alloc, draft, CLUSTER_ID, self.statement.heading.cluster)?;
        add_small(alloc, draft, PROC_ID, proc)?;
        self.take(alloc, table, &self.owner, draft)?;
        add_whole(alloc, draft, Q_DATE, self.statement.heading.now)?;
        add_whole(alloc, draft, JOB_UNIVERSE, 5)?;
        add_whole(alloc, draft, JOB_STATUS, 1)?;
        self.take_parts(alloc, table, draft)
    }

    fn take_parts(&self, alloc: Global, table: &MacroTable, draft: &mut Draft) -> Result<(), Memory>
        requires { ArePartsFor self.now.statement table.now self.now.parts.items }
        ensures { OnOk result (TakesAll
            (common self.now.statement.heading) self.now.statement.file.now table.now
            self.now.statement.line (origins_of self.now.parts.items)
            (draft_of draft.old) (draft_of draft.new)) }
    {
        for part in &self.parts {
            self.take(alloc, table, part, draft)?;
        }
        Ok(())
    }

    fn take(
        &self,
        alloc: Global,
        table: &MacroTable,
        part: &Part<'_>,
        draft: &mut Draft,
    ) -> Result<(), Memory>
        requires { IsPartFor self.now.statement table.now part.now }
        ensures { OnOk result (Takes
            (common self.now.statement.heading) self.now.statement.file.now table.now
            self.now.statement.line (origin_of part.now.source)
            (draft_of draft.old) (draft_of draft.new)) }
    {
        match &part.fixed {
            Some(value) => draft.take(alloc, value),
            None => match self.statement.contribution(alloc, part.source, table)? {
                Contribution::Value(value) => draft.take(alloc, &value),
                Contribution::Refusal(refusal) => draft.refuse(refusal),
            },
        }
    }
}

// No expression is held where others follow: each way out would prove its drop.
fn add_small(alloc: Global, draft: &mut Draft, name: &str, n: u32) -> Result<(), Memory>
    ensures { OnOk result (
        draft_of draft.new ≡ with_given name.now (whole n) (draft_of draft.old)) }
{
    draft.add(alloc, name, small(n))
}

fn add_whole(alloc: Global, draft: &mut Draft, name: &str, n: u64) -> Result<(), Memory>
    requires { n < 2 ^ 63 }
    ensures { OnOk result (
        draft_of draft.new ≡ with_given name.now (whole n) (draft_of draft.old)) }
{
    draft.add(alloc, name, whole(n))
}

fn small(n: u32) -> Expr
    ensures { tree result ≡ whole n }
{
    Expr::Lit(Value::Int(i64::from(n)))
}

fn whole(n: u64) -> Expr
    requires { n < 2 ^ 63 }
    ensures { tree result ≡ whole n }
{
    Expr::Lit(Value::Int(n as i64))
}
