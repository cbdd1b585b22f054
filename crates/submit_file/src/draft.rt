ghost use Rattle.std.specs.Prelude.{◌≡◌, [], OnOk, Some, None};
ghost use Rattle.ad_tree.specs.Tree.{tree};
ghost use Rattle.submit_file.specs.Errors.{line_of, is_before, is_memory, error_at, IsNoMemory};
ghost use Rattle.submit_file.specs.Drafts.{draft_of, with_given, with_refusal, taken, ad_of, value_of};

use crate::error::SubmitError;
use crate::statement::NamedValue;
use ad_tree::{Ad, Expr};
use ad_value::Memory;
use std::alloc::Global;
use submit_lines::{JobAd, ValueError};

/// The ad of a job that is being made, and the refusal with the least line so far.
#[derive(Drop)]
pub(crate) struct Draft {
    pub(crate) ad: JobAd,
    pub(crate) refusal: Option<SubmitError>,
}

/// Where a value stands: the line of its command, and that of the queue statement.
#[derive(Clone, Copy)]
pub(crate) struct Place {
    pub(crate) line: u32,
    pub(crate) statement: u32,
}

impl Draft {
    /// Nothing so far, without memory. Computes in O(1).
    pub(crate) fn new(alloc: Global) -> Draft
        ensures { draft_of result ≡ record { ad = Some []; refusal = None } }
    {
        Draft {
            ad: JobAd::new(alloc),
            refusal: None,
        }
    }

    /// Takes an attribute.
    pub(crate) fn add(&mut self, alloc: Global, name: &str, expr: Expr) -> Result<(), Memory>
        ensures { OnOk result (
            draft_of self.new ≡ with_given name.now (tree expr) (draft_of self.old)) }
    {
        self.ad.add(alloc, name, expr)
    }

    /// Takes what an attribute is.
    pub(crate) fn take(&mut self, alloc: Global, named: &NamedValue<'_>) -> Result<(), Memory>
        ensures { OnOk result (draft_of self.new
            ≡ taken named.now.name.now named.now.place (value_of named.now.value)
            (draft_of self.old)) }
    {
        match &named.value {
            Ok(Some(expr)) => {
                let expr = expr.copy(alloc)?;
                self.add(alloc, named.name, expr)
            }
            Ok(None) => Ok(()),
            Err(error) => self.refuse(error_at(*error, named.place)),
        }
    }

    /// Keeps a refusal, if its line is the least so far.
    pub(crate) fn refuse(&mut self, refusal: SubmitError) -> Result<(), Memory>
        ensures refused { OnOk result (
            draft_of self.new ≡ with_refusal refusal (draft_of self.old)) }
        ensures told { OnOk result (IsNoMemory refusal) }
    {
        if is_memory_error(&refusal) {
            return Err(Memory);
        }
        if is_before(&refusal, &self.refusal) {
            self.refusal = Some(refusal);
        }
        Ok(())
    }

    /// The ad, if nothing was refused and there is room for its attributes.
    pub(crate) fn into_ad(self, statement: u32) -> Result<Ad, SubmitError>
        ensures { result ≡ ad_of statement (draft_of self) }
    {
        let Draft { ad, refusal } = self;
        if let Some(refusal) = refusal {
            return Err(refusal);
        }
        match ad.finish() {
            Some(ad) => Ok(ad),
            None => Err(SubmitError::Full { line: statement }),
        }
    }
}

/// Whether a refusal is that memory ran out. Computes in O(1).
pub(crate) fn is_memory_error(error: &SubmitError) -> bool
    ensures { result ≡ is_memory error.now }
{
    matches!(error, SubmitError::Memory)
}

fn is_before(refusal: &SubmitError, first: &Option<SubmitError>) -> bool
    ensures { result ≡ is_before refusal.now first.now }
{
    match first {
        Some(first) => line_of(refusal) < line_of(first),
        None => true,
    }
}

fn line_of(error: &SubmitError) -> u32
    ensures { result ≡ line_of error.now }
{
    match error {
        SubmitError::BadLine { line }
        | SubmitError::Unsupported { line }
        | SubmitError::Universe { line }
        | SubmitError::NoExecutable { line }
        | SubmitError::BadExpr { line }
        | SubmitError::Count { line }
        | SubmitError::Full { line }
        | SubmitError::Macro { line, .. } => *line,
        SubmitError::NoQueue | SubmitError::Memory => 0,
    }
}

fn error_at(error: ValueError, place: Place) -> SubmitError
    ensures { result ≡ error_at error place }
{
    let line = place.line;
    match error {
        ValueError::NoExecutable => SubmitError::NoExecutable {
            line: place.statement,
        },
        ValueError::Universe => SubmitError::Universe { line },
        ValueError::Quotes => SubmitError::BadLine { line },
        ValueError::BadExpr => SubmitError::BadExpr { line },
        ValueError::Memory => SubmitError::Memory,
    }
}
