ghost use Rattle.std.specs.Prelude.{◌≡◌, [], Some};
ghost use Rattle.std.specs.Option.{option_map};
ghost use Rattle.ad_value.specs.Content.{text};
ghost use Rattle.ad_tree.specs.Tree.{tree, literal};
ghost use Rattle.submit_lines.specs.Amounts.{amount_of};
ghost use Rattle.submit_lines.specs.Arguments.{quoted_arguments};
ghost use Rattle.submit_lines.specs.Values.{GivesValue, whole_at, lease_of, amount_at, requirements_at, universe_at, is_closed, arguments_at, quoted_at, program_at, expr_at, value_at, preset_at};

use crate::command::Command;
use crate::error::ValueError;
use crate::expressions::{canonical_expression, expression, string_expression};
use crate::{Amount, AmountUnit, integer, plain_arguments, quoted_arguments, read_amount};
use ad_rows::{enough, with_enough};
use ad_tree::Expr;
use ad_value::limits::MAX_SECONDS;
use ad_value::{Text, Value};
use std::alloc::Global;

impl Command {
    /// What a value of the command sets its attribute to, if it has one, once macros are replaced.
    /// Computes in O(bytes of the value and of its canonical text).
    pub fn read(self, alloc: Global, text: &str) -> Result<Option<Expr>, ValueError>
        ensures { GivesValue (option_map tree) result (value_at self text.now) }
    {
        match self {
            Command::Universe => universe(text),
            _ => match self.read_expr(alloc, text) {
                Ok(expr) => Ok(Some(expr)),
                Err(error) => Err(error),
            },
        }
    }

    fn read_expr(self, alloc: Global, text: &str) -> Result<Expr, ValueError>
        ensures { GivesValue tree result (expr_at self text.now) }
    {
        match self {
            Command::Executable => program(alloc, text),
            Command::Arguments => arguments(alloc, text),
            Command::InitialDir | Command::Input | Command::Output => {
                string_expression(alloc, text)
            }
            Command::Error | Command::Log => string_expression(alloc, text),
            Command::Priority => whole(alloc, integer(text)),
            Command::JobLeaseDuration => whole(alloc, lease_of(integer(text))),
            Command::Requirements => requirements(alloc, text),
            Command::RequestMemory => amount(alloc, text, AmountUnit::Mib),
            Command::RequestDisk => amount(alloc, text, AmountUnit::Kib),
            _ => expression(alloc, text),
        }
    }

    /// What the attribute is where the command is not there. Computes in O(1).
    pub fn preset(self, alloc: Global) -> Result<Option<Expr>, ValueError>
        ensures { GivesValue (option_map tree) result (preset_at self) }
    {
        match self {
            Command::Executable => Err(ValueError::NoExecutable),
            Command::Arguments | Command::InitialDir | Command::Input => Ok(Some(empty(alloc))),
            Command::Output | Command::Error => Ok(Some(empty(alloc))),
            Command::Priority | Command::Rank => Ok(Some(Expr::Lit(Value::Int(0)))),
            Command::RequestCpus => Ok(Some(Expr::Lit(Value::Int(1)))),
            Command::RequestMemory => Ok(Some(Expr::Lit(Value::Int(128)))),
            Command::RequestDisk => Ok(Some(Expr::Lit(Value::Int(1024)))),
            Command::Requirements => match enough(alloc) {
                Ok(expr) => Ok(Some(expr)),
                Err(_) => Err(ValueError::Memory),
            },
            _ => Ok(None),
        }
    }
}

fn empty(alloc: Global) -> Expr
    ensures { tree result ≡ literal (text []) }
{
    Expr::Lit(Value::Str(Text::new(alloc)))
}

fn universe(text: &str) -> Result<Option<Expr>, ValueError>
    ensures { GivesValue (option_map tree) result (universe_at text.now) }
{
    if text.eq_ignore_ascii_case("vanilla") || text == "5" {
        Ok(None)
    } else {
        Err(ValueError::Universe)
    }
}

fn program(alloc: Global, text: &str) -> Result<Expr, ValueError>
    ensures { GivesValue tree result (program_at text.now) }
{
    if text.is_empty() {
        return Err(ValueError::NoExecutable);
    }
    string_expression(alloc, text)
}

fn arguments(alloc: Global, text: &str) -> Result<Expr, ValueError>
    ensures { GivesValue tree result (arguments_at text.now) }
{
    if text.starts_with('"') {
        return quoted(alloc, text);
    }
    let text = plain_arguments(alloc, text)?;
    string_expression(alloc, text.as_str())
}

fn quoted(alloc: Global, text: &str) -> Result<Expr, ValueError>
    ensures { GivesValue tree result (quoted_at (quoted_arguments text.now)) }
{
    match quoted_arguments(alloc, text) {
        Ok(Some(inner)) => closed(alloc, inner.as_str()),
        Ok(None) => Err(ValueError::Quotes),
        Err(_) => Err(ValueError::Memory),
    }
}

// The arguments, if their single quotes are closed.
fn closed(alloc: Global, text: &str) -> Result<Expr, ValueError>
    ensures { GivesValue tree result (quoted_at (Some text.now)) }
{
    if !is_closed(text.as_bytes()) {
        return Err(ValueError::Quotes);
    }
    string_expression(alloc, text)
}

// Whether each single quote is closed: there is an even number of them.
fn is_closed(bytes: &[u8]) -> bool
    ensures { result ≡ is_closed bytes.now }
{
    bytes.iter().filter(|b| **b == b'\'').count() % 2 == 0
}

fn whole(alloc: Global, n: Option<i64>) -> Result<Expr, ValueError>
    ensures { GivesValue tree result (whole_at n) }
{
    match n {
        Some(n) => match Expr::of(alloc, &Value::Int(n)) {
            Ok(expr) => Ok(expr),
            Err(_) => Err(ValueError::Memory),
        },
        None => Err(ValueError::BadExpr),
    }
}

fn lease_of(n: Option<i64>) -> Option<i64>
    ensures { result ≡ lease_of n }
{
    match n {
        Some(n) if 1 <= n && n <= MAX_SECONDS as i64 => Some(n),
        _ => None,
    }
}

fn amount(alloc: Global, text: &str, unit: AmountUnit) -> Result<Expr, ValueError>
    ensures { GivesValue tree result (amount_at (amount_of text.now unit) text.now) }
{
    match read_amount(text, unit) {
        Amount::Units(n) => Ok(Expr::Lit(Value::Int(n))),
        Amount::Large => Err(ValueError::BadExpr),
        Amount::Absent => expression(alloc, text),
    }
}

fn requirements(alloc: Global, text: &str) -> Result<Expr, ValueError>
    ensures { GivesValue tree result (requirements_at text.now) }
{
    let expr = expression(alloc, text)?;
    let all = with_enough(alloc, expr)?;
    canonical_expression(alloc, &all)
}
