ghost use Rattle.std.specs.Prelude.{◌≡◌};
ghost use Rattle.ad_tree.specs.Tree.{tree};
ghost use Rattle.submit_lines.specs.Values.{GivesValue, of_parse, tree_of_text, tree_of_canon, string_at};

use crate::error::ValueError;
use ad_parse::{ParseError, parse_expr, print_expr};
use ad_tree::Expr;
use ad_value::{Text, Value};
use std::alloc::Global;

/// The expression that a text says. Computes in O(bytes of the text and of its canonical text).
pub fn expression(alloc: Global, text: &str) -> Result<Expr, ValueError>
    ensures { GivesValue tree result (tree_of_text text.now) }
{
    match parse_expr(alloc, text) {
        Ok(expr) => Ok(expr),
        Err(error) => Err(of_parse(error)),
    }
}

// A refusal, without its place.
fn of_parse(error: ParseError) -> ValueError
    ensures { result ≡ of_parse error }
{
    match error {
        ParseError::Memory => ValueError::Memory,
        ParseError::TooLong { .. } | ParseError::Real { .. } => ValueError::BadExpr,
        ParseError::Range { .. } | ParseError::TooDeep { .. } => ValueError::BadExpr,
        ParseError::Syntax { .. } => ValueError::BadExpr,
    }
}

/// The string of a text, where its canonical text is not too long. Computes in O(bytes).
pub fn string_expression(alloc: Global, text: &str) -> Result<Expr, ValueError>
    ensures { GivesValue tree result (string_at text.now) }
{
    let text = Text::from_str(alloc, text)?;
    let expr = Expr::Lit(Value::Str(text));
    canonical_expression(alloc, &expr)
}

/// What the canonical text of an expression says, if it is neither too long nor nested too deep.
/// Computes in O(bytes of the canonical text).
pub(crate) fn canonical_expression(alloc: Global, expr: &Expr) -> Result<Expr, ValueError>
    ensures { GivesValue tree result (tree_of_canon (tree expr.now)) }
{
    let text = print_expr(alloc, expr)?;
    expression(alloc, text.as_str())
}
