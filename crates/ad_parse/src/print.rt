// The canonical text of an expression.

ghost use Rattle.std.specs.Prelude.{◌≡◌, ◌++◌, ℕ, List, IfOk, OnOk};
ghost use Rattle.ad_value.specs.Content.{content};
ghost use Rattle.ad_value.specs.Literal.{literal_text};
ghost use Rattle.ad_value.specs.Writing.{AddsText};
ghost use Rattle.ad_tree.specs.Tree.{tree, trees, trees_of, rest, rests, rests_of};
ghost use Rattle.ad_parse.specs.Operators.{level_of};
ghost use Rattle.ad_token.specs.Canonical.{scope_text};
ghost use Rattle.ad_parse.specs.Canon.{canon, canon_rests, canon_items, canon_within, looseness, prefix_text, infix_text};
ghost use Rattle.ad_parse.specs.ExprText.{IsExprText};

use crate::levels::{LOOSEST, level_of, looseness, rests_level};
use ad_tree::{BinOp, Expr, ExprList, RestList, Scope, UnOp};
use ad_value::{Memory, Text, Value, write_item_separator};
use std::alloc::Global;

/// The canonical text: one blank on both sides of what stands between two operands, none after an
/// operator before its operand, `, ` between items, and brackets exactly round an operand that is
/// too loose for its place. Computes in O(bytes of the text).
pub fn print_expr(alloc: Global, expr: &Expr) -> Result<Text, Memory>
    ensures canonical { IfOk result (λ t. t ≡ canon (tree expr.now)) }
    // What some text says, the canonical text says too.
    ensures again { (text : List ℕ)
        → IsExprText text (tree expr.now) → IfOk result (λ t. IsExprText t (tree expr.now)) }
{
    canonical_text(alloc, expr)
}

fn canonical_text(alloc: Global, expr: &Expr) -> Result<Text, Memory>
    ensures { IfOk result (λ t. t ≡ canon (tree expr.now)) }
{
    let mut text = String::new(alloc);
    write_expr(alloc, &mut text, expr)?;
    Ok(Text::from(text))
}

#[cycle(write)]
fn write_expr(alloc: Global, text: &mut String, expr: &Expr) -> Result<(), Memory>
    ensures { OnOk result (AddsText text.old text.new (canon (tree expr.now))) }
{
    match expr {
        Expr::Lit(value) => write_literal(alloc, text, value),
        Expr::Ref { scope, name } => write_reference(text, *scope, name),
        Expr::Unary { op, arg } => {
            text.push_str(prefix_text(*op))?;
            write_within(alloc, text, 0, arg)
        }
        Expr::Chain { first, rest } => {
            write_within(alloc, text, rests_level(rest).saturating_sub(1), first)?;
            write_rests(alloc, text, rest)
        }
        Expr::Cond { test, yes, no } => {
            write_within(alloc, text, LOOSEST, test)?;
            text.push_str(" ? ")?;
            write_expr(alloc, text, yes)?;
            text.push_str(" : ")?;
            write_expr(alloc, text, no)
        }
        Expr::OrElse { first, other } => {
            write_within(alloc, text, LOOSEST, first)?;
            text.push_str(" ?: ")?;
            write_expr(alloc, text, other)
        }
        Expr::Call { name, args } => {
            text.push_str(name.as_str())?;
            text.push_str("(")?;
            write_items(alloc, text, args)?;
            Ok(text.push_str(")")?)
        }
        Expr::Items(items) => {
            text.push_str("{")?;
            write_items(alloc, text, items)?;
            Ok(text.push_str("}")?)
        }
    }
}

// An operand, in brackets where it is looser than its place allows.
#[cycle(write)]
fn write_within(alloc: Global, text: &mut String, loosest: usize, expr: &Expr) -> Result<(), Memory>
    ensures { OnOk result (AddsText text.old text.new
        (canon_within loosest (looseness (tree expr.now)) (canon (tree expr.now)))) }
{
    if looseness(expr) <= loosest {
        return write_expr(alloc, text, expr);
    }
    text.push_str("(")?;
    write_expr(alloc, text, expr)?;
    Ok(text.push_str(")")?)
}

#[cycle(write)]
fn write_rests(alloc: Global, text: &mut String, list: &RestList) -> Result<(), Memory>
    ensures { OnOk result (AddsText text.old text.new (canon_rests (rests_of (rests list.now)))) }
{
    for rest in &list.items {
        text.push_str(infix_text(rest.op))?;
        write_within(alloc, text, level_of(rest.op) - 1, &rest.arg)?;
    }
    Ok(())
}

#[cycle(write)]
fn write_items(alloc: Global, text: &mut String, list: &ExprList) -> Result<(), Memory>
    ensures { OnOk result (AddsText text.old text.new (canon_items (trees_of (trees list.now)))) }
{
    for (i, item) in list.items.iter().enumerate() {
        write_item_separator(text, i)?;
        write_expr(alloc, text, item)?;
    }
    Ok(())
}

fn write_literal(alloc: Global, text: &mut String, value: &Value) -> Result<(), Memory>
    ensures { OnOk result (AddsText text.old text.new (literal_text (content value.now))) }
{
    let literal = value.text(alloc)?;
    Ok(text.push_str(literal.as_str())?)
}

fn write_reference(text: &mut String, scope: Scope, name: &Text) -> Result<(), Memory>
    ensures { OnOk result (AddsText text.old text.new (scope_text scope ++ name.now)) }
{
    text.push_str(scope_text(scope))?;
    Ok(text.push_str(name.as_str())?)
}

pub(crate) fn scope_text(scope: Scope) -> &'static str
    ensures { result.now ≡ scope_text scope }
{
    match scope {
        Scope::Bare => "",
        Scope::My => "MY.",
        Scope::Target => "TARGET.",
    }
}

pub(crate) fn prefix_text(op: UnOp) -> &'static str
    ensures { result.now ≡ prefix_text op }
{
    match op {
        UnOp::Minus => "-",
        UnOp::Plus => "+",
        UnOp::Not => "!",
    }
}

pub(crate) fn infix_text(op: BinOp) -> &'static str
    ensures { result.now ≡ infix_text op }
{
    match op {
        BinOp::Multiply => " * ",
        BinOp::Divide => " / ",
        BinOp::Modulo => " % ",
        BinOp::Add => " + ",
        BinOp::Subtract => " - ",
        BinOp::Less => " < ",
        BinOp::LessEqual => " <= ",
        BinOp::GreaterEqual => " >= ",
        BinOp::Greater => " > ",
        BinOp::Equal => " == ",
        BinOp::NotEqual => " != ",
        BinOp::Same => " =?= ",
        BinOp::NotSame => " =!= ",
        BinOp::And => " && ",
        BinOp::Or => " || ",
    }
}
