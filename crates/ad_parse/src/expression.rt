// From a text to an expression.

ghost use Rattle.std.specs.Prelude.{◌≢◌, IfOk, IfErr, Ok, Err};
ghost use Rattle.ad_tree.specs.Tree.{Tree, tree};
ghost use Rattle.ad_parse.specs.declared.error.ParseError.{ParseError};
ghost use Rattle.ad_parse.specs.ExprText.{IsExprText, IsRefused, expression_at, when_short};
ghost use Rattle.ad_parse.specs.Gives.{Gives};

use crate::error::ParseError;
use crate::parse::parse_tokens;
use crate::print::print_expr;
use ad_token::tokens;
use ad_tree::Expr;
use ad_value::limits::MAX_EXPRESSION;
use std::alloc::Global;

/// The expression that a text says (HTCondor manual, "ClassAd syntax"). Computes in O(bytes of the
/// text and of its canonical text).
pub fn parse_expr(alloc: Global, text: &str) -> Result<Expr, ParseError>
    // What is read is what the text says.
    ensures found { IfOk result (λ e. IsExprText text.now (tree e)) }
    // What a text says is read, unless memory runs out.
    ensures only { (e : Tree) → IsExprText text.now e → Gives tree result (Ok e) }
    // A refusal has its cause.
    ensures refused { IfErr result (λ f. f ≢ ParseError.Memory → IsRefused text.now f) }
    // A text that has a cause is refused for it, unless memory runs out.
    ensures exact { (f : ParseError) → IsRefused text.now f → Gives tree result (Err f) }
{
    read_text(alloc, text)
}

// The same, as a function of the text.
pub(crate) fn read_text(alloc: Global, text: &str) -> Result<Expr, ParseError>
    ensures { Gives tree result (expression_at text.now) }
{
    let length = text.len() as u64;
    if text.len() > MAX_EXPRESSION {
        return Err(ParseError::TooLong { length });
    }
    let list = tokens(alloc, text)?;
    let expr = parse_tokens(alloc, length, &list)?;
    when_short(alloc, expr)
}

// The expression, if its canonical text is short enough.
fn when_short(alloc: Global, expr: Expr) -> Result<Expr, ParseError>
    ensures { Gives tree result (when_short (tree expr)) }
{
    let text = print_expr(alloc, &expr)?;
    let length = text.as_str().len();
    if length > MAX_EXPRESSION {
        return Err(ParseError::TooLong {
            length: length as u64,
        });
    }
    Ok(expr)
}
