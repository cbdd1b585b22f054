// The text of a transaction.

ghost use Rattle.std.specs.Prelude.{◌≡◌, ◌≢◌, ◌++◌, map, false, true, None, codes, IfOk, IfErr, OnOk, nat_le, length};
ghost use Rattle.ad_value.specs.Writing.{AddsText};
ghost use Rattle.ad_tree.specs.Tree.{tree};
ghost use Rattle.ad_parse.specs.Canon.{canon};
ghost use Rattle.queue_tx.specs.Operations.{operation};
ghost use Rattle.queue_record.specs.Keys.{key_text};
ghost use Rattle.queue_record.specs.Texts.{op_line, ops_text, tx_text, word_text, prints_short, is_long, first_long, IsTooLong};

use crate::entry::MAX_LINE;
use crate::error::PrintError;
use crate::key::write_key;
use ad_parse::print_expr;
use ad_tree::Expr;
use ad_value::Text;
use queue_tx::{Key, Op, Tx};
use std::alloc::{AllocError, Global};

/// How many bytes the longest expression of a log prints as.
pub const MAX_EXPRESSION: usize = 8_192;

/// The text that is written of a transaction: a line `105`, a line for each operation with its
/// canonical expression, and a line `106`. Computes in O(bytes of the text).
pub fn print_tx(alloc: Global, tx: &Tx) -> Result<Text, PrintError>
    ensures text { IfOk result (λ text. text ≡ tx_text tx.now) }
    ensures fits { OnOk result (first_long tx.now ≡ None) }
    ensures refused { IfErr result (IsTooLong tx.now) }
{
    let mut text = String::new(alloc);
    text.push_str("105\n")?;
    print_ops(alloc, &mut text, tx.ops())?;
    text.push_str("106\n")?;
    Ok(Text::from(text))
}

fn print_ops(alloc: Global, text: &mut String, ops: &[Op]) -> Result<(), PrintError>
    ensures text { OnOk result (AddsText text.old text.new (ops_text (map operation ops.now))) }
    ensures fits { OnOk result (first_long (map operation ops.now) ≡ None) }
    ensures refused { IfErr result (IsTooLong (map operation ops.now)) }
{
    let mut place = 0;
    for op in ops {
        if let Err(error) = print_op(alloc, text, op, place) {
            return Err(error);
        }
        place += 1;
    }
    Ok(())
}

// Writes the line of the operation at a place.
fn print_op(alloc: Global, text: &mut String, op: &Op, place: u64) -> Result<(), PrintError>
    ensures text { OnOk result (
        AddsText text.old text.new (op_line (operation op.now) ++ codes "\n")) }
    ensures fits { OnOk result (is_long (operation op.now) ≡ false) }
    ensures refused { IfErr result (λ e. e ≢ PrintError.Memory
        → (e ≡ PrintError.TooLong place) × (is_long (operation op.now) ≡ true)) }
{
    let begun = text.as_str().len();
    let fits = write_op(alloc, text, op)?;
    let length = text.as_str().len().saturating_sub(begun);
    if !fits || length > MAX_LINE {
        return Err(PrintError::TooLong { op: place });
    }
    text.push('\n')?;
    Ok(())
}

// Writes an operation, and says whether its expression is not too long.
fn write_op(alloc: Global, text: &mut String, op: &Op) -> Result<bool, PrintError>
    ensures text { OnOk result (AddsText text.old text.new (op_line (operation op.now))) }
    ensures short { IfOk result (λ fits. fits ≡ prints_short (operation op.now)) }
    ensures refused { IfErr result (λ e. e ≡ PrintError.Memory) }
{
    match op {
        Op::NewAd { key, kind, other } => {
            write_code_and_word(text, "101 ", *key, kind.as_str())?;
            write_word(text, other.as_str())?;
            Ok(true)
        }
        Op::DestroyAd { key } => {
            write_code(text, "102 ", *key)?;
            Ok(true)
        }
        Op::SetAttr { key, name, expr } => {
            write_code_and_word(text, "103 ", *key, name.as_str())?;
            write_expression(alloc, text, expr)
        }
        Op::DeleteAttr { key, name } => {
            write_code_and_word(text, "104 ", *key, name.as_str())?;
            Ok(true)
        }
    }
}

fn write_code(text: &mut String, code: &str, key: Key) -> Result<(), AllocError>
    ensures { OnOk result (AddsText text.old text.new (code.now ++ key_text key)) }
{
    text.push_str(code)?;
    write_key(text, key)
}

fn write_code_and_word(
    text: &mut String,
    code: &str,
    key: Key,
    word: &str,
) -> Result<(), AllocError>
    ensures { OnOk result (AddsText text.old text.new
        (code.now ++ key_text key ++ word_text word.now)) }
{
    write_code(text, code, key)?;
    write_word(text, word)
}

fn write_word(text: &mut String, word: &str) -> Result<(), AllocError>
    ensures { OnOk result (AddsText text.old text.new (word_text word.now)) }
{
    text.push(' ')?;
    text.push_str(word)
}

fn write_expression(alloc: Global, text: &mut String, expr: &Expr) -> Result<bool, PrintError>
    ensures text { OnOk result (AddsText text.old text.new (word_text (canon (tree expr.now)))) }
    ensures short { IfOk result (λ fits.
        fits ≡ nat_le (length (canon (tree expr.now))) MAX_EXPRESSION) }
    ensures refused { IfErr result (λ e. e ≡ PrintError.Memory) }
{
    let canonical = print_expr(alloc, expr)?;
    write_word(text, canonical.as_str())?;
    Ok(canonical.as_str().len() <= MAX_EXPRESSION)
}
