// What the tokens begin with.

ghost use Rattle.std.specs.Prelude.{◌≡◌, ◌≤◌, length, IfOk, option_map};
ghost use Rattle.ad_value.specs.Content.{content};
ghost use Rattle.ad_parse.specs.Operators.{prefix_of, literal_of};
ghost use Rattle.ad_parse.specs.Reader.{refusal_of, depth_refusal, misplaced_token, is_colon, is_closing_mark, pass_mark, infix_at, comma_at, open_at};
ghost use Rattle.ad_parse.specs.Gives.{Passes};

use crate::error::ParseError;
use crate::levels::level_of;
use ad_token::{Bracket, Placed, Token};
use ad_tree::{BinOp, UnOp};
use ad_value::{Copied, Memory, Value};
use std::alloc::Global;

// The fault of a token that can't stand there.
pub(crate) fn misplaced_token(first: &Placed) -> ParseError
    ensures { result ≡ misplaced_token first.now.token first.now.at }
{
    let at = first.at;
    match first.token {
        Token::Real => ParseError::Real { at },
        Token::Range => ParseError::Range { at },
        _ => ParseError::Syntax { at },
    }
}

// The fault of a token that can't stand there, or of the end.
pub(crate) fn refusal_of(end: u64, tokens: &[Placed]) -> ParseError
    ensures { result ≡ refusal_of end tokens.now }
{
    match tokens {
        [first, ..] => misplaced_token(first),
        [] => ParseError::Syntax { at: end },
    }
}

// The fault of an operand that is nested too deep.
pub(crate) fn depth_refusal(end: u64, tokens: &[Placed]) -> ParseError
    ensures { result ≡ depth_refusal end tokens.now }
{
    let [first, ..] = tokens else {
        return ParseError::Syntax { at: end };
    };
    let at = first.at;
    match first.token {
        Token::Real => ParseError::Real { at },
        Token::Range => ParseError::Range { at },
        Token::Bad => ParseError::Syntax { at },
        _ => ParseError::TooDeep { at },
    }
}

// Whether a token is this closing bracket.
pub(crate) fn is_closing_mark(first: &Placed, bracket: Bracket) -> bool
    ensures { result ≡ is_closing_mark bracket first.now.token }
{
    match (&first.token, bracket) {
        (Token::Close(Bracket::Round), Bracket::Round) => true,
        (Token::Close(Bracket::Curly), Bracket::Curly) => true,
        _ => false,
    }
}

// The tokens after a colon.
pub(crate) fn pass_colon(end: u64, tokens: &[Placed]) -> Result<&[Placed], ParseError>
    ensures value { Passes result (pass_mark is_colon end tokens.now) }
    ensures shorter { IfOk result (λ x. length x.now ≤ length tokens.now) }
{
    match tokens {
        [first, rest @ ..] if matches!(first.token, Token::Colon) => Ok(rest),
        _ => Err(refusal_of(end, tokens)),
    }
}

// The tokens after a closing bracket.
pub(crate) fn pass_close(
    end: u64,
    bracket: Bracket,
    tokens: &[Placed],
) -> Result<&[Placed], ParseError>
    ensures value { Passes result (pass_mark (is_closing_mark bracket) end tokens.now) }
    ensures shorter { IfOk result (λ x. length x.now ≤ length tokens.now) }
{
    match tokens {
        [first, rest @ ..] if is_closing_mark(first, bracket) => Ok(rest),
        _ => Err(refusal_of(end, tokens)),
    }
}

// The operator of that level that the tokens begin with, and the tokens after it.
pub(crate) fn infix_at(tokens: &[Placed], level: usize) -> Option<(BinOp, &[Placed])>
    ensures { option_map (λ x. (x.0, x.1.now)) result ≡ infix_at level tokens.now }
{
    let [first, rest @ ..] = tokens else {
        return None;
    };
    match first.token {
        Token::Op(op) if level_of(op) == level => Some((op, rest)),
        _ => None,
    }
}

// The operator of a token that stands before an operand.
pub(crate) fn prefix(token: &Token) -> Option<UnOp>
    ensures { result ≡ prefix_of token.now }
{
    match token {
        Token::Not => Some(UnOp::Not),
        Token::Op(BinOp::Add) => Some(UnOp::Plus),
        Token::Op(BinOp::Subtract) => Some(UnOp::Minus),
        _ => None,
    }
}

// The value of a literal.
pub(crate) fn literal_value(alloc: Global, token: &Token) -> Result<Option<Value>, Memory>
    ensures { IfOk result (λ v. option_map content v ≡ literal_of token.now) }
{
    match token {
        Token::Undefined => Ok(Some(Value::Undefined)),
        Token::Error => Ok(Some(Value::Error)),
        Token::True => Ok(Some(Value::Bool(true))),
        Token::False => Ok(Some(Value::Bool(false))),
        Token::Int(n) => Ok(Some(Value::Int(*n))),
        Token::Str(text) => Ok(Some(Value::Str(text.copy(alloc)?))),
        _ => Ok(None),
    }
}

// The tokens after a comma.
pub(crate) fn comma(tokens: &[Placed]) -> Option<&[Placed]>
    ensures { option_map (λ x. x.now) result ≡ comma_at tokens.now }
{
    match tokens {
        [first, rest @ ..] if matches!(first.token, Token::Comma) => Some(rest),
        _ => None,
    }
}

// The tokens after an opening round bracket.
pub(crate) fn open_round(tokens: &[Placed]) -> Option<&[Placed]>
    ensures { option_map (λ x. x.now) result ≡ open_at tokens.now }
{
    match tokens {
        [first, rest @ ..] if matches!(first.token, Token::Open(Bracket::Round)) => Some(rest),
        _ => None,
    }
}
