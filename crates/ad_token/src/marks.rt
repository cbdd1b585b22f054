ghost use Rattle.std.specs.Prelude.{◌≡◌, ◌<◌, length};
ghost use Rattle.ad_token.specs.Marks.{mark_of_three, mark_of_two, mark_of_one, mark_token};

use crate::token::{Bracket, Token};
use ad_tree::BinOp;

#[tactic(auto, unfolding(crate::specs::Marks::mark_of_three))]
fn mark_of_three(bytes: &[u8]) -> Option<Token>
    ensures { result ≡ mark_of_three bytes.now }
{
    if bytes.starts_with(b"=?=") {
        Some(Token::Op(BinOp::Same))
    } else if bytes.starts_with(b"=!=") {
        Some(Token::Op(BinOp::NotSame))
    } else {
        None
    }
}

#[tactic(auto, unfolding(crate::specs::Marks::mark_of_two))]
fn mark_of_two(bytes: &[u8]) -> Option<Token>
    ensures { result ≡ mark_of_two bytes.now }
{
    if bytes.starts_with(b"==") {
        Some(Token::Op(BinOp::Equal))
    } else if bytes.starts_with(b"!=") {
        Some(Token::Op(BinOp::NotEqual))
    } else if bytes.starts_with(b"<=") {
        Some(Token::Op(BinOp::LessEqual))
    } else if bytes.starts_with(b">=") {
        Some(Token::Op(BinOp::GreaterEqual))
    } else if bytes.starts_with(b"&&") {
        Some(Token::Op(BinOp::And))
    } else if bytes.starts_with(b"||") {
        Some(Token::Op(BinOp::Or))
    } else if bytes.starts_with(b"?:") {
        Some(Token::OrElse)
    } else {
        None
    }
}

#[tactic(auto, unfolding(crate::specs::Marks::mark_of_one))]
fn mark_of_one(b: u8) -> Token
    ensures { result ≡ mark_of_one b }
{
    match b {
        b'<' => Token::Op(BinOp::Less),
        b'>' => Token::Op(BinOp::Greater),
        b'+' => Token::Op(BinOp::Add),
        b'-' => Token::Op(BinOp::Subtract),
        b'*' => Token::Op(BinOp::Multiply),
        b'/' => Token::Op(BinOp::Divide),
        b'%' => Token::Op(BinOp::Modulo),
        b'!' => Token::Not,
        b'?' => Token::Question,
        b':' => Token::Colon,
        b',' => Token::Comma,
        b'(' => Token::Open(Bracket::Round),
        b')' => Token::Close(Bracket::Round),
        b'{' => Token::Open(Bracket::Curly),
        b'}' => Token::Close(Bracket::Curly),
        _ => Token::Bad,
    }
}

/// The mark that bytes begin with, or a byte that is none, and its length in bytes. Computes in
/// O(1).
#[tactic(auto, unfolding(crate::specs::Marks::mark_token))]
pub fn mark_token(bytes: &[u8]) -> (Token, usize)
    requires { 0 < length bytes.now }
    ensures { result ≡ mark_token bytes.now }
{
    if let Some(token) = mark_of_three(bytes) {
        return (token, 3);
    }
    if let Some(token) = mark_of_two(bytes) {
        return (token, 2);
    }
    (mark_of_one(bytes[0]), 1)
}
