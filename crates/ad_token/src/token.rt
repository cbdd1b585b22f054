use ad_tree::{BinOp, Scope};
use ad_value::Text;

/// A kind of bracket.
#[derive(Clone, Copy)]
pub enum Bracket {
    /// `(` and `)`
    Round,
    /// `{` and `}`
    Curly,
}

/// A token of a text. `Real`, `Range` and `Bad` stand in no expression.
pub enum Token {
    /// `UNDEFINED`, without case
    Undefined,
    /// `ERROR`, without case
    Error,
    /// `TRUE`, without case
    True,
    /// `FALSE`, without case
    False,
    /// An integer, which has no sign.
    Int(i64),
    /// A string, without its quotes and escapes.
    Str(Text),
    /// A name, with the prefix before it.
    Name { scope: Scope, text: Text },
    /// An operator between operands; `+` and `-` stand before one too.
    Op(BinOp),
    /// `!`
    Not,
    /// `?`
    Question,
    /// `:`
    Colon,
    /// `?:`
    OrElse,
    /// An opening bracket.
    Open(Bracket),
    /// A closing bracket.
    Close(Bracket),
    /// `,`
    Comma,
    /// A number with a fraction or an exponent that is not zero.
    Real,
    /// An integer above 9223372036854775807.
    Range,
    /// A piece of text that is no token.
    Bad,
}

impl Drop for Token {
    fn drop(self) {
        match self {
            Token::Str(_text) => {}
            Token::Name {
                scope: _,
                text: _text,
            } => {}
            Token::Undefined
            | Token::Error
            | Token::True
            | Token::False
            | Token::Int(_)
            | Token::Op(_)
            | Token::Not
            | Token::Question
            | Token::Colon
            | Token::OrElse
            | Token::Open(_)
            | Token::Close(_)
            | Token::Comma
            | Token::Real
            | Token::Range
            | Token::Bad => {}
        }
    }
}

/// A token and the offset of its first byte, which counts bytes from 0.
pub struct Placed {
    pub at: u64,
    pub token: Token,
}

impl Drop for Placed {
    fn drop(self) {
        let Placed {
            at: _,
            token: _token,
        } = self;
    }
}
