// The numbers of operators and scopes.

ghost use Rattle.std.specs.Prelude.{◌≡◌};
ghost use Rattle.ad_rows.specs.Digests.{scope_number, prefix_number, infix_number};

use ad_tree::{BinOp, Scope, UnOp};

pub(crate) fn scope_number(scope: Scope) -> u8
    ensures { result ≡ scope_number scope }
{
    match scope {
        Scope::Bare => 0,
        Scope::My => 1,
        Scope::Target => 2,
    }
}

pub(crate) fn prefix_number(op: UnOp) -> u8
    ensures { result ≡ prefix_number op }
{
    match op {
        UnOp::Minus => 0,
        UnOp::Plus => 1,
        UnOp::Not => 2,
    }
}

pub(crate) fn infix_number(op: BinOp) -> u8
    ensures { result ≡ infix_number op }
{
    match op {
        BinOp::Or => 0,
        BinOp::And => 1,
        BinOp::Equal => 2,
        BinOp::NotEqual => 3,
        BinOp::Same => 4,
        BinOp::NotSame => 5,
        BinOp::Less => 6,
        BinOp::LessEqual => 7,
        BinOp::GreaterEqual => 8,
        BinOp::Greater => 9,
        BinOp::Add => 10,
        BinOp::Subtract => 11,
        BinOp::Multiply => 12,
        BinOp::Divide => 13,
        BinOp::Modulo => 14,
    }
}
