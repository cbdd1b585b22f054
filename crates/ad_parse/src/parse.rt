// From tokens to a tree: one position that only moves forward.

ghost use Rattle.std.specs.Prelude.{◌≡◌, ◌<◌, ◌≤◌, ◌-◌, length, IfOk, Ok};
ghost use Rattle.ad_tree.specs.Tree.{Tree, tree, rests, rests_of};
ghost use Rattle.ad_parse.specs.Grammar.{IsText};
ghost use Rattle.ad_parse.specs.Reader.{text_at, choice_at, branches_at, or_else_at, level_at, rests_at, chain_of, prefix_at, primary_at, primary_by, brackets_at, list_at, name_at, call_by, open_at, items_at, items_from};
ghost use Rattle.ad_parse.specs.Parser.{condition_of, operand_of};
ghost use Rattle.ad_parse.specs.Gives.{Gives, GivesTree, GivesBox, GivesTrees, GivesRests, LeavesWithin, Holds};

use crate::error::ParseError;
use crate::first_tokens::{
    comma, depth_refusal, infix_at, is_closing_mark, literal_value, misplaced_token, open_round,
    pass_close, pass_colon, prefix, refusal_of,
};
use crate::levels::LOOSEST;
use ad_token::{Bracket, Placed, Token};
use ad_tree::{Expr, ExprList, Rest, RestList, Scope, UnOp};
use ad_value::{Copied, Text};
use std::alloc::Global;

// How many brackets and operators may hold an operand.
const MOST_NESTED: usize = 64;

// What parsing goes on with, wherever it stands.
#[derive(Clone, Copy)]
struct Parser {
    alloc: Global,
    // The offset of the text's end.
    end: u64,
    // Fewer than so many more brackets and operators may hold an operand.
    left: usize,
}

/// The tree of the tokens; `end` is the offset of their text's end. Computes in O(tokens).
pub(crate) fn parse_tokens(alloc: Global, end: u64, tokens: &[Placed]) -> Result<Expr, ParseError>
    // What is read is spelled so.
    ensures found { IfOk result (λ e. IsText tokens.now (tree e)) }
    // What is spelled so is read, unless memory runs out.
    ensures only { (e : Tree) → IsText tokens.now e → Gives tree result (Ok e) }
    // Which tree or fault it is.
    ensures exact { Gives tree result (text_at end tokens.now) }
{
    parse_all(alloc, end, tokens)
}

fn parse_all(alloc: Global, end: u64, tokens: &[Placed]) -> Result<Expr, ParseError>
    ensures { Gives tree result (text_at end tokens.now) }
{
    let left = MOST_NESTED + 1;
    let (expr, rest) = Parser { alloc, end, left }.parse_condition(tokens)?;
    if rest.is_empty() {
        Ok(expr)
    } else {
        Err(refusal_of(end, rest))
    }
}

impl Parser {
    // A condition, in which fewer than `left` more brackets and operators hold each operand.
    #[cycle(parse)]
    #[tactic(auto, using(crate::proofs::Steps::cond_is))]
    fn parse_condition(self, tokens: &[Placed]) -> Result<(Expr, &[Placed]), ParseError>
        ensures value { GivesTree result (condition_of self tokens.now) }
        ensures shorter { LeavesWithin tokens.now result }
    {
        if self.left == 0 {
            return Err(depth_refusal(self.end, tokens));
        }
        let (test, rest) = self.parse_level(LOOSEST, tokens)?;
        let left = self.left - 1;
        Parser { left, ..self }.parse_choice(test, rest)
    }

    // What may follow a test.
    #[cycle(parse)]
    fn parse_choice(self, test: Expr, tokens: &[Placed]) -> Result<(Expr, &[Placed]), ParseError>
        ensures value { GivesTree result (
            choice_at self.end (condition_of self) (tree test) tokens.now) }
        ensures shorter { LeavesWithin tokens.now result }
    {
        match tokens {
            [first, rest @ ..] if matches!(first.token, Token::Question) => {
                self.parse_branches(test, rest)
            }
            [first, rest @ ..] if matches!(first.token, Token::OrElse) => {
                self.parse_or_else(test, rest)
            }
            _ => Ok((test, tokens)),
        }
    }

    // A condition, in a box.
    #[cycle(parse)]
    fn parse_boxed(self, tokens: &[Placed]) -> Result<(Box<Expr>, &[Placed]), ParseError>
        ensures value { GivesBox result (condition_of self tokens.now) }
        ensures shorter { LeavesWithin tokens.now result }
    {
        let (expr, rest) = self.parse_condition(tokens)?;
        let expr = Box::new(self.alloc, expr)?;
        Ok((expr, rest))
    }

    // The two branches after a question mark.
    #[cycle(parse)]
    fn parse_branches(self, test: Expr, tokens: &[Placed]) -> Result<(Expr, &[Placed]), ParseError>
        ensures value { GivesTree result (
            branches_at self.end (condition_of self) (tree test) tokens.now) }
        ensures shorter { LeavesWithin tokens.now result }
    {
        let test = Box::new(self.alloc, test)?;
        let (yes, rest) = self.parse_boxed(tokens)?;
        let rest = pass_colon(self.end, rest)?;
        let (no, rest) = self.parse_boxed(rest)?;
        Ok((Expr::Cond { test, yes, no }, rest))
    }

    // What stands after `?:`.
    #[cycle(parse)]
    fn parse_or_else(self, first: Expr, tokens: &[Placed]) -> Result<(Expr, &[Placed]), ParseError>
        ensures value { GivesTree result (or_else_at (condition_of self) (tree first) tokens.now) }
        ensures shorter { LeavesWithin tokens.now result }
    {
        let first = Box::new(self.alloc, first)?;
        let (other, rest) = self.parse_boxed(tokens)?;
        Ok((Expr::OrElse { first, other }, rest))
    }

    // Operands, divided by operators of the level and of tighter ones.
    #[cycle(parse)]
    #[tactic(auto, using(crate::proofs::Steps::level_is))]
    fn parse_level(self, loosest: usize, tokens: &[Placed]) -> Result<(Expr, &[Placed]), ParseError>
        requires { loosest ≤ LOOSEST }
        ensures value { GivesTree result (level_at (operand_of self) loosest tokens.now) }
        ensures shorter { LeavesWithin tokens.now result }
    {
        if loosest == 0 {
            return self.parse_operand(tokens);
        }
        let (first, rest) = self.parse_level(loosest - 1, tokens)?;
        let (list, rest) = self.parse_rests(loosest, rest)?;
        let whole = chain_of(self.alloc, first, list)?;
        Ok((whole, rest))
    }

    // Operators of the level, each with its operand.
    #[cycle(parse)]
    fn parse_rests(
        self,
        level: usize,
        tokens: &[Placed],
    ) -> Result<(RestList, &[Placed]), ParseError>
        requires some { 0 < level }
        requires most { level ≤ LOOSEST }
        ensures value { GivesRests result (rests_at
            (level_at (operand_of self) (level - 1)) level (length tokens.now) tokens.now) }
        ensures shorter { LeavesWithin tokens.now result }
    {
        let mut items = Vec::new(self.alloc);
        let mut rest = tokens;
        while let Some((op, after)) = infix_at(rest, level) {
            let (arg, after) = self.parse_level(level - 1, after)?;
            items.push(Rest { op, arg })?;
            rest = after;
        }
        Ok((RestList { items }, rest))
    }

    // An operand with the operators before it.
    #[cycle(parse)]
    #[tactic(auto, using(crate::proofs::Steps::operand_steps))]
    fn parse_operand(self, tokens: &[Placed]) -> Result<(Expr, &[Placed]), ParseError>
        ensures value { GivesTree result (operand_of self tokens.now) }
        ensures shorter { LeavesWithin tokens.now result }
    {
        if self.left == 0 {
            return Err(depth_refusal(self.end, tokens));
        }
        let Some((first, rest)) = tokens.split_first() else {
            return Err(refusal_of(self.end, tokens));
        };
        let left = self.left - 1;
        let inner = Parser { left, ..self };
        if let Some(op) = prefix(&first.token) {
            inner.parse_prefix(op, rest)
        } else {
            inner.parse_primary(first, rest)
        }
    }

    // The operand of an operator.
    #[cycle(parse)]
    fn parse_prefix(self, op: UnOp, tokens: &[Placed]) -> Result<(Expr, &[Placed]), ParseError>
        ensures value { GivesTree result (prefix_at (operand_of self) op tokens.now) }
        ensures shorter { LeavesWithin tokens.now result }
    {
        let (arg, rest) = self.parse_operand(tokens)?;
        let arg = Box::new(self.alloc, arg)?;
        Ok((Expr::Unary { op, arg }, rest))
    }

    // An operand that begins with no operator.
    #[cycle(parse)]
    fn parse_primary<'a>(
        self,
        first: &'a Placed,
        rest: &'a [Placed],
    ) -> Result<(Expr, &'a [Placed]), ParseError>
        ensures value { GivesTree result (
            primary_at self.end (condition_of self) first.now rest.now) }
        ensures shorter { LeavesWithin rest.now result }
    {
        if let Some(value) = literal_value(self.alloc, &first.token)? {
            return Ok((Expr::Lit(value), rest));
        }
        self.parse_name_or_brackets(first, rest)
    }

    // An operand that begins with no operator and no literal.
    #[cycle(parse)]
    fn parse_name_or_brackets<'a>(
        self,
        first: &'a Placed,
        rest: &'a [Placed],
    ) -> Result<(Expr, &'a [Placed]), ParseError>
        ensures value { GivesTree result (
            primary_by self.end (condition_of self) first.now.token first.now.at rest.now) }
        ensures shorter { LeavesWithin rest.now result }
    {
        match &first.token {
            Token::Name { scope, text } => self.parse_name(*scope, text, rest),
            Token::Open(Bracket::Round) => self.parse_brackets(rest),
            Token::Open(Bracket::Curly) => self.parse_items(rest),
            _ => Err(misplaced_token(first)),
        }
    }

    // A condition and the closing bracket.
    #[cycle(parse)]
    fn parse_brackets(self, tokens: &[Placed]) -> Result<(Expr, &[Placed]), ParseError>
        ensures value { GivesTree result (brackets_at self.end (condition_of self) tokens.now) }
        ensures shorter { LeavesWithin tokens.now result }
    {
        let (inner, rest) = self.parse_condition(tokens)?;
        let rest = pass_close(self.end, Bracket::Round, rest)?;
        Ok((inner, rest))
    }

    // The items of a list and the closing bracket.
    #[cycle(parse)]
    fn parse_items(self, tokens: &[Placed]) -> Result<(Expr, &[Placed]), ParseError>
        ensures value { GivesTree result (list_at self.end (condition_of self) tokens.now) }
        ensures shorter { LeavesWithin tokens.now result }
    {
        let (list, rest) = self.parse_conditions(Bracket::Curly, tokens)?;
        Ok((Expr::Items(list), rest))
    }

    // What a name is: only a bare one can be called.
    #[cycle(parse)]
    fn parse_name<'a>(
        self,
        scope: Scope,
        text: &Text,
        tokens: &'a [Placed],
    ) -> Result<(Expr, &'a [Placed]), ParseError>
        ensures value { GivesTree result (
            name_at self.end (condition_of self) scope text.now tokens.now) }
        ensures shorter { LeavesWithin tokens.now result }
    {
        let name = text.copy(self.alloc)?;
        match scope {
            Scope::Bare => self.parse_call(name, tokens),
            Scope::My => Ok((Expr::Ref { scope, name }, tokens)),
            Scope::Target => Ok((Expr::Ref { scope, name }, tokens)),
        }
    }

    // A bare name, and the arguments where a bracket follows it.
    #[cycle(parse)]
    fn parse_call(self, name: Text, tokens: &[Placed]) -> Result<(Expr, &[Placed]), ParseError>
        ensures value { GivesTree result (
            call_by self.end (condition_of self) name tokens.now (open_at tokens.now)) }
        ensures shorter { LeavesWithin tokens.now result }
    {
        let Some(after) = open_round(tokens) else {
            let scope = Scope::Bare;
            return Ok((Expr::Ref { scope, name }, tokens));
        };
        let (args, rest) = self.parse_conditions(Bracket::Round, after)?;
        Ok((Expr::Call { name, args }, rest))
    }

    // Conditions divided by commas, and the closing bracket.
    #[cycle(parse)]
    fn parse_conditions(
        self,
        bracket: Bracket,
        tokens: &[Placed],
    ) -> Result<(ExprList, &[Placed]), ParseError>
        ensures value { GivesTrees result (
            items_at bracket self.end (condition_of self) tokens.now) }
        ensures shorter { LeavesWithin tokens.now result }
    {
        let [first, after @ ..] = tokens else {
            return Err(refusal_of(self.end, tokens));
        };
        if is_closing_mark(first, bracket) {
            let items = Vec::new(self.alloc);
            return Ok((ExprList { items }, after));
        }
        let (item, rest) = self.parse_condition(tokens)?;
        self.parse_more_conditions(bracket, item, rest)
    }

    // The item, and those that follow it after commas.
    #[cycle(parse)]
    fn parse_more_conditions(
        self,
        bracket: Bracket,
        item: Expr,
        tokens: &[Placed],
    ) -> Result<(ExprList, &[Placed]), ParseError>
        ensures value { GivesTrees result (
            items_from bracket self.end (condition_of self) (tree item) tokens.now) }
        ensures shorter { LeavesWithin tokens.now result }
    {
        let mut items = vec![in self.alloc; item]?;
        let mut rest = tokens;
        while let Some(after) = comma(rest) {
            let (item, after) = self.parse_condition(after)?;
            items.push(item)?;
            rest = after;
        }
        let rest = pass_close(self.end, bracket, rest)?;
        Ok((ExprList { items }, rest))
    }
}

// The operand alone, where no other follows it.
fn chain_of(alloc: Global, first: Expr, rest: RestList) -> Result<Expr, ParseError>
    ensures { Holds (λ e. tree e ≡ chain_of (tree first) (rests_of (rests rest))) result }
{
    if rest.items.is_empty() {
        return Ok(first);
    }
    let first = Box::new(alloc, first)?;
    Ok(Expr::Chain { first, rest })
}
