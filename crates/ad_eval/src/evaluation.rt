ghost use Rattle.std.specs.Prelude.{◌≡◌, [], map, IfOk, OnOk};
ghost use Rattle.ad_value.specs.Content.{content, contents_of, items};
ghost use Rattle.ad_value.specs.Truth.{truth_of, chosen_value};
ghost use Rattle.ad_tree.specs.Tree.{tree, trees, trees_of, rest, rests, rests_of};
ghost use Rattle.ad_value.specs.Gives.{GivesValue};
ghost use Rattle.ad_func.specs.Called.{call_value};
ghost use Rattle.ad_eval.specs.Evaluation.{name_values, mean, mean_on, means};
ghost use Rattle.ad_eval.specs.Mean.{both_ads, present, attribute_value, expression_value};
ghost use Rattle.ad_eval.specs.Operators.{binary_value, unary_value, first_defined};
ghost use Rattle.ad_eval.specs.Match.{holds_as, rank_as, rank_of};
ghost use Rattle.ad_eval.specs.Sides.{ads_of};

use crate::operators::{apply, apply_unary, settle};
use crate::progress::{MOST_IN_PROGRESS, Progress};
use crate::sides::{Side, Sides, find_in_scope};
use ad_func::call;
use ad_tree::{Ad, Expr, ExprList, Rest, RestList, Scope, UnOp};
use ad_value::names::matching::RANK;
use ad_value::{Memory, Truth, Value, ValueList};
use std::alloc::Global;

// An evaluation, as far as it has come: where its memory comes from, the two ads, the moment in
// seconds, and the attributes in progress, which are left open where memory runs out.
#[derive(Drop)]
struct Evaluation<'a> {
    alloc: Global,
    sides: Sides<'a>,
    now: u64,
    progress: Progress,
}

impl<'a> Evaluation<'a> {
    // An evaluation that begins.
    fn new(alloc: Global, my: &'a Ad, target: Option<&'a Ad>, now: u64) -> Self
        ensures ads { ads_of result.sides ≡ both_ads my.now (present target.entry) }
        ensures now { result.now ≡ now }
        ensures progress { result.progress ≡ [] }
    {
        Evaluation {
            alloc,
            sides: Sides { my, target },
            now,
            progress: Progress::new(alloc),
        }
    }

    // What an expression means on a side. Each form has a function of its own, so that one level of
    // an expression takes little of the stack.
    #[cycle(eval)]
    #[inline(never)]
    fn evaluate(&mut self, side: Side, expr: &Expr) -> Result<Value, Memory>
        ensures value { GivesValue result (mean self.old side (tree expr.now)) }
        ensures kept { OnOk result (self.new ≡ self.old) }
    {
        match expr {
            Expr::Lit(value) => value.copy(self.alloc),
            Expr::Ref { scope, name } => self.refer(side, *scope, name.as_str()),
            Expr::Unary { op, arg } => self.unary_value(side, *op, arg),
            Expr::Chain { first, rest } => self.chain_value(side, first, rest),
            Expr::Cond { test, yes, no } => self.choice_value(side, test, yes, no),
            Expr::OrElse { first, other } => self.value_or_else(side, first, other),
            Expr::Call { name, args } => self.call_value(side, name.as_str(), args),
            Expr::Items(items) => self.list_value(side, items),
        }
    }

    // What an operator before its operand makes of it.
    #[cycle(eval)]
    #[inline(never)]
    fn unary_value(&mut self, side: Side, op: UnOp, arg: &Expr) -> Result<Value, Memory>
        ensures value { GivesValue result (unary_value op (mean self.old side (tree arg.now))) }
        ensures kept { OnOk result (self.new ≡ self.old) }
    {
        let value = self.evaluate(side, arg)?;
        Ok(apply_unary(op, &value))
    }

    // What operators and operands make of the first one.
    #[cycle(eval)]
    #[inline(never)]
    fn chain_value(&mut self, side: Side, first: &Expr, rest: &RestList) -> Result<Value, Memory>
        ensures value { GivesValue result (mean_on self.old side
            (mean self.old side (tree first.now))
            (rests_of (rests rest.now))) }
        ensures kept { OnOk result (self.new ≡ self.old) }
    {
        let mut value = self.evaluate(side, first)?;
        for step in &rest.items {
            value = self.take_step(side, &value, step)?;
        }
        Ok(value)
    }

    // What is chosen; the other one is not evaluated.
    #[cycle(eval)]
    #[inline(never)]
    fn choice_value(
        &mut self,
        side: Side,
        test: &Expr,
        yes: &Expr,
        no: &Expr,
    ) -> Result<Value, Memory>
        ensures value { GivesValue result (chosen_value
            (truth_of (mean self.old side (tree test.now)))
            (mean self.old side (tree yes.now))
            (mean self.old side (tree no.now))) }
        ensures kept { OnOk result (self.new ≡ self.old) }
    {
        let truth = self.evaluate(side, test)?.truth();
        match truth {
            Truth::True => self.evaluate(side, yes),
            Truth::False => self.evaluate(side, no),
            Truth::Undefined => Ok(Value::Undefined),
            Truth::Error => Ok(Value::Error),
        }
    }

    // The first where it is not undefined, else the other.
    #[cycle(eval)]
    #[inline(never)]
    fn value_or_else(&mut self, side: Side, first: &Expr, other: &Expr) -> Result<Value, Memory>
        ensures value { GivesValue result (first_defined
            (mean self.old side (tree first.now))
            (mean self.old side (tree other.now))) }
        ensures kept { OnOk result (self.new ≡ self.old) }
    {
        let value = self.evaluate(side, first)?;
        if let Value::Undefined = &value {
            return self.evaluate(side, other);
        }
        Ok(value)
    }

    // What a function makes of its arguments.
    #[cycle(eval)]
    #[inline(never)]
    fn call_value(&mut self, side: Side, name: &str, args: &ExprList) -> Result<Value, Memory>
        ensures value { GivesValue result (call_value
            name.now
            (means self.old side (trees_of (trees args.now)))
            self.old.now) }
        ensures kept { OnOk result (self.new ≡ self.old) }
    {
        let values = self.evaluate_all(side, args)?;
        call(self.alloc, name, &values.items, self.now)
    }

    // The list of the items' values.
    #[cycle(eval)]
    #[inline(never)]
    fn list_value(&mut self, side: Side, exprs: &ExprList) -> Result<Value, Memory>
        ensures value { GivesValue result
            (items (contents_of (means self.old side (trees_of (trees exprs.now))))) }
        ensures kept { OnOk result (self.new ≡ self.old) }
    {
        let values = self.evaluate_all(side, exprs)?;
        Ok(Value::List(values))
    }

    // What an operator and its operand make of the value before them. The operand is not evaluated
    // where it cannot matter.
    #[cycle(eval)]
    fn take_step(&mut self, side: Side, value: &Value, step: &Rest) -> Result<Value, Memory>
        ensures value { GivesValue result (binary_value
            (rest step.now).0
            (content value.now)
            (mean self.old side (rest step.now).1)) }
        ensures kept { OnOk result (self.new ≡ self.old) }
    {
        if let Some(settled) = settle(step.op, value) {
            return Ok(settled);
        }
        if let Expr::Lit(arg) = &step.arg {
            return apply(self.alloc, step.op, value, arg);
        }
        let arg = self.evaluate(side, &step.arg)?;
        apply(self.alloc, step.op, value, &arg)
    }

    // The values of a list's expressions.
    #[cycle(eval)]
    fn evaluate_all(&mut self, side: Side, list: &ExprList) -> Result<ValueList, Memory>
        ensures value { IfOk result
            (λ l. map content l.items.items ≡ means self.old side (trees_of (trees list.now))) }
        ensures kept { OnOk result (self.new ≡ self.old) }
    {
        let mut items = Vec::new(self.alloc);
        for item in &list.items {
            let value = self.evaluate(side, item)?;
            items.push(value)?;
        }
        Ok(ValueList { items })
    }

    // What a name means.
    #[cycle(eval)]
    fn refer(&mut self, side: Side, scope: Scope, name: &str) -> Result<Value, Memory>
        ensures value { GivesValue result (name_values self.old side scope name.now) }
        ensures kept { OnOk result (self.new ≡ self.old) }
    {
        if self.progress.len() >= MOST_IN_PROGRESS {
            return Ok(Value::Error);
        }
        let Some((side, place, expr)) = find_in_scope(self.sides, side, scope, name) else {
            return Ok(Value::Undefined);
        };
        if self.progress.contains(side, place) {
            return Ok(Value::Error);
        }
        if let Expr::Lit(value) = expr {
            return value.copy(self.alloc);
        }
        self.progress.push(side, place)?;
        let value = self.evaluate(side, expr)?;
        self.progress.pop();
        Ok(value)
    }
}

/// The value of an attribute of `my` with `target` as the other ad, at the reading `now` in seconds
/// since 1970-01-01 00:00:00 UTC; undefined where it is not there. A reference to an attribute in
/// progress, or one made while 32 are in progress, is an error (HTCondor manual, "ClassAd
/// evaluation"; the limit and the error are this project's own). An attribute is read after one
/// look-up in each ad that is asked, and its expression is not copied. Computes in O(steps of the
/// evaluation), and evaluates anew what is named again.
pub fn eval(
    alloc: Global,
    my: &Ad,
    target: Option<&Ad>,
    name: &str,
    now: u64,
) -> Result<Value, Memory>
    ensures { GivesValue result (attribute_value my.now (present target.entry) now name.now) }
{
    Evaluation::new(alloc, my, target, now).refer(Side::My, Scope::My, name)
}

fn holds_as(value: &Value) -> bool
    ensures { result ≡ holds_as (content value.now) }
{
    match value {
        Value::Bool(b) => *b,
        Value::Int(n) => *n != 0,
        Value::Undefined | Value::Error | Value::Str(_) | Value::List(_) => false,
    }
}

/// Whether an attribute is TRUE or an integer that is not 0. Computes as `eval`.
pub fn holds(
    alloc: Global,
    my: &Ad,
    target: Option<&Ad>,
    name: &str,
    now: u64,
) -> Result<bool, Memory>
    ensures { IfOk result
        (λ h. h ≡ holds_as (attribute_value my.now (present target.entry) now name.now)) }
{
    let value = eval(alloc, my, target, name, now)?;
    Ok(holds_as(&value))
}

/// Whether an expression on the side of `my`, by itself, is TRUE or an integer that is not 0.
/// Computes as `eval`.
pub fn holds_expr(
    alloc: Global,
    my: &Ad,
    target: Option<&Ad>,
    expr: &Expr,
    now: u64,
) -> Result<bool, Memory>
    ensures { IfOk result
        (λ h. h ≡ holds_as (expression_value my.now (present target.entry) now (tree expr.now))) }
{
    let value = Evaluation::new(alloc, my, target, now).evaluate(Side::My, expr)?;
    Ok(holds_as(&value))
}

fn rank_as(value: &Value) -> i64
    ensures { result ≡ rank_as (content value.now) }
{
    match value {
        Value::Bool(b) => i64::from(*b),
        Value::Int(n) => *n,
        Value::Undefined | Value::Error | Value::Str(_) | Value::List(_) => 0,
    }
}

/// The Rank of `my` for `target`: an integer, or 1 or 0 for a truth value; anything else counts 0.
/// Computes as `eval`.
pub fn rank(alloc: Global, my: &Ad, target: &Ad, now: u64) -> Result<i64, Memory>
    ensures { IfOk result (λ n. n ≡ rank_of my.now target.now now) }
{
    let value = eval(alloc, my, Some(target), RANK, now)?;
    Ok(rank_as(&value))
}
