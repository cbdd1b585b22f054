// What a job asks of a machine.

ghost use Rattle.std.specs.Prelude.{◌≡◌, IfOk, [], ◌∷◌, ◌++◌};
ghost use Rattle.ad_value.specs.declared.names.job.TheConstants.{REQUEST_CPUS, REQUEST_DISK, REQUEST_MEMORY};
ghost use Rattle.ad_value.specs.declared.names.slot.TheConstants.{CPUS, DISK, MEMORY};
ghost use Rattle.ad_tree.specs.declared.operator.BinOp.TheVariants.{And};
ghost use Rattle.ad_tree.specs.Tree.{tree, reference, chain, rests, rests_of};
ghost use Rattle.ad_rows.specs.Requests.{at_least, enough, with_enough};

use ad_tree::{BinOp, Expr, Rest, RestList, Scope};
use ad_value::names::job::{REQUEST_CPUS, REQUEST_DISK, REQUEST_MEMORY};
use ad_value::names::slot::{CPUS, DISK, MEMORY};
use ad_value::{Memory, Text};
use std::alloc::Global;

/// That the other ad has as many processors, MiB of memory and KiB of disk as this one asks for
/// (HTCondor manual, "condor_submit", request_cpus and its kin): `TARGET.Cpus >= RequestCpus &&
/// TARGET.Memory >= RequestMemory && TARGET.Disk >= RequestDisk`. Computes in O(1).
pub fn enough(alloc: Global) -> Result<Expr, Memory>
    ensures { IfOk result (λ e. tree e ≡ enough) }
{
    let mut rest = RestList {
        items: Vec::new(alloc),
    };
    ask_for_room(alloc, &mut rest)?;
    let first = at_least(alloc, CPUS, REQUEST_CPUS)?;
    chain(alloc, first, rest)
}

/// The expression as one operand, and behind it `&&` and what `enough` says. Computes in O(1).
pub fn with_enough(alloc: Global, expr: Expr) -> Result<Expr, Memory>
    ensures { IfOk result (λ e. tree e ≡ with_enough (tree expr)) }
{
    let rest = asked(alloc)?;
    chain(alloc, expr, rest)
}

// `&& TARGET.Cpus >= RequestCpus`, and behind it what is asked for room.
fn asked(alloc: Global) -> Result<RestList, Memory>
    ensures { IfOk result (λ r. rests r ≡
        (And, at_least CPUS.now REQUEST_CPUS.now)
        ∷ (And, at_least MEMORY.now REQUEST_MEMORY.now)
        ∷ (And, at_least DISK.now REQUEST_DISK.now) ∷ []) }
{
    let mut rest = RestList {
        items: Vec::new(alloc),
    };
    ask(alloc, &mut rest, CPUS, REQUEST_CPUS)?;
    ask_for_room(alloc, &mut rest)?;
    Ok(rest)
}

// `&& TARGET.Memory >= RequestMemory && TARGET.Disk >= RequestDisk`
fn ask_for_room(alloc: Global, rest: &mut RestList) -> Result<(), Memory>
    ensures { IfOk result (λ _. rests rest.new ≡
        rests rest.old ++ (And, at_least MEMORY.now REQUEST_MEMORY.now)
        ∷ (And, at_least DISK.now REQUEST_DISK.now) ∷ []) }
{
    ask(alloc, rest, MEMORY, REQUEST_MEMORY)?;
    ask(alloc, rest, DISK, REQUEST_DISK)
}

// `&& TARGET.NAME >= REQUEST`
fn ask(alloc: Global, rest: &mut RestList, name: &str, request: &str) -> Result<(), Memory>
    ensures { IfOk result (λ _. rests rest.new ≡
        rests rest.old ++ (And, at_least name.now request.now) ∷ []) }
{
    let arg = at_least(alloc, name, request)?;
    join(rest, BinOp::And, arg)
}

// `TARGET.NAME >= REQUEST`
fn at_least(alloc: Global, name: &str, request: &str) -> Result<Expr, Memory>
    ensures { IfOk result (λ e. tree e ≡ at_least name.now request.now) }
{
    let mut rest = RestList {
        items: Vec::new(alloc),
    };
    let arg = reference_to(alloc, Scope::Bare, request)?;
    join(&mut rest, BinOp::GreaterEqual, arg)?;
    let first = reference_to(alloc, Scope::Target, name)?;
    chain(alloc, first, rest)
}

// One more operator and its operand at the end.
fn join(rest: &mut RestList, op: BinOp, arg: Expr) -> Result<(), Memory>
    ensures { IfOk result (λ _. rests rest.new ≡ rests rest.old ++ (op, tree arg) ∷ []) }
{
    rest.items.push(Rest { op, arg })?;
    Ok(())
}

fn chain(alloc: Global, first: Expr, rest: RestList) -> Result<Expr, Memory>
    ensures { IfOk result (λ e. tree e ≡ chain (tree first) (rests_of (rests rest))) }
{
    let first = Box::new(alloc, first)?;
    Ok(Expr::Chain { first, rest })
}

/// The value of an attribute, by its name. Computes in O(bytes).
pub(crate) fn reference_to(alloc: Global, scope: Scope, name: &str) -> Result<Expr, Memory>
    ensures { IfOk result (λ e. tree e ≡ reference scope name.now) }
{
    Ok(Expr::Ref {
        scope,
        name: Text::from_str(alloc, name)?,
    })
}
