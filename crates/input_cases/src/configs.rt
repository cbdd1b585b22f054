ghost use Rattle.pool_config.specs.Configuration.{configuration_of, IsWithinLimits};

use crate::macros::write_macro_error;
use crate::submissions::write_ad;
use ad_parse::print_expr;
use ad_tree::{Ad, Expr};
use ad_value::UserNumberList;
use cases::{Case, CaseError, escape};
use pool_config::{Config, ConfigError, ConfiguredSlot, Machine, configured_slots, read};
use std::alloc::{AllocError, Global};
use std::fmt::Write;

/// What a configuration says: `config TEXT`.
pub(crate) fn answer_config(
    alloc: Global,
    case: Case<'_>,
    out: &mut String,
) -> Result<(), CaseError> {
    let text = case.text(alloc, case.one_field()?)?;
    match read(alloc, text.as_str()) {
        Ok(config) => write_config(alloc, &config, out)?,
        Err(error) => write_refusal(&error, out)?,
    }
    Ok(())
}

/// The slots of a configuration: `slots TEXT`.
pub(crate) fn answer_slots(
    alloc: Global,
    case: Case<'_>,
    out: &mut String,
) -> Result<(), CaseError> {
    let text = case.text(alloc, case.one_field()?)?;
    match read(alloc, text.as_str()) {
        Ok(config) => write_slots(alloc, &config, out)?,
        Err(error) => write_refusal(&error, out)?,
    }
    Ok(())
}

fn write_config(alloc: Global, config: &Config, out: &mut String) -> Result<(), AllocError> {
    out.push_str("ok\tSPOOL")?;
    if let Some(spool) = &config.spool {
        out.push('=')?;
        escape(spool.as_str(), out)?;
    }
    out.push_str("\tOWNER=")?;
    escape(config.owner.as_str(), out)?;
    write_times(config, out)?;
    write_more_times(config, out)?;
    out.push_str("\tPREEMPTION_REQUIREMENTS=")?;
    write_expr(alloc, &config.preemption_requirements, out)?;
    write_users(alloc, "CEILING", &config.ceiling, out)?;
    write_users(alloc, "PRIO_FACTOR", &config.prio_factor, out)?;
    for machine in config.machines.as_slice() {
        write_machine(alloc, machine, out)?;
    }
    Ok(())
}

fn write_times(config: &Config, out: &mut String) -> Result<(), AllocError> {
    let (lifetime, update) = (config.classad_lifetime, config.update_interval);
    write!(
        out,
        "\tCLASSAD_LIFETIME={lifetime}\tUPDATE_INTERVAL={update}"
    )?;
    let (negotiator, alive) = (config.negotiator_interval, config.alive_interval);
    write!(
        out,
        "\tNEGOTIATOR_INTERVAL={negotiator}\tALIVE_INTERVAL={alive}"
    )?;
    let (job, claim) = (config.job_lease, config.claim_lease);
    write!(out, "\tJOB_LEASE={job}\tCLAIM_LEASE={claim}")
}

fn write_more_times(config: &Config, out: &mut String) -> Result<(), AllocError> {
    let (timeout, periodic) = (config.match_timeout, config.periodic_expr_interval);
    write!(
        out,
        "\tMATCH_TIMEOUT={timeout}\tPERIODIC_EXPR_INTERVAL={periodic}"
    )?;
    let tick = config.decay_tick;
    write!(out, "\tDECAY_TICK={tick}")?;
    let (retirement, vacate) = (config.maxjobretirementtime, config.machinemaxvacatetime);
    write!(
        out,
        "\tMAXJOBRETIREMENTTIME={retirement}\tMACHINEMAXVACATETIME={vacate}"
    )
}

fn write_expr(alloc: Global, expr: &Expr, out: &mut String) -> Result<(), AllocError> {
    match print_expr(alloc, expr) {
        Ok(text) => escape(text.as_str(), out),
        Err(_) => Err(AllocError),
    }
}

// Users in order of their names.
fn write_users(
    alloc: Global,
    name: &str,
    users: &UserNumberList,
    out: &mut String,
) -> Result<(), AllocError> {
    let mut sorted = Vec::new(alloc);
    for user in users.as_slice() {
        sorted.push((user.user.as_str(), user.number))?;
    }
    sorted.sort()?;
    for (user, number) in sorted.as_slice() {
        write!(out, "\t{name}.")?;
        escape(user, out)?;
        write!(out, "={number}")?;
    }
    Ok(())
}

fn write_machine(alloc: Global, machine: &Machine, out: &mut String) -> Result<(), AllocError> {
    out.push_str("\tMACHINE ")?;
    escape(machine.name.as_str(), out)?;
    let (slots, cpus) = (machine.slots, machine.cpus);
    let (memory, disk) = (machine.memory, machine.disk);
    write!(out, " {slots} {cpus} {memory} {disk}\\nSTART = ")?;
    write_expr(alloc, &machine.start, out)?;
    out.push_str("\\nRANK = ")?;
    write_expr(alloc, &machine.rank, out)?;
    out.push_str("\\n")?;
    write_attributes(alloc, &machine.attrs, out)
}

fn write_attributes(alloc: Global, attrs: &Ad, out: &mut String) -> Result<(), AllocError> {
    for place in 0..attrs.len() {
        if let Some((name, expr)) = attrs.attribute(place) {
            write!(out, "ATTR.{name} = ")?;
            write_expr(alloc, expr, out)?;
            out.push_str("\\n")?;
        }
    }
    Ok(())
}

fn write_slots(alloc: Global, config: &Config, out: &mut String) -> Result<(), AllocError>
    requires { IsWithinLimits (configuration_of config.now) }
{
    let Ok(slots) = configured_slots(alloc, config) else {
        return Err(AllocError);
    };
    out.push_str("ok")?;
    for slot in slots.as_slice() {
        write_slot(alloc, slot, out)?;
    }
    Ok(())
}

fn write_slot(alloc: Global, slot: &ConfiguredSlot, out: &mut String) -> Result<(), AllocError> {
    let (machine, number) = (slot.slot.machine, slot.slot.slot);
    write!(out, "\t{machine}:{number} ")?;
    escape(slot.name.as_str(), out)?;
    out.push_str("\\n")?;
    write_ad(alloc, &slot.ad, out)
}

fn write_refusal(error: &ConfigError, out: &mut String) -> Result<(), AllocError> {
    match error {
        ConfigError::BadLine { line } => write!(out, "BadLine\t{line}"),
        ConfigError::Unknown { line } => write!(out, "Unknown\t{line}"),
        ConfigError::BadValue { line } => write!(out, "BadValue\t{line}"),
        ConfigError::Macro { line, error } => {
            write!(out, "Macro\t{line}\t")?;
            write_macro_error(error, out)
        }
        ConfigError::Machines { line } => write!(out, "Machines\t{line}"),
        ConfigError::Slots { line } => write!(out, "Slots\t{line}"),
        ConfigError::Full { line } => write!(out, "Full\t{line}"),
        ConfigError::NoMachine => out.push_str("NoMachine"),
        ConfigError::Memory => Err(AllocError),
    }
}
