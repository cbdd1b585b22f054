use ad_value::{Text, TextList};
use cases::{Case, CaseError, escape};
use claim_id::{Verb, Wish};
use script_plan::{Crash, NumberList, Script, ScriptError, read};
use std::alloc::{AllocError, Global};
use std::fmt::Write;

/// What a script says: `script TEXT MACHINE ..`.
pub(crate) fn answer_script(
    alloc: Global,
    case: Case<'_>,
    out: &mut String,
) -> Result<(), CaseError> {
    let fields = case.all_fields(alloc)?;
    let [text, names @ ..] = fields.as_slice() else {
        return Err(CaseError::Fields { line: case.line });
    };
    let text = case.text(alloc, text)?;
    let machines = machines_of(alloc, case, names)?;
    write_reading(read(alloc, text.as_str(), &machines), &machines, out)?;
    Ok(())
}

fn machines_of(alloc: Global, case: Case<'_>, names: &[&str]) -> Result<TextList, CaseError> {
    let mut machines = Vec::new(alloc);
    for name in names {
        machines.push(Text::from(case.text(alloc, name)?))?;
    }
    Ok(TextList::from_vec(machines))
}

fn write_reading(
    reading: Result<Script, ScriptError>,
    machines: &TextList,
    out: &mut String,
) -> Result<(), AllocError> {
    match reading {
        Ok(script) => write_script(&script, machines, out),
        Err(ScriptError::BadLine { line }) => write!(out, "BadLine\t{line}"),
        Err(ScriptError::Memory) => Err(AllocError),
    }
}

fn write_script(script: &Script, machines: &TextList, out: &mut String) -> Result<(), AllocError> {
    out.push_str("ok")?;
    for wish in script.wishes.as_slice() {
        write_wish(*wish, out)?;
    }
    write_numbers("lose", &script.lose, out)?;
    write_numbers("repeat", &script.repeat, out)?;
    write_numbers("late", &script.late, out)?;
    for crash in script.crash.as_slice() {
        write_crash(*crash, machines, out)?;
    }
    if let Some(load) = script.load {
        let (number, jobs) = (load.number, load.jobs);
        write!(out, "\tload {number} {jobs}")?;
    }
    Ok(())
}

fn write_wish(wish: Wish, out: &mut String) -> Result<(), AllocError> {
    let (at, cluster, proc) = (wish.at, wish.job.cluster, wish.job.proc);
    let verb = match wish.verb {
        Verb::Remove => "rm",
        Verb::Hold => "hold",
        Verb::Resume => "release",
    };
    write!(out, "\tat {at} {verb} {cluster}.{proc}")
}

fn write_numbers(word: &str, numbers: &NumberList, out: &mut String) -> Result<(), AllocError> {
    for number in numbers.as_slice() {
        write!(out, "\t{word} {number}")?;
    }
    Ok(())
}

fn write_crash(crash: Crash, machines: &TextList, out: &mut String) -> Result<(), AllocError> {
    out.push_str("\tcrash ")?;
    match crash.machine {
        Some(place) => write_machine(machines, usize::from(place), out)?,
        None => out.push_str("schedd")?,
    }
    let point = crash.point;
    write!(out, " {point}")
}

fn write_machine(machines: &TextList, place: usize, out: &mut String) -> Result<(), AllocError> {
    match machines.as_slice().get(place) {
        Some(name) => escape(name.as_str(), out),
        None => Ok(()),
    }
}
