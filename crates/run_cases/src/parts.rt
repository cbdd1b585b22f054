ghost use Rattle.std.specs.Prelude.{◌≡◌, All, IfOk, length};

use crate::case::RunCase;
use ad_value::Text;
use cases::CaseError;
use pool_master::MACHINES;
use pool_outer::{FailingSpawns, MemClock, MemSink, MemSpawner, Script, Spawner};
use pool_store::{MemFile, MemStore};
use std::alloc::Global;

/// How many looks a child runs on for.
const LOOKS: u64 = 3;

/// The command's words.
pub(crate) fn words_of(alloc: Global, run: &RunCase<'_>) -> Result<Vec<String>, CaseError> {
    run.words
        .iter()
        .map(|word| run.case.text(alloc, word))
        .try_collect(alloc)
}

/// The files `pool.conf`, `job.sub`, `2.sub` and on, where they are there.
pub(crate) fn store_of(alloc: Global, run: &RunCase<'_>) -> Result<MemStore, CaseError> {
    let fails = run.failing_calls(alloc, "store")?;
    let files = files_of(alloc, run)?;
    Ok(MemStore::new(files, fails))
}

fn files_of(alloc: Global, run: &RunCase<'_>) -> Result<Vec<MemFile>, CaseError> {
    let mut files = Vec::new(alloc);
    add_file(alloc, run, "pool.conf", run.config, &mut files)?;
    let mut number = 1u64;
    for text in run.submits.split('¶') {
        let name = submit_name(alloc, number)?;
        add_file(alloc, run, name.as_str(), text, &mut files)?;
        number = number.saturating_add(1);
    }
    Ok(files)
}

fn submit_name(alloc: Global, number: u64) -> Result<String, CaseError> {
    match number {
        1 => Ok(String::from_str(alloc, "job.sub")?),
        _ => Ok(format!(in alloc; "{number}.sub")?),
    }
}

fn add_file(
    alloc: Global,
    run: &RunCase<'_>,
    name: &str,
    text: &str,
    files: &mut Vec<MemFile>,
) -> Result<(), CaseError> {
    if text != "-" {
        files.push(file_of(alloc, run, name, text)?)?;
    }
    Ok(())
}

fn file_of(alloc: Global, run: &RunCase<'_>, name: &str, text: &str) -> Result<MemFile, CaseError> {
    let name = Text::from(String::from_str(alloc, name)?);
    let bytes = run.case.bytes(alloc, text)?;
    Ok(MemFile::new(name, bytes))
}

/// A clock that gives the readings.
pub(crate) fn clock_of(alloc: Global, run: &RunCase<'_>) -> Result<MemClock, CaseError> {
    let readings = run.numbers(alloc, run.readings)?;
    Ok(MemClock::new(readings, 0))
}

/// An output; the first of its calls that are to fail does.
pub(crate) fn sink_of(alloc: Global, run: &RunCase<'_>) -> Result<MemSink, CaseError> {
    let fails = run.failing_calls(alloc, "write")?;
    Ok(MemSink::new(alloc, fails.first().copied()))
}

/// A spawner for each machine.
pub(crate) fn spawners_of(alloc: Global, run: &RunCase<'_>) -> Result<Vec<MemSpawner>, CaseError>
    ensures machines { IfOk result (λ spawners. length spawners.items ≡ MACHINES) }
    ensures idle { IfOk result
        (λ spawners. All (λ s. ⟦<MemSpawner as Spawner>⟧.count s ≡ 0) spawners.items) }
{
    let mut spawners = Vec::new(alloc);
    'machines: for _machine in 0..MACHINES {
        let idle = spawner_of(alloc, run)?;
        spawners.push(idle)?;
    }
    Ok(spawners)
}

fn spawner_of(alloc: Global, run: &RunCase<'_>) -> Result<MemSpawner, CaseError>
    ensures { IfOk result (λ s. ⟦<MemSpawner as Spawner>⟧.count s ≡ 0) }
{
    let fails = fails_of(alloc, run)?;
    let scripts = scripts_of(alloc, run)?;
    Ok(MemSpawner::new(alloc, scripts, fails))
}

fn fails_of(alloc: Global, run: &RunCase<'_>) -> Result<FailingSpawns, CaseError> {
    let launches = run.failing_calls(alloc, "launch")?;
    let polls = run.failing_calls(alloc, "look")?;
    Ok(FailingSpawns {
        launches,
        polls,
        kills: Vec::new(alloc),
    })
}

fn scripts_of(alloc: Global, run: &RunCase<'_>) -> Result<Vec<Script>, CaseError> {
    let program = Text::from(String::from_str(alloc, "/bin/true")?);
    let mut scripts = Vec::new(alloc);
    scripts.push(Script {
        program,
        looks: LOOKS,
        end: run.end,
    })?;
    Ok(scripts)
}
