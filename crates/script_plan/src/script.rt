// Scripts.

ghost use Rattle.std.specs.Prelude.{◌≡◌, ◌↔◌, Some, IfOk, IfErr, OnOk, filter_map, slice_get};
ghost use Rattle.script_plan.specs.declared.entry.Entry.{Entry};
ghost use Rattle.script_plan.specs.Entries.{wish_in, lost_in, repeated_in, late_in, crash_in, load_in};
ghost use Rattle.script_plan.specs.Scripts.{IsScript, IsRefused, AreSaid, LineSays, SaidNext, IsRefusedNext, IsRefusedIn, IsByTime, Holds, is_second_load, has_load};

use crate::entry::{Crash, CrashList, Entry, Load, NumberList, WishList, entry_of};
use crate::error::ScriptError;
use ad_value::{Memory, Seq, TextList};
use claim_id::Wish;
use line_text::{Line, arg_words, lines};
use std::alloc::Global;

/// What happens in the course of a run, besides what the pool does by itself.
#[derive(Drop)]
pub struct Script {
    /// The orders, by time, and those of one time in the order of their lines.
    pub wishes: WishList,
    /// The mails that are not received, in the order of the lines, as all that follows.
    pub lose: NumberList,
    /// The mails that are received twice.
    pub repeat: NumberList,
    /// The mails that are received after the next one.
    pub late: NumberList,
    /// The crashes of daemons.
    pub crash: CrashList,
    /// The large submission, where there is one.
    pub load: Option<Load>,
}

/// The script that a text is, over the names of the configuration's machines. Its logical lines are
/// those of a submit file, and their words are divided by blanks and tabs:
///
/// - `at T rm JOB`, `at T hold JOB`, `at T release JOB`: an order;
/// - `lose N`, `repeat N`, `late N`: what becomes of the mail numbered N, from 0;
/// - `crash schedd N`, `crash MACHINE N`: a crash after that daemon's Nth point, from 1;
/// - `load NUMBER JOBS`, at most once: a large submission, NUMBER up to `MAX_LOAD_NUMBER` and JOBS
///   from 1 to `MAX_LOAD_JOBS`.
///
/// Numbers are decimal digits without sign or leading zeros; T is at most `LAST_READING`. Of
/// machines with one name the first is meant, and `schedd` is never a machine. Computes in
/// O(bytes * machines + orders * log orders).
pub fn read(alloc: Global, text: &str, machines: &TextList) -> Result<Script, ScriptError>
    ensures ok { IfOk result (IsScript machines.now text.now) }
    ensures refused { IfErr result (IsRefused machines.now text.now) }
{
    let lines = lines(alloc, text)?;
    let entries = entries(alloc, machines, lines.as_slice())?;
    let script = script_of(alloc, entries.as_slice())?;
    Ok(script)
}

// What the lines say, a line each.
fn entries(alloc: Global, machines: &TextList, lines: &[Line]) -> Result<Vec<Entry>, ScriptError>
    ensures ok { IfOk result (λ es. AreSaid machines.now lines.now es.items) }
    ensures refused { IfErr result (IsRefusedIn machines.now lines.now) }
{
    let mut entries = Vec::new(alloc);
    for line in lines {
        let entry = next_entry(alloc, machines, entries.as_slice(), line)?;
        entries.push(entry)?;
    }
    Ok(entries)
}

// What a line says behind lines that say these entries.
fn next_entry(
    alloc: Global,
    machines: &TextList,
    before: &[Entry],
    line: &Line,
) -> Result<Entry, ScriptError>
    ensures ok { IfOk result (SaidNext machines.now before.now line.now) }
    ensures refused { IfErr result (IsRefusedNext machines.now before.now line.now) }
{
    let Some(entry) = line_entry(alloc, machines, line)? else {
        return Err(ScriptError::BadLine { line: line.number });
    };
    if is_second_load(before, &entry) {
        return Err(ScriptError::BadLine { line: line.number });
    }
    Ok(entry)
}

// What a line says.
fn line_entry(alloc: Global, machines: &TextList, line: &Line) -> Result<Option<Entry>, Memory>
    ensures { IfOk result (λ r.
        (e : Entry) → (r ≡ Some e) ↔ LineSays machines.now line.now e) }
{
    match arg_words(alloc, line.text.as_str(), false)? {
        Some(words) => Ok(entry_of(machines, words.as_slice())),
        None => Ok(None),
    }
}

// Whether a line is a `load` line behind lines with one. Computes in O(1), or in O(lines) at a
// `load` line.
fn is_second_load(before: &[Entry], entry: &Entry) -> bool
    ensures { result ≡ is_second_load before.now entry.now }
{
    entry.is_load() && has_load(before)
}

fn has_load(entries: &[Entry]) -> bool
    ensures { result ≡ has_load entries.now }
{
    entries.iter().any(|e| e.is_load())
}

// The script of what lines say.
fn script_of(alloc: Global, entries: &[Entry]) -> Result<Script, Memory>
    ensures { IfOk result (Holds entries.now) }
{
    Ok(Script {
        wishes: Seq::from_vec(wishes(alloc, entries)?),
        lose: Seq::from_vec(lost(alloc, entries)?),
        repeat: Seq::from_vec(repeated(alloc, entries)?),
        late: Seq::from_vec(late(alloc, entries)?),
        crash: Seq::from_vec(crashes(alloc, entries)?),
        load: load(alloc, entries)?,
    })
}

// The orders, by time and then by line.
fn wishes(alloc: Global, entries: &[Entry]) -> Result<Vec<Wish>, Memory>
    ensures { IfOk result (λ v. IsByTime (filter_map wish_in entries.now) v.items) }
{
    let mut wishes = wishes_by_line(alloc, entries)?;
    sort_by_time(&mut wishes)?;
    Ok(wishes)
}

fn wishes_by_line(alloc: Global, entries: &[Entry]) -> Result<Vec<Wish>, Memory>
    ensures { IfOk result (λ v. v.items ≡ filter_map wish_in entries.now) }
{
    Ok(entries.iter().filter_map(|e| e.wish()).collect(alloc)?)
}

// Sorts orders by time; those of one time stay in order.
fn sort_by_time(wishes: &mut Vec<Wish>) -> Result<(), Memory>
    ensures { OnOk result (IsByTime wishes.old.items wishes.new.items) }
{
    wishes.sort_by_key(|wish| wish.at)?;
    Ok(())
}

fn lost(alloc: Global, entries: &[Entry]) -> Result<Vec<u64>, Memory>
    ensures { IfOk result (λ v. v.items ≡ filter_map lost_in entries.now) }
{
    Ok(entries.iter().filter_map(|e| e.lost()).collect(alloc)?)
}

fn repeated(alloc: Global, entries: &[Entry]) -> Result<Vec<u64>, Memory>
    ensures { IfOk result (λ v. v.items ≡ filter_map repeated_in entries.now) }
{
    Ok(entries.iter().filter_map(|e| e.repeated()).collect(alloc)?)
}

fn late(alloc: Global, entries: &[Entry]) -> Result<Vec<u64>, Memory>
    ensures { IfOk result (λ v. v.items ≡ filter_map late_in entries.now) }
{
    Ok(entries.iter().filter_map(|e| e.late()).collect(alloc)?)
}

fn crashes(alloc: Global, entries: &[Entry]) -> Result<Vec<Crash>, Memory>
    ensures { IfOk result (λ v. v.items ≡ filter_map crash_in entries.now) }
{
    Ok(entries.iter().filter_map(|e| e.crash()).collect(alloc)?)
}

fn loads(alloc: Global, entries: &[Entry]) -> Result<Vec<Load>, Memory>
    ensures { IfOk result (λ v. v.items ≡ filter_map load_in entries.now) }
{
    Ok(entries.iter().filter_map(|e| e.load()).collect(alloc)?)
}

// The first of the loads, which is the only one.
fn load(alloc: Global, entries: &[Entry]) -> Result<Option<Load>, Memory>
    ensures { IfOk result (λ l. l ≡ slice_get (filter_map load_in entries.now) 0) }
{
    let loads = loads(alloc, entries)?;
    Ok(loads.as_slice().first().copied())
}
