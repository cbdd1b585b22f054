// Mails that go astray, crashes and loads: the lines `lose`, `repeat`, `late`, `crash` and `load`.

ghost use Rattle.std.specs.Prelude.{◌≡◌, ◌↔◌, ℕ, Option};
ghost use Rattle.std.specs.List.{position};
ghost use Rattle.std.specs.Str.{bytes_eq};
ghost use Rattle.script_plan.specs.declared.entry.Crash.{Crash};
ghost use Rattle.script_plan.specs.declared.entry.Load.{Load};
ghost use Rattle.script_plan.specs.Entries.{IsMail, IsPoint, IsDaemon, IsCrash, IsLoad, IsLoadNumber, IsLoadJobs};

use crate::entry::{Crash, Load};
use ad_value::{Text, TextList, number_in};

/// The greatest number of a load.
pub const MAX_LOAD_NUMBER: u64 = 2_147_483_647;

/// How many jobs a load has at most.
pub const MAX_LOAD_JOBS: u64 = 10_000;

/// The mail's number that the words behind `lose`, `repeat` or `late` are. Computes in O(bytes).
pub(crate) fn mail(words: &[Text]) -> Option<u64>
    ensures { (n : ℕ) → (result ≡ Some n) ↔ IsMail words.now n }
{
    let [number] = words else {
        return None;
    };
    number_in(number.as_str())
}

/// The crash that the words behind `crash` are: a daemon and a point. Computes in O(bytes of the
/// words and of the machines' names).
pub(crate) fn crash(machines: &TextList, words: &[Text]) -> Option<Crash>
    ensures { (c : Crash) → (result ≡ Some c) ↔ IsCrash machines.now words.now c }
{
    let [daemon, point] = words else {
        return None;
    };
    crash_of(machines, daemon.as_str(), point.as_str())
}

fn crash_of(machines: &TextList, daemon: &str, point: &str) -> Option<Crash>
    ensures { (c : Crash) → (result ≡ Some c)
        ↔ (IsDaemon machines.now daemon.now c.machine × IsPoint point.now c.point) }
{
    Some(Crash {
        machine: daemon_of(machines, daemon)?,
        point: point_of(point)?,
    })
}

// The daemon that a word names: none for the schedd, else a machine's place.
fn daemon_of(machines: &TextList, word: &str) -> Option<Option<u16>>
    ensures { (d : Option ℕ) → (result ≡ Some d) ↔ IsDaemon machines.now word.now d }
{
    if word == "schedd" {
        return Some(None);
    }
    let place = place_of(machines.as_slice(), word)?;
    Some(Some(u16::try_from(place).ok()?))
}

// The place of a machine's name.
fn place_of(machines: &[Text], name: &str) -> Option<usize>
    ensures { result ≡ position (bytes_eq name.now) machines.now }
{
    machines.iter().position(|machine| name == machine.as_str())
}

// The point that a word is, from 1.
fn point_of(word: &str) -> Option<u64>
    ensures { (n : ℕ) → (result ≡ Some n) ↔ IsPoint word.now n }
{
    let number = number_in(word)?;
    if number == 0 {
        return None;
    }
    Some(number)
}

/// The load that the words behind `load` are: its number and how many jobs. Computes in O(bytes).
pub(crate) fn load(words: &[Text]) -> Option<Load>
    ensures { (l : Load) → (result ≡ Some l) ↔ IsLoad words.now l }
{
    let [number, jobs] = words else {
        return None;
    };
    load_of(number.as_str(), jobs.as_str())
}

fn load_of(number: &str, jobs: &str) -> Option<Load>
    ensures { (l : Load) → (result ≡ Some l)
        ↔ (IsLoadNumber number.now l.number × IsLoadJobs jobs.now l.jobs) }
{
    Some(Load {
        number: load_number(number)?,
        jobs: load_jobs(jobs)?,
    })
}

// The number of a load that a word is.
fn load_number(word: &str) -> Option<u32>
    ensures { (n : ℕ) → (result ≡ Some n) ↔ IsLoadNumber word.now n }
{
    let number = number_in(word)?;
    if number > MAX_LOAD_NUMBER {
        return None;
    }
    Some(number as u32)
}

// The count of a load's jobs that a word is, from 1.
fn load_jobs(word: &str) -> Option<u32>
    ensures { (n : ℕ) → (result ≡ Some n) ↔ IsLoadJobs word.now n }
{
    let number = number_in(word)?;
    if number == 0 || number > MAX_LOAD_JOBS {
        return None;
    }
    Some(number as u32)
}
