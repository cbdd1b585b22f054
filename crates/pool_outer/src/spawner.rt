ghost use Rattle.std.specs.Prelude.{◌≡◌, ◌≢◌, ◌<◌, ◌≤◌, ◌+◌, ◌++◌, ◌∷◌, [], ℕ, List, Bool, true, false, Err, length, IfOk, OnOk, OnErr, is_ok, if◌then◌else◌};
ghost use Rattle.pool_outer.specs.declared.spawner.SpawnError.TheVariants.{Failed, Memory as NoMemory};
ghost use Rattle.pool_outer.specs.declared.spawner.ChildState.{ChildState};
ghost use Rattle.pool_outer.specs.declared.spawner.ChildState.TheVariants.{Running};
ghost use Rattle.pool_outer.specs.declared.spawner.Launch.{Launch};
ghost use Rattle.pool_outer.specs.Cause.{HasCause};
ghost use Rattle.pool_outer.specs.Children.{Sees, SameSightings};

mod child;
mod memory;

use ad_value::{Copied, Memory, Text, TextList};
pub use child::ChildSpawner;
pub use memory::{ChildEnd, FailingSpawns, MemSpawner, Script, SureSpawner};
use std::alloc::{AllocError, AllocFailed, Global};
use std::fmt;
use thiserror::Error;

/// What a child is started with. An empty folder is the program's own, and an empty file name is
/// `/dev/null`.
pub struct Launch {
    pub program: Text,
    pub words: TextList,
    pub folder: Text,
    pub input: Text,
    pub output: Text,
    pub errors: Text,
}

impl Drop for Launch {
    fn drop(self) {
        let Launch {
            program: _program,
            words: _words,
            folder: _folder,
            input: _input,
            output: _output,
            errors: _errors,
        } = self;
    }
}

impl Copied for Launch {
    fn copy(&self, alloc: Global) -> Result<Launch, Memory> {
        Ok(Launch {
            program: self.program.copy(alloc)?,
            words: self.words.copy(alloc)?,
            folder: self.folder.copy(alloc)?,
            input: self.input.copy(alloc)?,
            output: self.output.copy(alloc)?,
            errors: self.errors.copy(alloc)?,
        })
    }
}

/// How a look finds a child: running, or ended by an exit code or a signal's number.
#[derive(Clone, Copy, Debug, PartialEq, Eq)]
pub enum ChildState {
    Running,
    Exited(i32),
    Signalled(i32),
}

#[derive(Clone, Copy, PartialEq, Eq, Error)]
pub enum SpawnError {
    #[error("the system refused")]
    Failed,
    #[error("out of memory")]
    Memory,
}

impl fmt::Debug for SpawnError {
    fn fmt<W: fmt::Write>(&self, f: &mut fmt::Formatter<W>) -> fmt::Result {
        fmt::Display::fmt(self, f)
    }
}

/// Child programs, numbered from 0 in the order of their launches.
pub trait Spawner: Drop {
    /// How many calls have failed.
    ghost faults: { Self → ℕ };

    /// How many children were launched.
    ghost count: { Self → ℕ };

    /// Whether the members below say what became of them.
    ghost tells: { Self → Bool };

    /// What was launched, in order.
    ghost launches: { Self → List Launch };

    /// Whether a child was to be killed.
    ghost killed: { Self → ℕ → Bool };

    /// How a child was last seen: one that wasn't looked at is running.
    ghost seen: { Self → ℕ → ChildState };

    fn launch(&mut self, alloc: Global, what: &Launch) -> Result<u64, SpawnError>
        ensures number { IfOk result (λ n. n ≡ count self.old) }
        ensures count { count self.new
            ≡ (if is_ok result then count self.old + 1 else count self.old) }
        ensures launched { tells self.old ≡ true
            → launches self.new ≡ (if is_ok result
            then launches self.old ++ what.now ∷ []
            else launches self.old) }
        ensures killed { tells self.old ≡ true → (k : ℕ) → killed self.new k ≡ killed self.old k }
        ensures seen { tells self.old ≡ true → SameSightings (seen self.old) (seen self.new) }
        ensures told { tells self.new ≡ tells self.old }
        ensures cause { HasCause Failed (faults self.old) (faults self.new) result };

    /// Looks at a child. It is `Running` only where it hadn't ended at this look, and ends once.
    fn poll(&mut self, child: u64) -> Result<ChildState, SpawnError>
        requires { child < count self.old }
        ensures state { tells self.old ≡ true
            → IfOk result (λ s. Sees child s (seen self.old) (seen self.new)) }
        ensures unseen { tells self.old ≡ true
            → OnErr result (SameSightings (seen self.old) (seen self.new)) }
        ensures no_memory { result ≢ Err SpawnError.Memory }
        ensures count { count self.new ≡ count self.old }
        ensures launched { tells self.old ≡ true → launches self.new ≡ launches self.old }
        ensures killed { tells self.old ≡ true → (k : ℕ) → killed self.new k ≡ killed self.old k }
        ensures told { tells self.new ≡ tells self.old }
        ensures cause { HasCause Failed (faults self.old) (faults self.new) result };

    /// Asks the system to kill a child; one that has ended stays as it is.
    fn kill(&mut self, child: u64) -> Result<(), SpawnError>
        requires { child < count self.old }
        ensures killed { tells self.old ≡ true → OnOk result (killed self.new child ≡ true) }
        ensures spared { tells self.old ≡ true
            → OnErr result (killed self.new child ≡ killed self.old child) }
        ensures others { tells self.old ≡ true
            → (k : ℕ) → k ≢ child → killed self.new k ≡ killed self.old k }
        ensures seen { tells self.old ≡ true → SameSightings (seen self.old) (seen self.new) }
        ensures no_memory { result ≢ Err SpawnError.Memory }
        ensures count { count self.new ≡ count self.old }
        ensures launched { tells self.old ≡ true → launches self.new ≡ launches self.old }
        ensures told { tells self.new ≡ tells self.old }
        ensures cause { HasCause Failed (faults self.old) (faults self.new) result };

    /// Each child was launched.
    ghost counted: { (s : Self) → tells s ≡ true → length (launches s) ≡ count s };

    /// A child that isn't there yet was neither seen to end nor killed.
    ghost unborn: { (s : Self) (k : ℕ)
        → tells s ≡ true → count s ≤ k → (seen s k ≡ Running) × (killed s k ≡ false) };
}

impl From<Memory> for SpawnError {
    ghost from_gives = { λ _ error. error ≡ NoMemory };

    fn from(_: Memory) -> SpawnError {
        SpawnError::Memory
    }
}

impl From<AllocError> for SpawnError {
    ghost from_gives = { λ _ error. error ≡ NoMemory };

    fn from(_: AllocError) -> SpawnError {
        SpawnError::Memory
    }
}

impl<T: Drop> From<AllocFailed<T>> for SpawnError {
    ghost from_gives = { λ _ error. error ≡ NoMemory };

    fn from(_: AllocFailed<T>) -> SpawnError {
        SpawnError::Memory
    }
}
