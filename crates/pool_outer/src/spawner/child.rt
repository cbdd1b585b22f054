//! Programs of the system.
ghost use Rattle.std.specs.Prelude.{◌≡◌, IfSome, None};
ghost use Rattle.std.specs.Process.{exit_code, exit_signal};

use super::{ChildState, Launch, SpawnError, Spawner};
use crate::faults::count_fault;
use std::alloc::Global;
use std::fs::File;
use std::io::ErrorKind;
use std::os::unix::process::ExitStatusExt;
use std::path::Path;
use std::process::{Child, Command, ExitStatus, Processes, Stdio};
use std::rt::Files;
use std::{fs, io};

/// Programs of the system. It tells nothing of what becomes of them.
///
/// A relative program is looked for as the system does, in the child's folder or along `PATH`;
/// relative names of files are taken in the folder. The files for output and errors are made, or
/// emptied where they are there.
#[derive(Drop)]
pub struct ChildSpawner<R: Processes + Files<File = File> + Drop> {
    rt: R,
    children: Vec<Child<R::Started>>,
    faults: u64,
}

impl<R: Processes + Files<File = File> + Drop> ChildSpawner<R> {
    pub fn new(alloc: Global, rt: R) -> ChildSpawner<R>
        ensures idle { ⟦<ChildSpawner<R> as Spawner>⟧.count result ≡ 0 }
        ensures faults { ⟦<ChildSpawner<R> as Spawner>⟧.faults result ≡ 0 }
    {
        ChildSpawner {
            rt,
            children: Vec::new(alloc),
            faults: 0,
        }
    }
}

impl<R: Processes + Files<File = File> + Drop> Spawner for ChildSpawner<R> {
    ghost use Rattle.std.specs.Prelude.{false, [], length};
    ghost use Rattle.pool_outer.specs.declared.spawner.ChildState.TheVariants.{Running};

    ghost faults = { λ s. s.faults };

    ghost count = { λ s. length s.children.items };

    ghost tells = { λ _. false };

    ghost launches = { λ _. [] };

    ghost killed = { λ _ _. false };

    ghost seen = { λ _ _. Running };

    ghost counted = { λ s tells. Prim.cc };

    ghost unborn = { λ s k tells past. Prim.cc };

    fn launch(&mut self, alloc: Global, what: &Launch) -> Result<u64, SpawnError> {
        let number = self.children.len() as u64;
        self.children.reserve(1)?;
        match start(&self.rt, alloc, what) {
            Ok(child) => {
                self.children.push(child).unwrap();
                Ok(number)
            }
            Err(error) if error.kind() == ErrorKind::OutOfMemory => Err(SpawnError::Memory),
            Err(_) => {
                count_fault(&mut self.faults);
                Err(SpawnError::Failed)
            }
        }
    }

    fn poll(&mut self, child: u64) -> Result<ChildState, SpawnError> {
        let child = &mut self.children[child as usize];
        match child.try_wait() {
            Ok(None) => Ok(ChildState::Running),
            Ok(Some(status)) => Ok(ending(status)),
            Err(_) => {
                count_fault(&mut self.faults);
                Err(SpawnError::Failed)
            }
        }
    }

    fn kill(&mut self, child: u64) -> Result<(), SpawnError> {
        let child = &mut self.children[child as usize];
        if child.kill().is_err() {
            count_fault(&mut self.faults);
            return Err(SpawnError::Failed);
        }
        Ok(())
    }
}

fn ending(status: ExitStatus) -> ChildState
    ensures exited { IfSome (exit_code status) (λ code. result ≡ ChildState.Exited code) }
    ensures signalled { exit_code status ≡ None
        → IfSome (exit_signal status) (λ signal. result ≡ ChildState.Signalled signal) }
{
    match status.code() {
        Some(code) => ChildState::Exited(code),
        None => ChildState::Signalled(status.signal().unwrap_or(0)),
    }
}

fn start<R: Processes + Files<File = File>>(
    rt: &R,
    alloc: Global,
    what: &Launch,
) -> io::Result<Child<R::Started>> {
    let mut command = Command::new(alloc, what.program.as_str())?;
    start_by(rt, alloc, what, &mut command)
}

// The command is lent, as it is large and each way out of its owner drops it.
fn start_by<R: Processes + Files<File = File>>(
    rt: &R,
    alloc: Global,
    what: &Launch,
    command: &mut Command,
) -> io::Result<Child<R::Started>> {
    set_words(what, command)?;
    set_streams(rt, alloc, what, command)?;
    command.spawn(rt)
}

// The words and the folder.
fn set_words(what: &Launch, command: &mut Command) -> io::Result<()> {
    for word in what.words.as_slice() {
        command.arg(word.as_str())?;
    }
    let folder = what.folder.as_str();
    if !folder.is_empty() {
        command.current_dir(folder)?;
    }
    Ok(())
}

fn set_streams<R: Files<File = File>>(
    rt: &R,
    alloc: Global,
    what: &Launch,
    command: &mut Command,
) -> io::Result<()> {
    let folder = what.folder.as_str();
    let input = open_file(rt, alloc, folder, what.input.as_str(), Use::Read)?;
    command.stdin(stream(input));
    let output = open_file(rt, alloc, folder, what.output.as_str(), Use::Write)?;
    let errors = open_errors(rt, alloc, what, &output)?;
    command.stdout(stream(output));
    command.stderr(stream(errors));
    Ok(())
}

// Output and errors in one file write one after the other, as by one handle.
fn open_errors<R: Files<File = File>>(
    rt: &R,
    alloc: Global,
    what: &Launch,
    output: &Option<File>,
) -> io::Result<Option<File>> {
    let errors = what.errors.as_str();
    match output {
        Some(file) if errors == what.output.as_str() => Ok(Some(file.try_clone()?)),
        _ => open_file(rt, alloc, what.folder.as_str(), errors, Use::Write),
    }
}

#[derive(Clone, Copy)]
enum Use {
    Read,
    Write,
}

// The file of that name in the folder; none for no name.
fn open_file<R: Files<File = File>>(
    rt: &R,
    alloc: Global,
    folder: &str,
    name: &str,
    used: Use,
) -> io::Result<Option<File>> {
    if name.is_empty() {
        return Ok(None);
    }
    let path = Path::new(folder).join(alloc, name)?;
    let file = match used {
        Use::Read => fs::open(rt, path.as_path())?,
        Use::Write => fs::create(rt, path.as_path())?,
    };
    Ok(Some(file))
}

fn stream(file: Option<File>) -> Stdio {
    match file {
        Some(file) => Stdio::from(file),
        None => Stdio::null(),
    }
}
