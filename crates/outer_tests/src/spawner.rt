use ad_value::{Memory, Text, TextList};
use pool_outer::{ChildSpawner, ChildState, Launch, SpawnError, Spawner};
use std::alloc::Global;
use std::process::Abort;
use std::rt::Clock;
use std::thread;
use std::time::Duration;

// What a child is started with; bars divide the words.
#[derive(Clone, Copy)]
pub(crate) struct Start<'a> {
    pub(crate) program: &'a str,
    pub(crate) words: &'a str,
    pub(crate) folder: &'a str,
    pub(crate) input: &'a str,
    pub(crate) output: &'a str,
    pub(crate) errors: &'a str,
}

// All of its texts are empty.
pub(crate) fn empty_launch(alloc: Global) -> Launch {
    Launch {
        program: Text::new(alloc),
        words: TextList::new(alloc),
        folder: Text::new(alloc),
        input: Text::new(alloc),
        output: Text::new(alloc),
        errors: Text::new(alloc),
    }
}

fn set(alloc: Global, text: &mut Text, value: &str) -> Result<(), Memory> {
    *text = Text::from_str(alloc, value)?;
    Ok(())
}

fn push_words(alloc: Global, list: &mut TextList, words: &str) -> Result<(), Memory> {
    for word in words.split('|') {
        list.push(Text::from_str(alloc, word)?)?;
    }
    Ok(())
}

pub(crate) fn fill(alloc: Global, what: &mut Launch, start: Start) -> Result<(), Memory> {
    set(alloc, &mut what.program, start.program)?;
    push_words(alloc, &mut what.words, start.words)?;
    set(alloc, &mut what.folder, start.folder)?;
    set(alloc, &mut what.input, start.input)?;
    set(alloc, &mut what.output, start.output)?;
    set(alloc, &mut what.errors, start.errors)
}

// How a new child ends, which may be killed before it is looked at.
fn ending_of<P: Spawner>(
    rt: &impl Clock,
    alloc: Global,
    spawner: &mut P,
    what: &Launch,
    kill: bool,
) -> Result<ChildState, SpawnError> {
    let child = spawner.launch(alloc, what)?;
    if kill {
        spawner.kill(child)?;
    }
    'looks: for _look in 0..5000 {
        let state = spawner.poll(child)?;
        if state != ChildState::Running {
            return Ok(state);
        }
        thread::sleep(rt, Duration::from_millis(2));
    }
    Ok(ChildState::Running)
}

pub(crate) fn end_from<P: Spawner>(
    rt: &impl Clock,
    alloc: Global,
    spawner: &mut P,
    start: Start,
    kill: bool,
) -> Result<ChildState, SpawnError> {
    let mut what = empty_launch(alloc);
    match fill(alloc, &mut what, start) {
        Ok(()) => ending_of(rt, alloc, spawner, &what, kill),
        Err(_) => Err(SpawnError::Memory),
    }
}

// A program with its words, whether it is killed, and how it ends.
type Case = (
    &'static str,
    &'static str,
    bool,
    Result<ChildState, SpawnError>,
);

pub(crate) const SUCCESS: Result<ChildState, SpawnError> = Ok(ChildState::Exited(0));

const KILLED: Result<ChildState, SpawnError> = Ok(ChildState::Signalled(9));

const PROGRAMS: &[Case] = &[
    ("/bin/true", "", false, SUCCESS),
    ("/bin/false", "", false, Ok(ChildState::Exited(1))),
    (
        "/bin/sh",
        "-c|exit $#|sh|a b|",
        false,
        Ok(ChildState::Exited(2)),
    ),
    ("/bin/sh", "-c|kill -9 $$", false, KILLED),
    ("/bin/sleep", "100", true, KILLED),
    ("/no/such/program", "", false, Err(SpawnError::Failed)),
];

fn check_programs<P: Spawner>(
    rt: &(impl Clock + Abort),
    alloc: Global,
    spawner: &mut P,
    cases: &[Case],
) {
    for (program, words, kill, want) in cases {
        let start = Start {
            program,
            words,
            folder: "",
            input: "",
            output: "",
            errors: "",
        };
        let got = end_from(rt, alloc, spawner, start, *kill);
        assert_eq!(rt; got, *want, "{program} {words}");
    }
}

const FOLDER: &str = "outer_folder";

const BEFORE: &[Case] = &[(
    "/bin/sh",
    "-c|rm -rf $1; mkdir $1; cd $1; printf read > in; echo before > out|sh|outer_folder",
    false,
    SUCCESS,
)];

const APART: &[Case] = &[(
    "/bin/sh",
    "-c|cd $1; cat err >> out; test $(tr '\\n' , < out) = readsaid,|sh|outer_folder",
    false,
    SUCCESS,
)];

const TOGETHER: &[Case] = &[
    (
        "/bin/sh",
        "-c|cd $1; cat err >> out; test $(tr '\\n' , < out) = one,two,three,said,|sh|outer_folder",
        false,
        SUCCESS,
    ),
    ("/bin/rm", "-r|outer_folder", false, SUCCESS),
];

// A shell that succeeds in the folder, and has its input, its output and its errors there.
fn check_shell<P: Spawner>(
    rt: &(impl Clock + Abort),
    alloc: Global,
    spawner: &mut P,
    words: &str,
    errors: &str,
) {
    let start = Start {
        program: "/bin/sh",
        words,
        folder: FOLDER,
        input: "in",
        output: "out",
        errors,
    };
    let got = end_from(rt, alloc, spawner, start, false);
    assert_eq!(rt; got, SUCCESS, "{words}");
}

// A shell reads and writes the files of its folder.
fn check_files<P: Spawner>(rt: &(impl Clock + Abort), alloc: Global, spawner: &mut P) {
    check_programs(rt, alloc, spawner, BEFORE);
    check_shell(rt, alloc, spawner, "-c|cat; echo said >&2", "err");
    check_programs(rt, alloc, spawner, APART);
    let words = "-c|echo one; echo two >&2; echo three";
    check_shell(rt, alloc, spawner, words, "out");
    check_programs(rt, alloc, spawner, TOGETHER);
}

#[test]
fn programs_of_the_system_run_as_they_are_launched(rt: HostRuntime) {
    let mut spawner = ChildSpawner::new(rt.alloc(), &rt);
    check_programs(&rt, rt.alloc(), &mut spawner, PROGRAMS);
    check_files(&rt, rt.alloc(), &mut spawner);
}
