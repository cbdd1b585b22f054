ghost use Rattle.std.specs.Prelude.{◌≡◌, ◌⊎◌, MatchOption};
ghost use Rattle.pool_input.specs.Words.{texts};
ghost use Rattle.pool_input.specs.Questions.{Asks, AsksNothing, AsksAlone, IsNoQuestion};
ghost use Rattle.pool_input.specs.declared.status.Status.{Status};

use crate::command::command_line;
use crate::status::Status;
use std::alloc::{AllocError, Global};

/// What a lone word may ask for.
#[derive(Clone, Copy)]
pub enum Question {
    Help,
    Version,
}

/// What the words ask for, where there is one word and it asks. Computes in O(1).
pub fn lone_question(words: &[String]) -> Option<Question>
    ensures { MatchOption result (IsNoQuestion (texts words.now))
        (λ question. AsksAlone question (texts words.now)) }
{
    let [word] = words else {
        return None;
    };
    question_in(word.as_str())
}

// What a word asks for.
fn question_in(word: &str) -> Option<Question>
    ensures { MatchOption result (AsksNothing word.now) (λ question. Asks question word.now) }
{
    match word {
        "--help" | "-h" => Some(Question::Help),
        "--version" | "-V" => Some(Question::Version),
        _ => None,
    }
}

/// Prints what a lone word asks for, and says how the program ends then. Computes in O(bytes of the
/// text).
pub fn print_answer(rt: &impl Print, alloc: Global, question: Question) -> Status
    ensures { (result ≡ Status.Done) ⊎ ((result ≡ Status.OutFault) ⊎ (result ≡ Status.Memory)) }
{
    match text_of(alloc, question) {
        Ok(text) => match print!(rt; "{text}") {
            Ok(()) => Status::Done,
            Err(_) => Status::OutFault,
        },
        Err(_) => Status::Memory,
    }
}

fn text_of(alloc: Global, question: Question) -> Result<String, AllocError> {
    let mut command = command_line(alloc)?;
    match question {
        Question::Help => command.render_help(),
        Question::Version => command.render_version(),
    }
}
