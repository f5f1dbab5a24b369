//! The arguments of the command.
ghost use Rattle.std.specs.Prelude.{◌≡◌, IfOk, IsSome, OnErr};
ghost use Rattle.command_words.specs.Texts.{texts};
ghost use Rattle.dual_command.specs.Words.{command_in, task_in};

use file_command::model_word;
use lists::Memory;
use name_index::Name;
use std::alloc::Global;

/// What is to be done with the dual of a model.
#[derive(Clone, Copy, Debug, PartialEq, Eq)]
pub(crate) enum Task {
    /// It is written as text.
    Write,
    /// It is solved.
    Solve,
}

/// What is to be done with the dual of a file's model.
#[derive(Debug, Drop)]
pub(crate) struct DualCommand {
    pub task: Task,
    pub file: Name,
}

/// The command of arguments, `write FILE` or `solve FILE`; none where they are others. Memory runs
/// out only where they are of one.
pub(crate) fn command_of(alloc: Global, words: &[String]) -> Result<Option<DualCommand>, Memory>
    ensures said { IfOk result (λ command. command ≡ command_in (texts words.now)) }
    ensures of_one { OnErr result (IsSome (command_in (texts words.now))) }
{
    let Some((first, others)) = words.split_first() else {
        return Ok(None);
    };
    let Some(task) = task_in(first.as_str()) else {
        return Ok(None);
    };
    match model_word(alloc, others)? {
        Some(file) => Ok(Some(DualCommand { task, file })),
        None => Ok(None),
    }
}

fn task_in(word: &str) -> Option<Task>
    ensures { result ≡ task_in word.now }
{
    match word {
        "write" => Some(Task::Write),
        "solve" => Some(Task::Solve),
        _ => None,
    }
}
