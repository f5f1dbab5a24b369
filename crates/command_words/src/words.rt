//! What the words of a command say.
ghost use Rattle.std.specs.Prelude.{◌≡◌, IfOk, IsSome, OnErr};
ghost use Rattle.command_words.specs.Files.{files_in};
ghost use Rattle.command_words.specs.Texts.{texts};
ghost use Rattle.command_words.specs.Words.{command_given, command_named, command_of, with_both, with_model, without_files};

use crate::files::{FileWords, is_name};
use crate::generate::read_recipe;
use crate::given::Given;
use crate::options::Options;
use generated_script::Recipe;
use item_core::Target;
use lists::Memory;
use name_index::Name;
use script_tokens::is;
use std::alloc::Global;

/// What the program is to do.
#[derive(Debug, Drop)]
pub enum Invocation {
    /// Answers each line of the input.
    Run(Setup),
    /// Answers the one line `plan`.
    Plan(Setup),
    /// Loads the model of a file, attaches a solver and optimises.
    Solve { setup: Setup, model: Name },
    /// Says whether the certificate of a file proves what it says of a file's model.
    Check { model: Name, certificate: Name },
    /// Answers the lines of a generated script, and sums the answers up.
    Generate(Recipe),
}

/// What is set up before the session's first line.
#[derive(Clone, Copy, Debug, PartialEq, Eq)]
pub struct Setup {
    pub target: Target,
    /// How many pivots a solve may take where its line names no number.
    pub pivots: u32,
}

/// What the words after the program's name say; `None` exactly where they are of no command.
/// Memory runs out only where they are of one.
#[tactic(auto, unfolding(crate::specs::Words::command_of))]
pub fn read_words(alloc: Global, words: &[String]) -> Result<Option<Invocation>, Memory>
    ensures said { IfOk result (λ said. said ≡ command_of (texts words.now)) }
    ensures of_one { OnErr result (IsSome (command_of (texts words.now))) }
{
    match words {
        [] => Ok(None),
        [name, words @ ..] => {
            if is(name.as_bytes(), "gen") {
                return Ok(read_recipe(words).map(Invocation::Generate));
            }
            read_given(alloc, name.as_bytes(), words)
        }
    }
}

// What the command of this name is to do, by the words that follow it.
#[tactic(auto, unfolding(crate::specs::Words::command_given))]
fn read_given(alloc: Global, name: &[u8], words: &[String]) -> Result<Option<Invocation>, Memory>
    ensures said { IfOk result (λ said. said ≡ command_given name.now (texts words.now)) }
    ensures of_one { OnErr result (IsSome (command_given name.now (texts words.now))) }
{
    match Given::read(words) {
        None => Ok(None),
        Some(given) => command_for(alloc, &given, name),
    }
}

// What the command of this name is to do, with these options and files.
#[tactic(auto, unfolding(crate::specs::Words::command_named))]
fn command_for(alloc: Global, given: &Given<'_>, name: &[u8]) -> Result<Option<Invocation>, Memory>
    ensures said { IfOk result (λ said.
        said ≡ command_named name.now given.now.options (files_in given.now.files)) }
    ensures of_one { OnErr result
        (IsSome (command_named name.now given.now.options (files_in given.now.files))) }
{
    match given.files {
        FileWords::None => Ok(without_files(given.options, name)),
        FileWords::One(model) => with_model(alloc, given.options, name, model),
        FileWords::Two(model, certificate) => {
            with_both(alloc, given.options, name, model, certificate)
        }
    }
}

// `run` and `plan`.
fn without_files(options: Options, name: &[u8]) -> Option<Invocation>
    ensures { result ≡ without_files options name.now }
{
    if is(name, "run") {
        Some(Invocation::Run(options.setup()))
    } else if is(name, "plan") && options.pivots.is_none() {
        Some(Invocation::Plan(options.setup()))
    } else {
        None
    }
}

// `solve`.
fn with_model(
    alloc: Global,
    options: Options,
    name: &[u8],
    model: &str,
) -> Result<Option<Invocation>, Memory>
    ensures said { IfOk result (λ said.
        said ≡ with_model options name.now model.now) }
    ensures of_one { OnErr result
        (IsSome (with_model options name.now model.now)) }
{
    if !is(name, "solve") || !is_name(model) {
        return Ok(None);
    }
    Ok(Some(Invocation::Solve {
        setup: options.setup(),
        model: file_name(alloc, model)?,
    }))
}

// `check`.
fn with_both(
    alloc: Global,
    options: Options,
    name: &[u8],
    model: &str,
    certificate: &str,
) -> Result<Option<Invocation>, Memory>
    ensures said { IfOk result (λ said. said ≡ with_both options name.now
        model.now certificate.now) }
    ensures of_one { OnErr result (IsSome (with_both options name.now
        model.now certificate.now)) }
{
    if !is(name, "check") || options.target.is_some() || options.pivots.is_some() {
        return Ok(None);
    }
    if !is_name(model) || !is_name(certificate) {
        return Ok(None);
    }
    Ok(Some(Invocation::Check {
        model: file_name(alloc, model)?,
        certificate: file_name(alloc, certificate)?,
    }))
}

// The name of a file by its word.
fn file_name(alloc: Global, word: &str) -> Result<Name, Memory>
    ensures { IfOk result (λ name. name ≡ word.now) }
{
    match Name::new(alloc, word) {
        Ok(name) => Ok(name),
        Err(_) => Err(Memory),
    }
}
