//! The arguments of the command.
ghost use Rattle.std.specs.Prelude.{◌≡◌, IfOk, IsSome, OnErr};
ghost use Rattle.command_words.specs.Texts.{texts};
ghost use Rattle.setmap_command.specs.Words.{command_in};

use file_command::{file_name, is_file_word};
use lists::Memory;
use name_index::Name;
use std::alloc::Global;

/// The files of the model and of the maps.
#[derive(Debug, Drop)]
pub(crate) struct MappedCommand {
    pub model: Name,
    pub maps: Name,
}

/// The command of arguments, `MODEL MAPS`; none where they are others. Memory runs out only where
/// they are of one.
pub(crate) fn command_of(alloc: Global, words: &[String]) -> Result<Option<MappedCommand>, Memory>
    ensures said { IfOk result (λ command. command ≡ command_in (texts words.now)) }
    ensures of_one { OnErr result (IsSome (command_in (texts words.now))) }
{
    match words {
        [model, maps] if is_file_word(model) && is_file_word(maps) => Ok(Some(MappedCommand {
            model: file_name(alloc, model)?,
            maps: file_name(alloc, maps)?,
        })),
        _ => Ok(None),
    }
}
