//! What a line `write` prints of a session's model, a line `load` makes again: in a session in
//! which nothing was made yet and no group is open it leaves a model that differs in nothing but
//! numbers.
#![tactic(auto)]

ghost use Rattle.std.specs.Prelude.{◌≡◌, IfOk};
ghost use Rattle.edit_engine.specs.Script.{file_line};
ghost use Rattle.loaded_again_laws.specs.LoadedAgain.{LoadsAgain};

use lists::Memory;
use model_store::UserModel;
use name_index::Text;
use std::alloc::Global;

/// The line that `write` prints of a model.
pub fn written_line(alloc: Global, model: &UserModel) -> Result<Text, Memory>
    ensures line { IfOk result (λ text. text ≡ file_line model.now.model) }

    // A line that loads it makes the model again.
    ensures loaded { IfOk result (λ text. LoadsAgain model.now.model text) }
{
    let mut text = mof_round_trip_laws::write(alloc, model)?.into_vec();
    text.push(b'\n')?;
    Ok(Text::from_vec(text))
}
