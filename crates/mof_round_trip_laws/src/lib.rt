//! The text of a model that makes the model again: the edits that are read of it, made one after
//! another on an empty model, are accepted and lead to a model that differs in nothing but numbers.
#![tactic(auto)]

ghost use Rattle.std.specs.Prelude.{◌≡◌, IfOk};
ghost use Rattle.mof_laws.specs.SameTokens.{as_line};
ghost use Rattle.mof_write.specs.Written.{written};
ghost use Rattle.mof_round_trip_laws.specs.RoundTrip.{MakesAgain};

use lists::Memory;
use model_store::UserModel;
use name_index::Text;
use std::alloc::Global;

/// The compact text of a model as a MathOptFormat file, version 1.0. The edits that `mof_read`
/// reads of it make the model again, with its groups, variables and rows numbered from 0 on.
#[tactic(auto, using(crate::specs::RoundTrip::makes_again, crate::specs::RoundTrip::line_again))]
pub fn write(alloc: Global, model: &UserModel) -> Result<Text, Memory>
    ensures text { IfOk result (λ text. text ≡ written model.now.model) }
    ensures makes_again { IfOk result (λ text. MakesAgain model.now.model text) }

    // And so does the text as a line, with a newline behind it.
    ensures line { IfOk result (λ text. MakesAgain model.now.model (as_line text)) }
{
    // for the invariant of kept models
    let _valid = model.objective();
    mof_write::write(alloc, model)
}
