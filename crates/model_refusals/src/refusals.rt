//! Which refusal an edit meets.
ghost use Rattle.model_refusals.specs.Accepted.{IsEditAnswer};

use crate::{AcceptedEdit, group_edits, objective_edits, row_edits};
use model_catalog::Catalog;
use user_model::{Edit, Refusal};

/// The edit with what its names name, or the first refusal that it meets, in the order of
/// `Refusal`: names that it needs, new names, shapes, dimensions, outputs, intervals, lower bounds,
/// upper bounds, types of sets, variables of norm cones, and last the limits.
///
/// It takes no memory, and the edit is not made for it. Each name of the edit is looked up once.
/// `AddGroup` compares its names where their hashes agree, `AddRow` and `Objective` count the terms
/// that they bring, `Coef` and `ObjCoef` search a function for the variable, and `VecCoef` also
/// reads how many terms each component of its row has. `DeleteVariable` reads all rows, for norm
/// cones; no other edit reads a row that it doesn't name.
#[tactic(auto, unfolding(user_model::specs::Refusals::first_refusal))]
pub fn accepted<'a>(model: &'a Catalog, edit: &'a Edit) -> Result<AcceptedEdit<'a>, Refusal>
    ensures { IsEditAnswer model.now.model edit.now result }
{
    // read first, since the limits rest on what `rows` ensures of the model
    let _ = model.rows();
    match edit {
        Edit::AddGroup { names, set } => group_edits::add(model, names, set),
        Edit::AddRow { name, func, set } => row_edits::add(model, name, func, set),
        Edit::Objective { sense, func } => objective_edits::set(model, *sense, func),
        Edit::Feasibility => Ok(AcceptedEdit::Feasibility),
        Edit::Coef { row, var, value } => row_edits::coef(model, row, var, value),
        Edit::VecCoef {
            row,
            output,
            var,
            value,
        } => row_edits::vec_coef(model, row, *output, var, value),
        Edit::ObjCoef { var, value } => objective_edits::coef(model, var, value),
        Edit::Constant { row, value } => row_edits::constant(model, row, value),
        Edit::VecConstant { row, output, value } => {
            row_edits::vec_constant(model, row, *output, value)
        }
        Edit::ObjConstant { value } => objective_edits::constant(model, value),
        Edit::RowSet { row, set } => row_edits::set(model, row, set),
        Edit::Reset { var, set } => group_edits::reset(model, var, set),
        Edit::FreeGroup { var } => group_edits::free(model, var),
        Edit::DeleteVariable { var } => group_edits::delete_variable(model, var),
        Edit::DeleteRow { row } => row_edits::delete(model, row),
        Edit::RenameVariable { old, new } => group_edits::rename_variable(model, old, new),
        Edit::RenameRow { old, new } => row_edits::rename(model, old, new),
    }
}
