//! What an attached solver holds.
ghost use Rattle.std.specs.Prelude.{◌≡◌, ◌++◌, IfOk, OnOk};
ghost use Rattle.aff_core.specs.Address.{Address};
ghost use Rattle.leaf_model.specs.ReadThrough.{read_through};
ghost use Rattle.std_form.specs.Readable.{IsReadable};
ghost use Rattle.bridged_report.specs.Indexed.{text_in};
ghost use Rattle.bridged_report.specs.Lines.{bridged_text};

use crate::entries::{rows, variables};
use crate::lines::{push_leaves, push_objective};
use address_map::AddressMap;
use model_store::UserModel;
use name_index::Text;
use ratio_core::Memory;
use report_core::Draft;
use solver_store::SolverModel;
use std::alloc::Global;

/// A line for each variable and row of the solver's model in the order of their addresses, and the
/// objective's last, with the names of the user's model. An address whose root doesn't stand in it
/// is written without a name.
#[tactic(auto, using(crate::proofs::Reading::text_read))]
pub fn bridged(
    alloc: Global,
    solver: &SolverModel,
    map: &AddressMap,
    model: &UserModel,
) -> Result<Text, Memory>
    ensures by_index { IfOk result (λ text.
        text ≡ text_in model.now.model map.now solver.now.leaves) }
    ensures read { (at : Address) → IsReadable map.now solver.now.leaves → IfOk result (λ text.
        text ≡ bridged_text model.now.model (read_through map.now solver.now.leaves at)) }
{
    bridged_by_index(alloc, solver, map, model)
}

fn bridged_by_index(
    alloc: Global,
    solver: &SolverModel,
    map: &AddressMap,
    model: &UserModel,
) -> Result<Text, Memory>
    ensures { IfOk result (λ text. text ≡ text_in model.now.model map.now solver.now.leaves) }
{
    let mut draft = Draft::new(alloc);
    push_bridged(&mut draft, alloc, solver, map, model)?;
    Ok(draft.into_text())
}

#[tactic(auto, unfolding(crate::specs::Indexed::text_in))]
fn push_bridged(
    draft: &mut Draft,
    alloc: Global,
    solver: &SolverModel,
    map: &AddressMap,
    model: &UserModel,
) -> Result<(), Memory>
    ensures { OnOk result (draft.new
        ≡ draft.old ++ text_in model.now.model map.now solver.now.leaves) }
{
    let variables = variables(alloc, map)?;
    let rows = rows(alloc, map)?;
    push_leaves(draft, alloc, solver, map, model, &variables, &rows)?;
    push_objective(draft, alloc, map, model, solver.objective())
}
