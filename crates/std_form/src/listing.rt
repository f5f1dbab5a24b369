//! A solver's leaves, listed once for their form and for the answers that are read back.
ghost use Rattle.std.specs.Prelude.{◌≡◌, IfOk};
ghost use Rattle.aff_core.specs.Address.{Address};
ghost use Rattle.equality_form.specs.Right.{IsRight};
ghost use Rattle.leaf_model.specs.ReadThrough.{read_through};
ghost use Rattle.simplex_core.specs.Answer.{IsRightAnswer};
ghost use Rattle.simplex_core.specs.StdForm.{IsWellShaped, equality_form};
ghost use Rattle.std_form.specs.Answers.{answer_of, read_by_index};
ghost use Rattle.std_form.specs.Indexed.{form_of};
ghost use Rattle.std_form.specs.ListedLeaves.{listed};
ghost use Rattle.std_form.specs.Readable.{IsReadable};
ghost use Rattle.std_form.specs.Told.{TellsAnswer, TellsForm};

use crate::fault::FormFault;
use crate::form::form_by_index;
use crate::leaves::{Row, Variable, rows, variables};
use crate::reading::read_by_index;
use address_map::AddressMap;
use lists::Memory;
use ratio_core::NumberFault;
use simplex_core::{SolverAnswer, StdForm};
use solver_store::{LeafAnswer, SolverModel};
use std::alloc::Global;
use std::marker::Model;

/// A solver's model, its map of addresses, and its variables and rows in their order.
///
/// Contracts see the model and the map.
#[derive(Drop)]
pub struct Listing<'a> {
    solver: &'a SolverModel,
    places: &'a AddressMap,
    variables: Vec<Variable>,
    rows: Vec<Row<'a>>,
}

impl<'a> Model for Listing<'a> {
    ghost use Rattle.std.specs.Prelude.{◌≡◌, map};
    ghost use Rattle.std_form.specs.Borrowed.{row_in};
    ghost use Rattle.std_form.specs.Indexed.{rows_of, variables_of};
    ghost use Rattle.std_form.specs.ListedLeaves.{ListedLeaves, listed, listed_code};

    ghost Value = { ListedLeaves };

    ghost coded = { listed_code };

    ghost view = { λ a. listed a.places.now a.solver.now.leaves };

    ghost invariant = { λ a. (a.variables.items ≡ variables_of a.places.now a.solver.now.leaves)
        × (map row_in a.rows.items ≡ rows_of a.places.now a.solver.now.leaves) };
}

impl<'a> Listing<'a> {
    /// Lists the variables and the rows.
    pub fn of(
        alloc: Global,
        solver: &'a SolverModel,
        map: &'a AddressMap,
    ) -> Result<Listing<'a>, Memory>
        ensures { IfOk result (λ listing. listing ≡ listed map.now solver.now.leaves) }
    {
        let variables = variables(alloc, solver, map)?;
        let rows = rows(alloc, solver, map)?;
        Ok(Listing {
            solver,
            places: map,
            variables,
            rows,
        })
    }

    /// The equality form of the solver's model, as `build` gives it.
    pub fn build(&self, alloc: Global) -> Result<StdForm, FormFault>
        ensures told { (at : Address) → IsReadable self.now.map self.now.leaves
            → TellsForm (read_through self.now.map self.now.leaves at) result }
        ensures built { IfOk result (λ form. form ≡ form_of self.now.map self.now.leaves) }
        ensures well_shaped { IfOk result IsWellShaped }
    {
        // what this ensures of the map
        let _one_to_one = self.places.var_at(0);
        form_by_index(alloc, &self.variables, &self.rows, self.solver.objective())
    }

    /// The answer by the solver's indices, as `read_back` gives it.
    pub fn read_back(
        &self,
        alloc: Global,
        form: &StdForm,
        a: &SolverAnswer,
    ) -> Result<LeafAnswer, NumberFault>
        requires { form.now ≡ form_of self.now.map self.now.leaves }
        ensures by_index { IfOk result (λ answer.
            answer ≡ read_by_index self.now.map self.now.leaves form.now.flips a.now) }
        ensures told { (at : Address) → TellsAnswer self.now.map
            (read_through self.now.map self.now.leaves at) a.now result }
        ensures right { (at : Address) → IsReadable self.now.map self.now.leaves
            → IsRightAnswer (equality_form form.now) a.now → IfOk result (λ answer.
            IsRight (read_through self.now.map self.now.leaves at)
            (answer_of self.now.map answer)) }
    {
        // what these ensure of the map
        let _variables = self.places.var_at(0);
        let _rows = self.places.row_at(0);
        read_by_index(alloc, &self.variables, &self.rows, form, a)
    }
}

/// The equality form of the solver's model, in the order of the addresses that the map gives.
///
/// A nonnegative variable has one column, a free one a plus and a minus column; each component of a
/// row is an equation, and one that is no equality has a slack. `TooLarge` with the number of cells
/// exactly where they are more than `CELL_LIMIT`, `Overflow` exactly where they aren't and a right
/// side without its function's constant passes 128 bits. Each cell is written once.
pub fn build(alloc: Global, solver: &SolverModel, map: &AddressMap) -> Result<StdForm, FormFault>
    ensures told { (at : Address) → IsReadable map.now solver.now.leaves
        → TellsForm (read_through map.now solver.now.leaves at) result }
    ensures built { IfOk result (λ form. form ≡ form_of map.now solver.now.leaves) }
    ensures well_shaped { IfOk result IsWellShaped }
{
    let listing = Listing::of(alloc, solver, map)?;
    listing.build(alloc)
}

/// The answer by the solver's indices: a number for each variable, and a dual for each component
/// of each row. `Overflow` exactly where the difference of a free variable's two columns passes
/// 128 bits.
///
/// The form is the one that was built. An answer that is right for it is then right for the model
/// that is read through the map.
pub fn read_back(
    alloc: Global,
    solver: &SolverModel,
    map: &AddressMap,
    form: &StdForm,
    a: &SolverAnswer,
) -> Result<LeafAnswer, NumberFault>
    requires { form.now ≡ form_of map.now solver.now.leaves }
    ensures by_index { IfOk result (λ answer.
        answer ≡ read_by_index map.now solver.now.leaves form.now.flips a.now) }
    ensures told { (at : Address)
        → TellsAnswer map.now (read_through map.now solver.now.leaves at) a.now result }
    ensures right { (at : Address) → IsReadable map.now solver.now.leaves
        → IsRightAnswer (equality_form form.now) a.now → IfOk result (λ answer.
        IsRight (read_through map.now solver.now.leaves at) (answer_of map.now answer)) }
{
    let listing = Listing::of(alloc, solver, map)?;
    listing.read_back(alloc, form, a)
}
