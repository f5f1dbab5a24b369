//! The equality form of variables and rows.
ghost use Rattle.std.specs.Prelude.{flat_map, map};
ghost use Rattle.std.specs.Option.{option_copied};
ghost use Rattle.std_form.specs.Borrowed.{row_in};
ghost use Rattle.std_form.specs.Indexed.{cost_in, equations_in};
ghost use Rattle.std_form.specs.Told.{TellsBuilt};

use crate::cells::{cell_count, costs, slacks};
use crate::fault::FormFault;
use crate::leaves::{Row, Variable, equations};
use crate::rights::sides_of;
use crate::terms::matrix;
use lists::Sequence;
use simplex_core::StdForm;
use solver_store::LeafObjective;
use std::alloc::Global;

/// The most cells that a board of the form may have: some 150 MB of whole numbers.
pub const CELL_LIMIT: u64 = 16_777_216;

/// A nonnegative variable has one column, a free one a plus and a minus column; each component of a
/// row is an equation, and one that is no equality has a slack.
pub(crate) fn form_by_index(
    alloc: Global,
    variables: &[Variable],
    rows: &[Row],
    objective: Option<&LeafObjective>,
) -> Result<StdForm, FormFault>
    ensures { TellsBuilt variables.now (flat_map (λ row. equations_in row.1) (map row_in rows.now))
        (cost_in (option_copied objective.entry)) result }
{
    let equations = equations(alloc, rows)?;
    let slacks = slacks(alloc, &equations)?;
    let cells = cell_count(variables, slacks.len(), equations.len());
    if cells > CELL_LIMIT {
        return Err(FormFault::TooLarge { cells });
    }
    let sides = sides_of(alloc, &equations)?;
    let costs = costs(alloc, variables, &slacks, objective)?;
    let matrix = matrix(alloc, variables, &equations, &sides.flips)?;
    Ok(StdForm {
        m: equations.len(),
        c: costs.len(),
        matrix,
        right: Sequence::from_vec(sides.right),
        costs: Sequence::from_vec(costs),
        flips: Sequence::from_vec(sides.flips),
    })
}
