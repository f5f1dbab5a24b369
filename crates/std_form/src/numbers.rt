//! Numbers at the columns, pushed one after the other.
ghost use Rattle.std.specs.Prelude.{◌≡◌, ◌++◌, OnOk, length, map};
ghost use Rattle.aff_core.specs.Function.{coefficient};
ghost use Rattle.equality_form.specs.Columns.{parts_among, signs};
ghost use Rattle.equality_form.specs.EqualityForm.{numbers_at};
ghost use Rattle.equality_form.specs.Equations.{flipped};
ghost use Rattle.std_form.specs.Borrowed.{function_in};

use crate::equation::Function;
use crate::leaves::Variable;
use lists::Memory;
use ratio_core::Ratio;
use solver_store::LeafVar;

/// The equation that a slack is of, and whether it is taken off.
pub(crate) type Slack = (usize, bool);

// The number, negated where it is to be.
pub(crate) fn flipped(negated: bool, number: Ratio) -> Ratio
    ensures { result ≡ flipped negated number }
{
    if negated { number.neg() } else { number }
}

// How many columns a variable has.
pub(crate) fn width(var: LeafVar) -> u64
    ensures { result ≡ length (signs var) }
{
    match var {
        LeafVar::Free => 2,
        LeafVar::Nonneg => 1,
    }
}

// A function's numbers at the variables' columns.
pub(crate) fn push_numbers(
    cells: &mut Vec<Ratio>,
    variables: &[Variable],
    function: &Function,
    negated: bool,
) -> Result<(), Memory>
    ensures { OnOk result (cells.new.items ≡ cells.old.items ++ map (flipped negated)
        (numbers_at (parts_among variables.now) (coefficient (function_in function.now)))) }
{
    for (i, var) in variables {
        let number = flipped(negated, function.coefficient(*i));
        push_number(cells, *var, number)?;
    }
    Ok(())
}

// A number at the columns of a variable: a free one has two.
fn push_number(cells: &mut Vec<Ratio>, var: LeafVar, number: Ratio) -> Result<(), Memory>
    ensures { OnOk result (cells.new.items
        ≡ cells.old.items ++ map (λ negated. flipped negated number) (signs var)) }
{
    cells.push(number)?;
    match var {
        LeafVar::Free => cells.push(number.neg())?,
        LeafVar::Nonneg => {}
    }
    Ok(())
}
