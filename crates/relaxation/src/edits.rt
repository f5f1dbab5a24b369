//! The edits that lead to the relaxation.
ghost use Rattle.std.specs.Prelude.{◌≡◌, ◌∷◌, ◌++◌, ◌≤◌, [], Ok, IfOk, OnOk, length, map};
ghost use Rattle.std.specs.List.{IsDistinct};
ghost use Rattle.std.specs.Str.{bytes_eq};
ghost use Rattle.limit_laws.specs.Limits.{LimitsAlone};
ghost use Rattle.model_load.specs.Loads.{after_edits};
ghost use Rattle.named_aff.specs.Distinct.{HasDistinctNames};
ghost use Rattle.user_model.specs.Model.{ModelValue};
ghost use Rattle.relaxed_model.specs.Relaxed.{relaxed_model, slack_count};
ghost use Rattle.relaxation.specs.Signs.{signs_of};
ghost use Rattle.relaxation.specs.RelaxedEdits.{edit_of_slack, edit_of_sum, edits_in, edits_of_rows, relaxed_edits, slack_term};

use crate::names::free_names;
use crate::rows::{Slacks, slack_count, slacks_of};
use lists::{Duplicate, Memory, Sequence};
use model_store::UserModel;
use name_index::{Name, Names};
use named_aff::{NamedAff, NamedTerm, NamedTerms};
use ratio_core::Ratio;
use set_core::Set;
use std::alloc::Global;
use user_model::{Edit, Edits, NamedFunc, Rows, Sense};

/// The edits that lead from a model to its relaxation: a variable of at least 0 for each side on which
/// a scalar affine row may be violated, its coefficient, and the least sum of these variables as the
/// objective. None of them is refused for anything but a limit of models.
pub fn relaxed(alloc: Global, model: &UserModel) -> Result<Edits, Memory>
    ensures edits { IfOk result (λ edits. edits ≡ relaxed_edits model.now.model) }
    ensures leads { IfOk result (λ edits. (m : ModelValue)
        → after_edits model.now.model edits ≡ Ok m → m ≡ relaxed_model model.now.model) }
    ensures limits { IfOk result (LimitsAlone model.now.model) }
{
    let rows = model.rows();
    let names = free_names(alloc, model, slack_count(rows))?;
    let edits = edits_with(alloc, rows, names.as_slice())?;
    Ok(Sequence::from_vec(edits))
}

// The edits, where these are the names of the slacks.
fn edits_with(alloc: Global, rows: &Rows, names: &[Name]) -> Result<Vec<Edit>, Memory>
    requires size { length names.now ≡ slack_count rows.now.items }
    requires distinct { IsDistinct bytes_eq names.now }
    ensures { IfOk result (λ edits. edits.items ≡ map edit_of_slack names.now
        ++ (edits_of_rows rows.now.items names.now ++ edit_of_sum names.now ∷ [])) }
{
    let mut edits = Vec::new(alloc);
    push_groups(alloc, &mut edits, names)?;
    push_rows(&mut edits, rows, names)?;
    edits.push(sum_edit(alloc, names)?)?;
    Ok(edits)
}

fn push_groups(alloc: Global, edits: &mut Vec<Edit>, names: &[Name]) -> Result<(), Memory>
    ensures { OnOk result (edits.new.items ≡ edits.old.items ++ map edit_of_slack names.now) }
{
    for name in names {
        let alone = Names::from_vec(vec![in alloc; name.copy()?]?);
        edits.push(Edit::AddGroup {
            names: alone,
            set: Set::Nonnegatives { dimension: 1 },
        })?;
    }
    Ok(())
}

fn push_rows(edits: &mut Vec<Edit>, rows: &Rows, names: &[Name]) -> Result<(), Memory>
    requires { slack_count rows.now.items ≤ length names.now }
    ensures { OnOk result (edits.new.items ≡ edits.old.items
        ++ edits_of_rows rows.now.items names.now) }
{
    let mut left = names;
    for row in rows.iter() {
        let slacks = slacks_of(row);
        let (own, others) = left.split_at(slacks.count());
        push_coefficients(edits, &row.name, own, slacks)?;
        left = others;
    }
    Ok(())
}

// Appends the edits that give the slacks of a row their coefficients.
fn push_coefficients(
    edits: &mut Vec<Edit>,
    row: &Name,
    names: &[Name],
    slacks: Slacks,
) -> Result<(), Memory>
    requires { length names.now ≡ length (signs_of slacks) }
    ensures { OnOk result (edits.new.items ≡ edits.old.items
        ++ edits_in row.now names.now (signs_of slacks)) }
{
    let one = Ratio::one();
    match slacks {
        Slacks::None => Ok(()),
        Slacks::Subtracted => push_coefficient(edits, row, &names[0], one.neg()),
        Slacks::Added => push_coefficient(edits, row, &names[0], one),
        Slacks::Both => {
            push_coefficient(edits, row, &names[0], one)?;
            push_coefficient(edits, row, &names[1], one.neg())
        }
    }
}

fn push_coefficient(
    edits: &mut Vec<Edit>,
    row: &Name,
    var: &Name,
    value: Ratio,
) -> Result<(), Memory>
    ensures { OnOk result (edits.new.items ≡ edits.old.items
        ++ Edit.Coef row.now var.now value ∷ []) }
{
    let row = row.copy()?;
    let var = var.copy()?;
    edits.push(Edit::Coef { row, var, value })?;
    Ok(())
}

// The least sum of variables as the objective.
fn sum_edit(alloc: Global, names: &[Name]) -> Result<Edit, Memory>
    requires { IsDistinct bytes_eq names.now }
    ensures { IfOk result (λ edit. edit ≡ edit_of_sum names.now) }
{
    let terms = sum_terms(alloc, names)?;
    Ok(Edit::Objective {
        sense: Sense::Min,
        func: NamedFunc::Affine(NamedAff {
            terms,
            constant: Ratio::zero(),
        }),
    })
}

fn sum_terms(alloc: Global, names: &[Name]) -> Result<NamedTerms, Memory>
    requires { IsDistinct bytes_eq names.now }
    ensures { IfOk result (λ terms. terms ≡ map slack_term names.now) }
{
    let mut terms = NamedTerms::with_capacity(alloc, names.len())?;
    for name in names {
        push_term(&mut terms, name)?;
    }
    Ok(terms)
}

// Appends a variable once.
fn push_term(terms: &mut NamedTerms, name: &Name) -> Result<(), Memory>
    requires { HasDistinctNames (terms.old ++ slack_term name.now ∷ []) }
    ensures { OnOk result (terms.new ≡ terms.old ++ slack_term name.now ∷ []) }
{
    let variable = name.copy()?;
    let term = NamedTerm {
        variable,
        coefficient: Ratio::one(),
    };
    match terms.push(term) {
        Ok(()) => Ok(()),
        Err(_) => Err(Memory),
    }
}
