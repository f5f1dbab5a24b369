//! The text of what is found.
ghost use Rattle.std.specs.Prelude.{◌≡◌, ◌++◌, IfOk, OnOk, codes, flat_map};
ghost use Rattle.std.specs.List.{zip};
ghost use Rattle.cert_text.specs.Text.{certificate_text};
ghost use Rattle.certificates.specs.Points.{variables_of};
ghost use Rattle.conflict_command.specs.Text.{found_text, named_line, rows_text, without_text};

use cert_text::print;
use file_command::push_numbers;
use lists::Memory;
use model_conflict::{Certificate, Found, Points};
use model_store::UserModel;
use name_index::{Name, Names};
use ratio_core::Ratios;
use report_core::{Answer, Draft};
use std::alloc::Global;

/// What is found of a model, in its names. After a conflict the model has its rows alone.
pub(crate) fn tell_found(alloc: Global, model: &UserModel, found: &Found) -> Result<Answer, Memory>
    ensures { IfOk result (λ answer. answer ≡ Answer.Printed (found_text
        (variables_of model.now.model.groups) model.now.model.rows found.now)) }
{
    let mut draft = Draft::new(alloc);
    push_found(alloc, &mut draft, model, found)?;
    Ok(Answer::Printed(draft.into_text()))
}

fn push_found(
    alloc: Global,
    draft: &mut Draft,
    model: &UserModel,
    found: &Found,
) -> Result<(), Memory>
    ensures { OnOk result (draft.new ≡ draft.old ++ found_text
        (variables_of model.now.model.groups) model.now.model.rows found.now) }
{
    match found {
        Found::Feasible { x } => push_feasible(draft, model, x),
        Found::Conflict {
            rows,
            certificate,
            points,
        } => push_conflict(alloc, draft, model, rows, certificate, points),
    }
}

fn push_feasible(draft: &mut Draft, model: &UserModel, x: &Ratios) -> Result<(), Memory>
    ensures { OnOk result (draft.new ≡ draft.old ++ found_text
        (variables_of model.now.model.groups) model.now.model.rows (Found.Feasible x.now)) }
{
    draft.push("feasible\n")?;
    push_numbers(draft, "primal ", model.groups(), x.as_slice())
}

fn push_conflict(
    alloc: Global,
    draft: &mut Draft,
    model: &UserModel,
    rows: &Names,
    certificate: &Certificate,
    points: &Points,
) -> Result<(), Memory>
    ensures { OnOk result (draft.new ≡ draft.old ++ found_text
        (variables_of model.now.model.groups) model.now.model.rows
        (Found.Conflict rows.now certificate.now points.now)) }
{
    push_rows(draft, rows)?;
    push_certificate(alloc, draft, model, certificate)?;
    push_points(draft, model, rows.as_slice(), points.as_slice())
}

// How many rows there are, and a line for each.
fn push_rows(draft: &mut Draft, rows: &Names) -> Result<(), Memory>
    ensures { OnOk result (draft.new ≡ draft.old ++ rows_text rows.now) }
{
    draft.push("conflict ")?;
    draft.push_number(rows.len() as u128)?;
    draft.push("\n")?;
    push_each(draft, rows.as_slice())
}

fn push_each(draft: &mut Draft, rows: &[Name]) -> Result<(), Memory>
    ensures { OnOk result (draft.new ≡ draft.old ++ flat_map (named_line (codes "row ")) rows.now) }
{
    for name in rows {
        push_named(draft, "row ", name)?;
    }
    Ok(())
}

fn push_named(draft: &mut Draft, word: &str, name: &Name) -> Result<(), Memory>
    ensures { OnOk result (draft.new ≡ draft.old ++ named_line word.now name.now) }
{
    draft.push(word)?;
    draft.push_name(name)?;
    draft.push("\n")
}

fn push_certificate(
    alloc: Global,
    draft: &mut Draft,
    model: &UserModel,
    certificate: &Certificate,
) -> Result<(), Memory>
    ensures { OnOk result (draft.new ≡ draft.old ++ certificate_text
        (variables_of model.now.model.groups) model.now.model.rows certificate.now) }
{
    let text = print(alloc, model.groups(), model.rows(), certificate)?;
    draft.push_bytes(text.as_slice())
}

// For each row the point that meets all others.
fn push_points(
    draft: &mut Draft,
    model: &UserModel,
    rows: &[Name],
    points: &[Ratios],
) -> Result<(), Memory>
    ensures { OnOk result (draft.new ≡ draft.old
        ++ flat_map (without_text (variables_of model.now.model.groups)) (zip rows.now points.now)) }
{
    for (i, name) in rows.iter().enumerate() {
        if i >= points.len() {
            return Ok(());
        }
        push_without(draft, model, name, &points[i])?;
    }
    Ok(())
}

// A row's name, and the point that meets all others.
fn push_without(draft: &mut Draft, model: &UserModel, name: &Name, x: &Ratios) -> Result<(), Memory>
    ensures { OnOk result (draft.new ≡ draft.old
        ++ without_text (variables_of model.now.model.groups) (name.now, x.now)) }
{
    push_named(draft, "without ", name)?;
    push_numbers(draft, "primal ", model.groups(), x.as_slice())
}
