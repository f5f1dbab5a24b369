//! The texts of the command's answers.
ghost use Rattle.std.specs.Prelude.{◌≡◌, ◌++◌, IfOk, OnOk};
ghost use Rattle.cert_text.specs.Text.{row_lines, text_of_lines};
ghost use Rattle.dual_command.specs.Text.{duals_text, file_line};

use dualization::Carried;
use file_command::{push_numbers, push_row_duals};
use lists::Memory;
use model_store::UserModel;
use ratio_core::{Ratio, Ratios};
use report_core::{Answer, Draft};
use std::alloc::Global;
use user_model::Rows;

/// An answer that is no refusal.
pub(crate) fn printed(alloc: Global, text: &str) -> Result<Answer, Memory>
    ensures { IfOk result (λ answer. answer ≡ Answer.Printed text.now) }
{
    let mut draft = Draft::new(alloc);
    draft.push(text)?;
    Ok(Answer::Printed(draft.into_text()))
}

/// The text of a model as a file, in a line.
pub(crate) fn file_of(alloc: Global, model: &UserModel) -> Result<Answer, Memory>
    ensures { IfOk result (λ answer. answer ≡ Answer.Printed (file_line model.now.model)) }
{
    let text = mof_write::write(alloc, model)?;
    let mut draft = Draft::new(alloc);
    draft.push_bytes(text.as_slice())?;
    draft.push("\n")?;
    Ok(Answer::Printed(draft.into_text()))
}

/// `dual V`, and a line for the duals of each row and for that of each variable.
#[tactic(auto, using(crate::proofs::Lines::best_text))]
pub(crate) fn best_duals(
    alloc: Global,
    model: &UserModel,
    value: &Ratio,
    carried: &Carried,
) -> Result<Answer, Memory>
    ensures { IfOk result (λ answer. answer
        ≡ Answer.Printed (duals_text model.now.model value.now carried.now.rows carried.now.vars)) }
{
    let mut draft = Draft::new(alloc);
    draft.push("dual ")?;
    draft.push_ratio(value)?;
    draft.push("\n")?;
    push_rows(&mut draft, model.rows(), carried.rows.as_slice())?;
    push_numbers(
        &mut draft,
        "dual var ",
        model.groups(),
        carried.vars.as_slice(),
    )?;
    Ok(Answer::Printed(draft.into_text()))
}

// A line for each row.
fn push_rows(draft: &mut Draft, rows: &Rows, duals: &[Ratios]) -> Result<(), Memory>
    ensures { OnOk result (draft.new
        ≡ draft.old ++ text_of_lines (row_lines rows.now.items duals.now)) }
{
    for (i, row) in rows.iter().enumerate() {
        if i >= duals.len() {
            return Ok(());
        }
        push_row_duals(draft, row, duals[i].as_slice())?;
    }
    Ok(())
}
