//! The texts of the command's answers.
ghost use Rattle.std.specs.Prelude.{◌≡◌, ◌++◌, IfOk, OnOk};
ghost use Rattle.cert_text.specs.Text.{ended, row_lines, text_of_lines};
ghost use Rattle.relax_command.specs.Text.{relaxation_text, violation_line, violation_lines};
ghost use Rattle.relaxed_model.specs.Relaxed.{hard_rows, soft_rows};

use file_command::{push_numbers, push_row_duals};
use lists::Memory;
use model_store::UserModel;
use name_index::Text;
use ratio_core::{Ratio, Ratios};
use relaxation::{Relaxation, is_soft};
use report_core::Draft;
use std::alloc::Global;
use user_model::{Row, Rows};

/// The text of what the relaxation of a model says of it, by the rows and variables of the
/// relaxation.
pub(crate) fn relaxation_text(
    alloc: Global,
    relaxed: &UserModel,
    relaxation: &Relaxation,
) -> Result<Text, Memory>
    ensures { IfOk result (λ text. text ≡ relaxation_text relaxed.now.model relaxation.now) }
{
    let mut draft = Draft::new(alloc);
    push_relaxation(&mut draft, relaxed, relaxation)?;
    Ok(draft.into_text())
}

fn push_relaxation(
    draft: &mut Draft,
    relaxed: &UserModel,
    relaxation: &Relaxation,
) -> Result<(), Memory>
    ensures { OnOk result (draft.new ≡ draft.old
        ++ relaxation_text relaxed.now.model relaxation.now) }
{
    match relaxation {
        Relaxation::Least {
            total,
            x,
            violations,
        } => { push_least(draft, relaxed, total, x.as_slice(), violations.as_slice()) }
        Relaxation::Hopeless { gap, rows, vars } => {
            push_hopeless(draft, relaxed, gap, rows.as_slice(), vars.as_slice())
        }
    }
}

// `relaxed V`, a line for each variable and one for each soft row.
fn push_least(
    draft: &mut Draft,
    relaxed: &UserModel,
    total: &Ratio,
    x: &[Ratio],
    violations: &[Ratio],
) -> Result<(), Memory>
    ensures { OnOk result (draft.new ≡ draft.old ++ relaxation_text relaxed.now.model
        (Relaxation.Least total.now x.now violations.now)) }
{
    draft.push("relaxed ")?;
    draft.push_ratio(total)?;
    draft.push("\n")?;
    push_numbers(draft, "primal ", relaxed.groups(), x)?;
    push_violations(draft, relaxed.rows(), violations)
}

// A line for each soft row.
fn push_violations(draft: &mut Draft, rows: &Rows, violations: &[Ratio]) -> Result<(), Memory>
    ensures { OnOk result (draft.new ≡ draft.old
        ++ text_of_lines (violation_lines (soft_rows rows.now.items) violations.now)) }
{
    let mut left = violations;
    for row in rows.iter() {
        if is_soft(row) {
            let Some((number, others)) = left.split_first() else {
                return Ok(());
            };
            push_violation(draft, row, number)?;
            left = others;
        }
    }
    Ok(())
}

fn push_violation(draft: &mut Draft, row: &Row, violation: &Ratio) -> Result<(), Memory>
    ensures { OnOk result (draft.new ≡ draft.old
        ++ ended (violation_line (row.now, violation.now))) }
{
    draft.push("over ")?;
    draft.push_name(&row.name)?;
    draft.push(" ")?;
    draft.push_ratio(violation)?;
    draft.push("\n")
}

// The lines of a certificate of the hard rows.
fn push_hopeless(
    draft: &mut Draft,
    relaxed: &UserModel,
    gap: &Ratio,
    duals: &[Ratios],
    vars: &[Ratio],
) -> Result<(), Memory>
    ensures { OnOk result (draft.new ≡ draft.old ++ relaxation_text relaxed.now.model
        (Relaxation.Hopeless gap.now duals.now vars.now)) }
{
    draft.push("infeasible ")?;
    draft.push_ratio(gap)?;
    draft.push("\n")?;
    push_duals(draft, relaxed.rows(), duals)?;
    push_numbers(draft, "dual var ", relaxed.groups(), vars)
}

// A line for each hard row.
fn push_duals(draft: &mut Draft, rows: &Rows, duals: &[Ratios]) -> Result<(), Memory>
    ensures { OnOk result (draft.new ≡ draft.old
        ++ text_of_lines (row_lines (hard_rows rows.now.items) duals.now)) }
{
    let mut left = duals;
    for row in rows.iter() {
        if !is_soft(row) {
            let Some((own, others)) = left.split_first() else {
                return Ok(());
            };
            push_row_duals(draft, row, own.as_slice())?;
            left = others;
        }
    }
    Ok(())
}
