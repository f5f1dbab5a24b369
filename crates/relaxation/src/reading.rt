//! What a certificate of the relaxation says of the model.
ghost use Rattle.std.specs.Prelude.{◌≡◌, ◌-◌, ◌≤◌, ◌++◌, IfOk, OnOk, length};
ghost use Rattle.certificates.specs.Good.{Good};
ghost use Rattle.user_model.specs.Model.{ModelValue};
ghost use Rattle.relaxed_model.specs.Relaxed.{at_hard_rows, slack_count, slack_violation, slack_violations};
ghost use Rattle.relaxation.specs.Answers.{IsRelaxedFrom, ReadsRelaxation, ShowsRelaxation, hopeless_by, least_by, own_duals, own_violations};

use crate::rows::{is_soft, slack_count, slacks_of};
use certificates::{Certificate, DualRows};
use lists::{Memory, Sequence};
use model_store::UserModel;
use ratio_core::{Ratio, Ratios};
use std::alloc::Global;
use user_model::{Row, Rows};

/// What the relaxation of a model says of the model. Its scalar affine rows are soft, and all others
/// are hard.
#[derive(Debug, Drop)]
pub enum Relaxation {
    /// A point that meets the hard rows, its violation of each soft row, in their order, and the sum
    /// of these. No point that meets the hard rows has a smaller sum.
    Least {
        total: Ratio,
        x: Ratios,
        violations: Ratios,
    },
    /// No point meets the hard rows: their duals and those of the variables show it, as a certificate
    /// with this gap.
    Hopeless {
        gap: Ratio,
        rows: DualRows,
        vars: Ratios,
    },
}

/// What a certificate of the relaxation of a model says of the model: never that it is unbounded.
pub fn relaxation_of(
    alloc: Global,
    relaxed: &UserModel,
    certificate: Certificate,
) -> Result<Relaxation, Memory>
    requires from { (model : ModelValue) × IsRelaxedFrom model relaxed.now.model }
    requires good { Good relaxed.now.model certificate }
    ensures reads { (model : ModelValue) → IsRelaxedFrom model relaxed.now.model
        → IfOk result (ReadsRelaxation model certificate) }
    ensures shows { (model : ModelValue) → IsRelaxedFrom model relaxed.now.model
        → IfOk result (ShowsRelaxation model) }
{
    let rows = relaxed.rows();
    let count = slack_count(rows);
    match certificate {
        Certificate::Optimal { value, x, .. } => least(alloc, rows, count, value, x),
        Certificate::Infeasible {
            gap,
            rows: duals,
            vars,
        } => hopeless(alloc, rows, count, gap, duals, vars),
        Certificate::Unbounded { .. } => unreachable!(),
    }
}

// The numbers of the model's variables, and the violation of each soft row.
fn least(
    alloc: Global,
    rows: &Rows,
    count: usize,
    value: Ratio,
    numbers: Ratios,
) -> Result<Relaxation, Memory>
    requires count { count ≡ slack_count rows.now.items }
    requires size { count ≤ length numbers }
    ensures { IfOk result (λ answer. answer
        ≡ least_by rows.now.items (length numbers - count) value numbers) }
{
    let mut own = numbers.into_vec();
    let size = own.len() - count;
    let violations = violations(alloc, rows, &own[size..])?;
    own.truncate(size);
    Ok(Relaxation::Least {
        total: value,
        x: Sequence::from_vec(own),
        violations,
    })
}

// The violation of each soft row, where these are the numbers of all slacks.
fn violations(alloc: Global, rows: &Rows, slacks: &[Ratio]) -> Result<Ratios, Memory>
    requires { slack_count rows.now.items ≤ length slacks.now }
    ensures { IfOk result (λ found. found ≡ slack_violations rows.now.items slacks.now) }
{
    let mut violations = Vec::new(alloc);
    let mut left = slacks;
    for row in rows.iter() {
        let (own, others) = left.split_at(slacks_of(row).count());
        push_violation(&mut violations, row, own)?;
        left = others;
    }
    Ok(Sequence::from_vec(violations))
}

// Appends the violation of a row, where it is soft.
fn push_violation(violations: &mut Vec<Ratio>, row: &Row, own: &[Ratio]) -> Result<(), Memory>
    ensures { OnOk result (violations.new.items
        ≡ violations.old.items ++ own_violations row.now own.now) }
{
    if is_soft(row) {
        violations.push(slack_violation(own))?;
    }
    Ok(())
}

// The violation of a row whose slacks these are. Of two, one is 0.
fn slack_violation(slacks: &[Ratio]) -> Ratio
    ensures { result ≡ slack_violation slacks.now }
{
    match slacks {
        [] => Ratio::zero(),
        [lone] => *lone,
        [first, second, ..] => { if first.is_zero() { *second } else { *first } }
    }
}

// The certificate with the duals of the hard rows and of the model's variables alone.
fn hopeless(
    alloc: Global,
    rows: &Rows,
    count: usize,
    gap: Ratio,
    duals: DualRows,
    vars: Ratios,
) -> Result<Relaxation, Memory>
    requires { count ≤ length vars }
    ensures { IfOk result (λ answer. answer
        ≡ hopeless_by rows.now.items (length vars - count) gap duals vars) }
{
    let kept = hard_duals(alloc, rows, duals)?;
    let mut own = vars.into_vec();
    own.truncate(own.len() - count);
    Ok(Relaxation::Hopeless {
        gap,
        rows: kept,
        vars: Sequence::from_vec(own),
    })
}

// The duals of the hard rows.
fn hard_duals(alloc: Global, rows: &Rows, duals: DualRows) -> Result<DualRows, Memory>
    ensures { IfOk result (λ kept. kept ≡ at_hard_rows rows.now.items duals) }
{
    let mut kept = Vec::new(alloc);
    let mut left = rows.iter();
    for own in duals.into_vec() {
        let Some(row) = left.next() else {
            return Ok(Sequence::from_vec(kept));
        };
        push_hard(&mut kept, row, own)?;
    }
    Ok(Sequence::from_vec(kept))
}

// Appends the duals of a row, where it is hard.
fn push_hard(kept: &mut Vec<Ratios>, row: &Row, own: Ratios) -> Result<(), Memory>
    ensures { OnOk result (kept.new.items ≡ kept.old.items ++ own_duals row.now own) }
{
    if !is_soft(row) {
        kept.push(own)?;
    }
    Ok(())
}
