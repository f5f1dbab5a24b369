//! Row operations: each works out a row beside the one that stands.
ghost use Rattle.std.specs.Prelude.{◌≡◌, ◌≢◌, ◌≤◌, length, is_ok, IfOk, OkIff, OnOk};
ghost use Rattle.ratio_core.specs.Rational.{Fits, SumFits, neg_ℚ, zero_ℚ, ◌*ℚ◌, ◌-ℚ◌, ◌/ℚ◌};
ghost use Rattle.simplex_form.specs.Fit.{lowered_fits};
ghost use Rattle.tableau_core.specs.BoardNumbers.{differences_fit, quotients_fit};
ghost use Rattle.tableau_core.specs.Places.{CoversNonzeros};
ghost use Rattle.tableau_core.specs.Row.{AllFit, IsDivided, IsLoweredBeside, IsPutAt, cell};

use crate::fault::BoardOverflow;
use ratio_core::{Ratio, RatioFault};

// Each number divided.
pub(crate) fn divide(row: &[Ratio], by: &Ratio, next: &mut [Ratio]) -> Result<(), BoardOverflow>
    requires long { length next.old ≡ length row.now }
    requires nonzero { by.now ≢ zero_ℚ }
    requires all_fit { AllFit next.old }
    ensures fits { is_ok result ≡ quotients_fit (length row.now) (cell row.now) by.now }
    ensures ok { OnOk result (IsDivided by.now row.now next.new) }
    ensures all_fit { AllFit next.new }
{
    for (j, number) in row.iter().enumerate() {
        next[j] = divide_number(number, by)?;
    }
    Ok(())
}

// A number divided, without arithmetic where it is 0.
fn divide_number(number: &Ratio, by: &Ratio) -> Result<Ratio, RatioFault>
    requires nonzero { by.now ≢ zero_ℚ }
    ensures exact { OkIff result
        ((by.now ≢ zero_ℚ) × Fits (number.now /ℚ by.now))
        (number.now /ℚ by.now) }
{
    if number.is_zero() {
        let _fits = number.num();
        return Ok(*number);
    }
    number.div(by)
}

// Each number lowered by a multiple of the step's, at the places where the step isn't 0. The other
// numbers of `next` stay as they are.
pub(crate) fn lower(
    row: &[Ratio],
    by: &Ratio,
    step: &[Ratio],
    places: &[usize],
    next: &mut [Ratio],
) -> Result<(), BoardOverflow>
    requires long { length next.old ≡ length row.now }
    requires step_long { length row.now ≤ length step.now }
    requires covers { CoversNonzeros places.now step.now }
    requires row_fits { AllFit row.now }
    requires next_fits { AllFit next.old }
    ensures fits { is_ok result ≡ differences_fit (length row.now) (cell row.now) by.now
        (cell step.now) }
    ensures ok { OnOk result (IsLoweredBeside by.now step.now row.now next.new) }
    ensures all_fit { AllFit next.new }
{
    for i in 0..places.len() {
        let j = places[i];
        if j < row.len() {
            next[j] = lowered(&row[j], by, &step[j])?;
        }
    }
    Ok(())
}

// Puts the numbers of `next` at these places into the row.
pub(crate) fn put_at(places: &[usize], next: &[Ratio], row: &mut [Ratio])
    requires long { length next.now ≡ length row.old }
    requires row_fits { AllFit row.old }
    requires next_fits { AllFit next.now }
    ensures put { IsPutAt places.now (length places.now) (cell next.now) row.old row.new }
    ensures all_fit { AllFit row.new }
{
    for i in 0..places.len() {
        let j = places[i];
        if j < row.len() {
            row[j] = next[j];
        }
    }
}

/// A number lowered by a multiple of the step's, where the product and the difference fit.
#[inline]
pub fn lowered(number: &Ratio, by: &Ratio, step: &Ratio) -> Result<Ratio, BoardOverflow>
    ensures fits { is_ok result ≡ lowered_fits number.now by.now step.now }
    ensures ok { IfOk result (λ x. (x ≡ number.now -ℚ by.now *ℚ step.now) × Fits x) }
{
    let multiple = by.mul(step)?;
    let rest = difference(number, &multiple)?;
    let _fits = rest.num();
    Ok(rest)
}

// A difference, without arithmetic where the number is 0.
fn difference(number: &Ratio, multiple: &Ratio) -> Result<Ratio, RatioFault>
    ensures exact { OkIff result
        (SumFits number.now (neg_ℚ multiple.now))
        (number.now -ℚ multiple.now) }
{
    if number.is_zero() {
        let _fits = multiple.num();
        return Ok(multiple.neg());
    }
    number.sub(multiple)
}
