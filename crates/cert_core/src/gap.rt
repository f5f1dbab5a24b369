//! The gap of duals: over rows and then groups the least product with the set, and then less each
//! dual times its constant.
ghost use Rattle.std.specs.Prelude.{◌≡◌, All, length, map};
ghost use Rattle.ratio_core.specs.Folds.{sum_from};
ghost use Rattle.ratio_core.specs.Rational.{Fits, Rational, zero_ℚ};
ghost use Rattle.ratio_core.specs.Answers.{ExactWhere};
ghost use Rattle.rational_laws.specs.Dot.{negated};
ghost use Rattle.aff_core.specs.Address.{Address};
ghost use Rattle.aff_core.specs.FunctionLists.{constants};
ghost use Rattle.certificates.specs.Duals.{group_with, groups_with, row_with, rows_with};
ghost use Rattle.certificates.specs.Points.{addresses_of, all_addresses, functions_of};
ghost use Rattle.cert_core.specs.Checked.{HasRowDuals};
ghost use Rattle.cert_core.specs.Components.{functions_in};
ghost use Rattle.cert_core.specs.Folds.{AddUp, gap_parts, gap_parts_of, products};
ghost use Rattle.cert_core.specs.Holding.{HasGroupSet, HasRowSet};

use crate::components::{Components, components_of};
use aff_core::Aff;
use ratio_core::{NumberFault, Ratio, Ratios};
use user_model::{Group, Groups, Row, Rows};

/// What the rows add to the gap.
pub(crate) fn gap_of_rows(rows: &Rows, duals: &[Ratios]) -> Result<Ratio, NumberFault>
    requires sets { All HasRowSet rows.now.items }
    requires entries { HasRowDuals rows.now.items duals.now }
    ensures { let parts = gap_parts (rows_with duals.now rows.now.items) in
        ExactWhere result (AddUp zero_ℚ parts) (λ q. q ≡ sum_from zero_ℚ parts) }
{
    let mut sum = Ratio::zero();
    for (i, row) in rows.iter().enumerate() {
        sum = plus_row(&sum, row, duals[i].as_slice())?;
    }
    Ok(sum)
}

/// What a row adds to the gap, added to a number.
pub fn plus_row(sum: &Ratio, row: &Row, duals: &[Ratio]) -> Result<Ratio, NumberFault>
    requires set { HasRowSet row.now }
    requires size { length duals.now ≡ length (functions_of row.now.func) }
    ensures { let parts = gap_parts_of (row_with duals.now row.now) in
        ExactWhere result (AddUp sum.now parts) (λ q. q ≡ sum_from sum.now parts) }
{
    let low = row.set.low(duals)?;
    let with_low = sum.add(&low)?;
    less_constants(&with_low, components_of(&row.func), duals)
}

fn less_constants(
    sum: &Ratio,
    components: Components,
    duals: &[Ratio],
) -> Result<Ratio, NumberFault>
    requires fits { Fits sum.now }
    requires size { length duals.now ≡ length (functions_in components) }
    ensures { let parts = negated (products duals.now
        (constants (functions_in components.entry))) in
        ExactWhere result (AddUp sum.now parts) (λ q. q ≡ sum_from sum.now parts) }
{
    match components {
        Components::Variables(_) => Ok(*sum),
        Components::Functions(fs) => less_products(sum, fs, duals),
    }
}

fn less_products(sum: &Ratio, fs: &[Aff], duals: &[Ratio]) -> Result<Ratio, NumberFault>
    requires { length duals.now ≡ length fs.now }
    ensures { let parts = negated (products duals.now (constants fs.now)) in
        ExactWhere result (AddUp sum.now parts) (λ q. q ≡ sum_from sum.now parts) }
{
    let mut left = *sum;
    for (i, f) in fs.iter().enumerate() {
        let product = duals[i].mul(&f.constant())?;
        left = left.sub(&product)?;
    }
    Ok(left)
}

/// The gap of the rows, with what the groups add to it wherever these are the variables' duals.
pub(crate) fn plus_groups(
    of_rows: &Ratio,
    groups: &Groups,
    duals: &[Ratio],
) -> Result<Ratio, NumberFault>
    requires sets { All HasGroupSet groups.now.items }
    requires size { length duals.now ≡ length (all_addresses groups.now.items) }
    ensures { (w : Address → Rational) → map w (all_addresses groups.now.items) ≡ duals.now
        → ExactWhere result (AddUp of_rows.now (gap_parts (groups_with w groups.now.items)))
        (λ q. q ≡ sum_from of_rows.now (gap_parts (groups_with w groups.now.items))) }
{
    let mut sum = *of_rows;
    let mut left = duals;
    for group in groups.iter() {
        let (own, others) = left.split_at(group.vars.len());
        sum = plus_group(&sum, group, own)?;
        left = others;
    }
    Ok(sum)
}

/// What a group adds to the gap, added to a number, wherever these are its variables' duals.
pub fn plus_group(sum: &Ratio, group: &Group, duals: &[Ratio]) -> Result<Ratio, NumberFault>
    requires set { HasGroupSet group.now }
    requires size { length duals.now ≡ length group.now.vars }
    ensures { (w : Address → Rational) → map w (addresses_of group.now.vars) ≡ duals.now
        → let parts = gap_parts_of (group_with w group.now) in
        ExactWhere result (AddUp sum.now parts) (λ q. q ≡ sum_from sum.now parts) }
{
    let low = group.set.low(duals)?;
    Ok(sum.add(&low)?)
}
