//! The gap of duals, which is reported at the first row or group whose part exceeds 128 bits.
ghost use Rattle.std.specs.Prelude.{◌≡◌, All, length, map};
ghost use Rattle.std.specs.List.{zip};
ghost use Rattle.aff_core.specs.Address.{Address};
ghost use Rattle.certificates.specs.Duals.{dual_gap, group_with, groups_with, row_with, rows_with};
ghost use Rattle.certificates.specs.Points.{addresses_of, all_addresses, functions_of};
ghost use Rattle.cert_core.specs.Checked.{HasRowDuals};
ghost use Rattle.cert_core.specs.Folds.{AddUp, gap_parts, gap_parts_of};
ghost use Rattle.cert_core.specs.Holding.{HasGroupSet, HasRowSet};
ghost use Rattle.ratio_core.specs.Folds.{sum_from};
ghost use Rattle.ratio_core.specs.Rational.{Rational, zero_ℚ};
ghost use Rattle.user_model.specs.Model.{variables};
ghost use Rattle.adjoint_core.specs.CarriedBack.{GapFits, UnfitGap, group_place, placed};
ghost use Rattle.adjoint_core.specs.Told.{TellsCarried, TellsCarriedAt};
ghost use Rattle.adjoint_core.specs.Walk.{row_place};

use crate::BackFault;
use aff_core::{Address, Root};
use cert_core::{plus_group, plus_row};
use model_store::UserModel;
use ratio_core::{Ratio, Ratios};
use user_model::{Group, Groups, Row, Rows};

/// The gap of rows and variables with these duals.
pub(crate) fn gap(model: &UserModel, rows: &[Ratios], vars: &[Ratio]) -> Result<Ratio, BackFault>
    requires entries { HasRowDuals model.now.model.rows rows.now }
    requires size { length vars.now ≡ length (variables model.now.model) }
    ensures { let all = placed model.now.model rows.now vars.now in
        TellsCarried result (GapFits zero_ℚ all) (λ q. q ≡ dual_gap model.now.model rows.now vars.now)
        (UnfitGap zero_ℚ all) }
{
    let of_rows = gap_of_rows(model.rows(), rows)?;
    plus_each_group(&of_rows, model.groups(), vars)
}

fn gap_of_rows(rows: &Rows, duals: &[Ratios]) -> Result<Ratio, BackFault>
    requires sets { All HasRowSet rows.now.items }
    requires entries { HasRowDuals rows.now.items duals.now }
    ensures { let hs = rows_with duals.now rows.now.items in
        let all = zip (map row_place rows.now.items) hs in
        TellsCarried result (GapFits zero_ℚ all) (λ q. q ≡ sum_from zero_ℚ (gap_parts hs))
        (UnfitGap zero_ℚ all) }
{
    let mut sum = Ratio::zero();
    for (i, row) in rows.iter().enumerate() {
        sum = with_row(&sum, row, duals[i].as_slice())?;
    }
    Ok(sum)
}

fn with_row(sum: &Ratio, row: &Row, duals: &[Ratio]) -> Result<Ratio, BackFault>
    requires set { HasRowSet row.now }
    requires size { length duals.now ≡ length (functions_of row.now.func) }
    ensures { let parts = gap_parts_of (row_with duals.now row.now) in
        TellsCarriedAt result (AddUp sum.now parts) (λ q. q ≡ sum_from sum.now parts)
        (row_place row.now) }
{
    match plus_row(sum, row, duals) {
        Ok(more) => Ok(more),
        Err(fault) => Err(BackFault::of_number(&Address::root(Root::Row, row.id), fault)),
    }
}

// A gap with what each group adds to it, wherever these are the variables' duals.
fn plus_each_group(of_rows: &Ratio, groups: &Groups, duals: &[Ratio]) -> Result<Ratio, BackFault>
    requires sets { All HasGroupSet groups.now.items }
    requires size { length duals.now ≡ length (all_addresses groups.now.items) }
    ensures { (w : Address → Rational) → map w (all_addresses groups.now.items) ≡ duals.now
        → let hs = groups_with w groups.now.items in
        let all = zip (map group_place groups.now.items) hs in
        TellsCarried result (GapFits of_rows.now all) (λ q. q ≡ sum_from of_rows.now (gap_parts hs))
        (UnfitGap of_rows.now all) }
{
    let mut sum = *of_rows;
    let mut left = duals;
    for group in groups.iter() {
        let (own, others) = left.split_at(group.vars.len());
        sum = with_group(&sum, group, own)?;
        left = others;
    }
    Ok(sum)
}

fn with_group(sum: &Ratio, group: &Group, duals: &[Ratio]) -> Result<Ratio, BackFault>
    requires set { HasGroupSet group.now }
    requires size { length duals.now ≡ length group.now.vars }
    ensures { (w : Address → Rational) → map w (addresses_of group.now.vars) ≡ duals.now
        → let parts = gap_parts_of (group_with w group.now) in
        TellsCarriedAt result (AddUp sum.now parts) (λ q. q ≡ sum_from sum.now parts)
        (group_place group.now) }
{
    match plus_group(sum, group, duals) {
        Ok(more) => Ok(more),
        Err(fault) => Err(BackFault::of_number(&Address::root(Root::Group, group.id), fault)),
    }
}
