//! Whether duals are in the dual sets.
ghost use Rattle.std.specs.Prelude.{◌≡◌, All, length, map};
ghost use Rattle.ratio_core.specs.Rational.{Rational};
ghost use Rattle.aff_core.specs.Address.{Address};
ghost use Rattle.set_core.specs.Membership.{Dual, DualFits};
ghost use Rattle.certificates.specs.Duals.{groups_with, rows_with};
ghost use Rattle.cert_core.specs.Answers.{TellsWhereFits};
ghost use Rattle.cert_core.specs.Checked.{HasRowDuals};
ghost use Rattle.cert_core.specs.Holding.{HasGroupSet, HasRowSet};
ghost use Rattle.certificates.specs.Points.{all_addresses};

use ratio_core::{NumberFault, Ratio, Ratios};
use user_model::{Groups, Rows};

/// Whether the duals of each row are in its set's dual.
pub(crate) fn row_duals_hold(rows: &Rows, duals: &[Ratios]) -> Result<bool, NumberFault>
    requires sets { All HasRowSet rows.now.items }
    requires entries { HasRowDuals rows.now.items duals.now }
    ensures { TellsWhereFits result
        (All (λ h. DualFits h.set h.duals) (rows_with duals.now rows.now.items))
        (All (λ h. Dual h.set h.duals) (rows_with duals.now rows.now.items)) }
{
    let mut all = true;
    for (i, row) in rows.iter().enumerate() {
        let holds = row.set.dual_holds(duals[i].as_slice())?;
        all &= holds;
    }
    Ok(all)
}

/// Whether the duals of each group's variables are in its set's dual, wherever these are the
/// variables' duals.
pub(crate) fn group_duals_hold(groups: &Groups, duals: &[Ratio]) -> Result<bool, NumberFault>
    requires sets { All HasGroupSet groups.now.items }
    requires size { length duals.now ≡ length (all_addresses groups.now.items) }
    ensures { (w : Address → Rational) → map w (all_addresses groups.now.items) ≡ duals.now
        → TellsWhereFits result
        (All (λ h. DualFits h.set h.duals) (groups_with w groups.now.items))
        (All (λ h. Dual h.set h.duals) (groups_with w groups.now.items)) }
{
    let mut all = true;
    let mut left = duals;
    for group in groups.iter() {
        let (own, others) = left.split_at(group.vars.len());
        let holds = group.set.dual_holds(own)?;
        all &= holds;
        left = others;
    }
    Ok(all)
}
