//! Whether duals have the right numbers of entries.
ghost use Rattle.std.specs.Prelude.{◌≡◌, ◌↔◌, IsTrue, All, length};
ghost use Rattle.certificates.specs.Duals.{rows_with};
ghost use Rattle.cert_core.specs.Checked.{HasEachDual, HasRowDuals};

use crate::components::component_count;
use ratio_core::Ratios;
use user_model::Rows;

/// Whether there is a list for each row, of a number for each component.
pub(crate) fn has_row_duals(rows: &Rows, duals: &[Ratios]) -> bool
    ensures { IsTrue result ↔ HasRowDuals rows.now.items duals.now }
{
    rows.len() == duals.len() && has_each_dual(rows, duals)
}

fn has_each_dual(rows: &Rows, duals: &[Ratios]) -> bool
    requires { length duals.now ≡ length rows.now.items }
    ensures { IsTrue result ↔ All HasEachDual (rows_with duals.now rows.now.items) }
{
    for (i, row) in rows.iter().enumerate() {
        if duals[i].len() != component_count(&row.func) {
            return false;
        }
    }
    true
}
