//! Duals of rows as lines.
ghost use Rattle.std.specs.Prelude.{◌≡◌, ◌++◌, OnOk};
ghost use Rattle.cert_text.specs.Text.{ended, numbers_text, row_line};

use lists::Memory;
use ratio_core::Ratio;
use report_core::Draft;
use user_model::Row;

/// A line for a row, with its duals: `dual row `, the name and the numbers.
pub fn push_row_duals(draft: &mut Draft, row: &Row, duals: &[Ratio]) -> Result<(), Memory>
    ensures { OnOk result (draft.new ≡ draft.old ++ ended (row_line (row.now, duals.now))) }
{
    draft.push("dual row ")?;
    draft.push_name(&row.name)?;
    push_each(draft, duals)?;
    draft.push("\n")
}

// Numbers, each after a space.
fn push_each(draft: &mut Draft, numbers: &[Ratio]) -> Result<(), Memory>
    ensures { OnOk result (draft.new ≡ draft.old ++ numbers_text numbers.now) }
{
    for number in numbers {
        draft.push(" ")?;
        draft.push_ratio(number)?;
    }
    Ok(())
}
