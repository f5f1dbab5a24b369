//! Numbers of variables as lines.
ghost use Rattle.std.specs.Prelude.{◌≡◌, ◌++◌, OnOk};
ghost use Rattle.cert_text.specs.Text.{ended, variable_line};
ghost use Rattle.certificates.specs.Points.{variables_of};
ghost use Rattle.file_command.specs.Numbers.{numbers_text};

use crate::variables::VariablesLeft;
use lists::Memory;
use ratio_core::Ratio;
use report_core::Draft;
use user_model::{GroupVar, Groups};

/// A line for each variable of these groups, with its number: a beginning, such as `primal `, the
/// name and the number.
pub fn push_numbers(
    draft: &mut Draft,
    beginning: &str,
    groups: &Groups,
    numbers: &[Ratio],
) -> Result<(), Memory>
    ensures { OnOk result (draft.new ≡ draft.old
        ++ numbers_text beginning.now (variables_of groups.now.items) numbers.now) }
{
    let mut variables = VariablesLeft::of(groups);
    for number in numbers {
        let Some(var) = variables.next() else {
            return Ok(());
        };
        push_number(draft, beginning, var, number)?;
    }
    Ok(())
}

fn push_number(
    draft: &mut Draft,
    beginning: &str,
    var: &GroupVar,
    number: &Ratio,
) -> Result<(), Memory>
    ensures { OnOk result (draft.new ≡ draft.old
        ++ ended (variable_line beginning.now (var.now, number.now))) }
{
    draft.push(beginning)?;
    draft.push_name(&var.name)?;
    draft.push(" ")?;
    draft.push_ratio(number)?;
    draft.push("\n")
}
