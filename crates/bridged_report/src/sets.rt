//! Sets as the script writes them.
ghost use Rattle.std.specs.Prelude.{◌≡◌, ◌++◌, OnOk};
ghost use Rattle.ratio_core.specs.Text.{text_of};
ghost use Rattle.bridged_report.specs.Sets.{set_text};

use ratio_core::{Memory, Ratio};
use report_core::Draft;
use set_core::Set;

pub(crate) fn push_set(draft: &mut Draft, set: &Set) -> Result<(), Memory>
    ensures { OnOk result (draft.new ≡ draft.old ++ set_text set.now) }
{
    match set {
        Set::LessThan { upper } => push_bound(draft, "<= ", upper),
        Set::GreaterThan { lower } => push_bound(draft, ">= ", lower),
        Set::EqualTo { value } => push_bound(draft, "== ", value),
        Set::Interval { lower, upper } => {
            push_bound(draft, "in ", lower)?;
            push_bound(draft, " ", upper)
        }
        Set::Reals { .. } => draft.push("reals"),
        Set::Zeros { .. } => draft.push("zeros"),
        Set::Nonnegatives { .. } => draft.push("nonneg"),
        Set::Nonpositives { .. } => draft.push("nonpos"),
        Set::NormInfinityCone { .. } => draft.push("norminf"),
        Set::NormOneCone { .. } => draft.push("normone"),
    }
}

// A number after a relation.
fn push_bound(draft: &mut Draft, relation: &str, number: &Ratio) -> Result<(), Memory>
    ensures { OnOk result (draft.new ≡ draft.old ++ (relation.now ++ text_of number.now)) }
{
    draft.push(relation)?;
    draft.push_ratio(number)
}
