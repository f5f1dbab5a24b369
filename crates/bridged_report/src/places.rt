//! Where something is in the user's model.
ghost use Rattle.std.specs.Prelude.{◌≡◌, IfOk};
ghost use Rattle.std.specs.Option.{option_copied, option_map};
ghost use Rattle.bridged_report.specs.Places.{place_at};

use crate::addresses::{group_name, row_name};
use aff_core::{Address, Root};
use lists::Duplicate;
use model_store::UserModel;
use name_index::Name;
use ratio_core::Memory;
use report_core::Place;

/// The user's variable, group, row or objective from which an address leads on, by name. It is
/// `None` exactly where no such thing stands in the model.
pub fn place_at(model: &UserModel, at: &Address) -> Result<Option<Place>, Memory>
    ensures { IfOk result (λ place. place ≡ place_at model.now.model at.now) }
{
    match at.kind() {
        Root::Variable => {
            variable(model.variable_name(&Address::root(Root::Variable, at.number())))
        }
        Root::Group => variable(group_name(model, at.number())),
        Root::Row => row(row_name(model, at.number())),
        Root::Objective => Ok(Some(Place::Objective)),
    }
}

fn variable(name: Option<&Name>) -> Result<Option<Place>, Memory>
    ensures { IfOk result (λ place. place ≡ option_map Place.Var (option_copied name.entry)) }
{
    match name {
        Some(name) => Ok(Some(Place::Var(name.copy()?))),
        None => Ok(None),
    }
}

fn row(name: Option<&Name>) -> Result<Option<Place>, Memory>
    ensures { IfOk result (λ place. place ≡ option_map Place.Row (option_copied name.entry)) }
{
    match name {
        Some(name) => Ok(Some(Place::Row(name.copy()?))),
        None => Ok(None),
    }
}
