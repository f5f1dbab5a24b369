//! Addresses by the names of the user's model.
ghost use Rattle.std.specs.Prelude.{◌≡◌, ◌++◌, OnOk, flat_map};
ghost use Rattle.std.specs.Option.{option_copied};
ghost use Rattle.bridged_report.specs.Addresses.{address_text, group_name, position_text, root_text, row_name, written};

use aff_core::{Address, Root};
use model_store::UserModel;
use name_index::Name;
use ratio_core::Memory;
use report_core::Draft;

/// `v:`, `g:` or `r:` with a name, or `o`, and then a point and each position.
#[tactic(auto, unfolding(crate::specs::Addresses::address_text))]
pub(crate) fn push_address(draft: &mut Draft, model: &UserModel, at: &Address) -> Result<(), Memory>
    ensures { OnOk result (draft.new ≡ draft.old ++ address_text model.now.model at.now) }
{
    push_root(draft, model, at.kind(), at.number())?;
    push_positions(draft, at.positions())
}

fn push_root(draft: &mut Draft, model: &UserModel, root: Root, number: u32) -> Result<(), Memory>
    ensures { OnOk result (draft.new ≡ draft.old ++ root_text model.now.model root number) }
{
    match root {
        Root::Variable => {
            draft.push("v:")?;
            push_name(
                draft,
                model.variable_name(&Address::root(Root::Variable, number)),
            )
        }
        Root::Group => {
            draft.push("g:")?;
            push_name(draft, group_name(model, number))
        }
        Root::Row => {
            draft.push("r:")?;
            push_name(draft, row_name(model, number))
        }
        Root::Objective => draft.push("o"),
    }
}

/// The name of the first variable of the group with a number.
pub(crate) fn group_name(model: &UserModel, number: u32) -> Option<&Name>
    ensures { option_copied result ≡ group_name model.now.model number }
{
    let group = model.groups().get(number)?;
    let first = group.vars.as_slice().first()?;
    Some(&first.name)
}

pub(crate) fn row_name(model: &UserModel, number: u32) -> Option<&Name>
    ensures { option_copied result ≡ row_name model.now.model number }
{
    let row = model.rows().get(number)?;
    Some(&row.name)
}

fn push_name(draft: &mut Draft, name: Option<&Name>) -> Result<(), Memory>
    ensures { OnOk result (draft.new ≡ draft.old ++ written (option_copied name.entry)) }
{
    match name {
        Some(name) => draft.push_name(name),
        None => Ok(()),
    }
}

fn push_positions(draft: &mut Draft, positions: &[u16]) -> Result<(), Memory>
    ensures { OnOk result (draft.new ≡ draft.old ++ flat_map position_text positions.now) }
{
    for position in positions {
        draft.push(".")?;
        draft.push_number(u128::from(*position))?;
    }
    Ok(())
}
