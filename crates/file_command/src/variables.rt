//! The variables of a model, one after another.
ghost use Rattle.std.specs.Prelude.{◌≡◌};
ghost use Rattle.std.specs.Iterator.{YieldsFirstRef, item_count};
ghost use Rattle.certificates.specs.Points.{variables_of};
ghost use Rattle.file_command.specs.Left.{variables_left};

use numbered_list::NumberedItems;
use user_model::{Group, GroupVar, Groups};

/// The variables that are left, in the order of the groups.
#[derive(Drop)]
pub(crate) struct VariablesLeft<'a> {
    vars: &'a [GroupVar],
    groups: NumberedItems<'a, Group>,
}

impl<'a> VariablesLeft<'a> {
    pub(crate) fn of(groups: &'a Groups) -> VariablesLeft<'a>
        ensures { variables_left result ≡ variables_of groups.now.items }
    {
        VariablesLeft {
            vars: &[],
            groups: groups.iter(),
        }
    }
}

impl<'a> Iterator for VariablesLeft<'a> {
    type Item = &'a GroupVar;

    ghost next_gives = { YieldsFirstRef variables_left };

    ghost remaining = { item_count variables_left };

    fn next(&mut self) -> Option<&'a GroupVar> {
        while self.vars.is_empty() {
            let group = self.groups.next()?;
            self.vars = group.vars.as_slice();
        }
        let (first, others) = self.vars.split_first()?;
        self.vars = others;
        Some(first)
    }
}
