//! The variables of a model, one after the other.
ghost use Rattle.std.specs.Prelude.{◌≡◌};
ghost use Rattle.std.specs.Iterator.{YieldsFirstRef, item_count};
ghost use Rattle.certificates.specs.Points.{variables_of};
ghost use Rattle.cert_text.specs.Left.{variables_left};

use numbered_list::NumberedItems;
use user_model::{Group, GroupVar, Groups};

/// The variables that are left, in the order of the groups.
#[derive(Drop)]
pub(crate) struct Variables<'a> {
    vars: &'a [GroupVar],
    groups: NumberedItems<'a, Group>,
}

impl<'a> Variables<'a> {
    pub(crate) fn of(groups: &'a Groups) -> Variables<'a>
        ensures { variables_left result ≡ variables_of groups.now.items }
    {
        Variables {
            vars: &[],
            groups: groups.iter(),
        }
    }
}

impl<'a> Iterator for Variables<'a> {
    type Item = &'a GroupVar;

    ghost next_gives = { YieldsFirstRef variables_left };

    ghost remaining = { item_count variables_left };

    fn next(&mut self) -> Option<&'a GroupVar> {
        while self.vars.is_empty() {
            let group = self.groups.next()?;
            self.vars = group.vars.as_slice();
        }
        let (first, others) = self.vars.split_first()?;
        self.vars = others;
        Some(first)
    }
}
