//! What is listed, separated by whether it differs.
ghost use Rattle.std.specs.Prelude.{◌≡◌, ◌≤◌, ◌+◌, ◌++◌, ℕ, IfOk, MatchBool, OnOk, length, map};
ghost use Rattle.std.specs.Option.{option_copied, option_to_list};
ghost use Rattle.fresh_bridging.specs.ModelImage.{group_item, row_item};
ghost use Rattle.numbered_list.specs.Changes.{AreChanges};
ghost use Rattle.numbered_list.specs.Numbered as numbered;
ghost use Rattle.user_model.specs.Edited.{group_number, row_number};
ghost use Rattle.touched_items.specs.FirstChanges.{stood_at};
ghost use Rattle.touched_items.specs.Sides.{AreSides};

use crate::same::{same_groups, same_rows};
use lists::Memory;
use model_store::CountedView;
use numbered_list::Change;
use std::alloc::Global;
use user_model::{Group, Row};

// Items that differ, as they were and as they are, in the order of their numbers.
#[derive(Drop)]
pub(crate) struct Sides<'a, X> {
    pub(crate) before: Vec<&'a X>,
    pub(crate) after: Vec<&'a X>,
}

pub(crate) fn separate_groups<'a>(
    alloc: Global,
    reading: &mut CountedView<'a>,
    listed: &[&'a Change<Group>],
) -> Result<Sides<'a, Group>, Memory>
    requires { AreChanges group_number (map (λ c. c.now) listed.now) }
    ensures sides { let now = λ (n : ℕ). numbered.find group_number n reading.old.model.groups in
        IfOk result (λ sides.
        AreSides group_number group_item (stood_at now (map (λ c. c.now) listed.now)) now
        (map (λ g. g.now) sides.before.items) (map (λ g. g.now) sides.after.items)) }
    ensures model { reading.new.model ≡ reading.old.model }
    ensures reads { reading.new.reads ≤ reading.old.reads + length listed.now }
{
    let mut before = Vec::new(alloc);
    let mut after = Vec::new(alloc);
    for change in listed {
        let was = change.content.as_ref();
        let is = reading.group(change.number);
        separate(same_groups(was, is), was, is, &mut before, &mut after)?;
    }
    Ok(Sides { before, after })
}

pub(crate) fn separate_rows<'a>(
    alloc: Global,
    reading: &mut CountedView<'a>,
    listed: &[&'a Change<Row>],
) -> Result<Sides<'a, Row>, Memory>
    requires { AreChanges row_number (map (λ c. c.now) listed.now) }
    ensures sides { let now = λ (n : ℕ). numbered.find row_number n reading.old.model.rows in
        IfOk result (λ sides.
        AreSides row_number row_item (stood_at now (map (λ c. c.now) listed.now)) now
        (map (λ r. r.now) sides.before.items) (map (λ r. r.now) sides.after.items)) }
    ensures model { reading.new.model ≡ reading.old.model }
    ensures reads { reading.new.reads ≤ reading.old.reads + length listed.now }
{
    let mut before = Vec::new(alloc);
    let mut after = Vec::new(alloc);
    for change in listed {
        let was = change.content.as_ref();
        let is = reading.row(change.number);
        separate(same_rows(was, is), was, is, &mut before, &mut after)?;
    }
    Ok(Sides { before, after })
}

// Appends what was and what is, unless they are the same.
fn separate<'a, X>(
    same: bool,
    was: Option<&'a X>,
    is: Option<&'a X>,
    before: &mut Vec<&'a X>,
    after: &mut Vec<&'a X>,
) -> Result<(), Memory>
    ensures before { OnOk result (MatchBool same
        (map (λ x. x.now) before.new.items ≡ map (λ x. x.now) before.old.items)
        (map (λ x. x.now) before.new.items
        ≡ map (λ x. x.now) before.old.items ++ option_to_list (option_copied was.entry))) }
    ensures after { OnOk result (MatchBool same
        (map (λ x. x.now) after.new.items ≡ map (λ x. x.now) after.old.items)
        (map (λ x. x.now) after.new.items
        ≡ map (λ x. x.now) after.old.items ++ option_to_list (option_copied is.entry))) }
{
    if same {
        return Ok(());
    }
    push_some(before, was)?;
    push_some(after, is)
}

fn push_some<'a, X>(list: &mut Vec<&'a X>, item: Option<&'a X>) -> Result<(), Memory>
    ensures { OnOk result (map (λ x. x.now) list.new.items
        ≡ map (λ x. x.now) list.old.items ++ option_to_list (option_copied item.entry)) }
{
    if let Some(item) = item {
        list.push(item)?;
    }
    Ok(())
}
