//! The variables that are kept, as groups and rows come and go.
ghost use Rattle.std.specs.Prelude.{◌≡◌, ℕ, ◌+◌, ◌<◌, ◌≤◌, ◌^◌, length, IsSome, IsNone, IfSome, MatchOption};
ghost use Rattle.std.specs.Option.{option_copied, option_map};
ghost use Rattle.numbered_list.specs.Numbered.{IsAt, Rise, find, set_at};
ghost use Rattle.numbered_list.specs.Changes.{AreChanges, added, olds, set_all};
ghost use Rattle.user_model.specs.Edited.{row_number};
ghost use Rattle.user_model.specs.Model.{is_variable, variable_address};
ghost use Rattle.aff_core.specs.Address.{address_eq};
ghost use Rattle.user_model.specs.Sets as sets;
ghost use Rattle.model_catalog.specs.Names.{listed_number, put_count};
ghost use Rattle.model_catalog.specs.Index.{AreBoundsCounted, CountsBounds, SetsBounds, counted, given_variable, is_number, kept_count, listed_in, recounted, variable_number};

use crate::names::NameChange;
use crate::variable::Variable;
use aff_core::{Address, Root};
use numbered_list::{Change, Numbered};
use set_core::Set;
use user_model::{Row, Rows, UserFunc};

// Variables that are listed with a name stand from now on, new ones in the group, and those that
// are listed without don't.
pub(crate) fn list_variables(kept: &mut Numbered<Variable>, group: u32, listed: &[NameChange])
    requires rising { Rise variable_number kept.old.items }
    requires listed { Rise listed_number listed.now }
    requires room { length kept.old.items + put_count listed.now ≤ kept.old.room }
    ensures entries { (n : ℕ) → find variable_number n kept.new.items
        ≡ listed_in group listed.now (λ n. find variable_number n kept.old.items) n }
    ensures rising { Rise variable_number kept.new.items }
    ensures capacity { kept.old.room ≤ kept.new.room }
    ensures count { length kept.new.items + kept_count kept.old.items listed.now
        ≤ length kept.old.items + put_count listed.now }
{
    for item in listed {
        list_variable(kept, group, item);
    }
}

// One variable.
fn list_variable(kept: &mut Numbered<Variable>, group: u32, item: &NameChange)
    requires rising { Rise variable_number kept.old.items }
    requires room { IsSome item.now.name → length kept.old.items < kept.old.room }
    ensures after { kept.new.items ≡ set_at variable_number item.now.number
        (given_variable group item.now (find variable_number item.now.number kept.old.items))
        kept.old.items }
    ensures rising { Rise variable_number kept.new.items }
    ensures capacity { kept.old.room ≤ kept.new.room }
{
    let number = item.number;
    if item.name.is_none() {
        kept.exchange(number, None);
    } else if kept.get(number).is_none() {
        let variable = Variable {
            number,
            group,
            lower: 0,
            upper: 0,
        };
        kept.exchange(number, Some(variable));
    }
}

// Lets the content of each change change places with the row at its number, and counts the bounds.
pub(crate) fn exchange_rows(
    rows: &mut Rows,
    kept: &mut Numbered<Variable>,
    changes: &mut [Change<Row>],
)
    requires rising { Rise row_number rows.old.items }
    requires changes { AreChanges row_number changes.old }
    requires room { length rows.old.items + added row_number changes.old rows.old.items
        ≤ rows.old.room }
    requires kept { Rise variable_number kept.old.items }
    requires counts { CountsBounds rows.old.items kept.old.items }
    ensures after { rows.new.items ≡ set_all row_number changes.old rows.old.items }
    ensures before { changes.new ≡ olds row_number changes.old rows.old.items }
    ensures rising { Rise row_number rows.new.items }
    ensures changes { AreChanges row_number changes.new }
    ensures capacity { rows.old.room ≤ rows.new.room }
    ensures room { length rows.new.items + added row_number changes.new rows.new.items
        ≤ rows.new.room }
    ensures kept { Rise variable_number kept.new.items }
    ensures entries { (n : ℕ) → find variable_number n kept.new.items
        ≡ option_map (recounted rows.new.items) (find variable_number n kept.old.items) }
    ensures count { length kept.new.items ≡ length kept.old.items }
    ensures kept_room { kept.old.room ≤ kept.new.room }
{
    for change in changes.iter_mut() {
        change.content = exchange_row(rows, kept, change.number, change.content.take());
    }
}

// One row.
fn exchange_row(
    rows: &mut Rows,
    kept: &mut Numbered<Variable>,
    number: u32,
    new: Option<Row>,
) -> Option<Row>
    requires rising { Rise row_number rows.old.items }
    requires own { IsAt row_number number new }
    requires room { IsSome new → IsNone (find row_number number rows.old.items)
        → length rows.old.items < rows.old.room }
    requires kept { Rise variable_number kept.old.items }
    requires counts { CountsBounds rows.old.items kept.old.items }
    ensures before { result ≡ find row_number number rows.old.items }
    ensures after { rows.new.items ≡ set_at row_number number new rows.old.items }
    ensures rising { Rise row_number rows.new.items }
    ensures capacity { rows.old.room ≤ rows.new.room }
    ensures kept { Rise variable_number kept.new.items }
    ensures entries { (n : ℕ) → find variable_number n kept.new.items
        ≡ option_map (recounted rows.new.items) (find variable_number n kept.old.items) }
    ensures count { length kept.new.items ≡ length kept.old.items }
    ensures kept_room { kept.old.room ≤ kept.new.room }
{
    // so few that their counts can rise
    let _few = rows.len();
    count_bounds(kept, new.as_ref());
    let old = rows.exchange(number, new);
    discount_bounds(kept, old.as_ref());
    old
}

// Counts the bounds that the row sets.
fn count_bounds(kept: &mut Numbered<Variable>, row: Option<&Row>)
    requires rising { Rise variable_number kept.old.items }
    requires fits { (n : ℕ) → IfSome (find variable_number n kept.old.items)
        (λ v. (v.lower < 2 ^ 63) × (v.upper < 2 ^ 63)) }
    ensures rising { Rise variable_number kept.new.items }
    ensures entries { (n : ℕ) → find variable_number n kept.new.items
        ≡ option_map (counted (option_copied row.entry)) (find variable_number n kept.old.items) }
    ensures count { length kept.new.items ≡ length kept.old.items }
    ensures room { kept.old.room ≤ kept.new.room }
{
    let Some(bounds) = bounds_of(kept, row) else {
        return;
    };
    let variable = bounds.variable;
    let more = Variable {
        number: variable.number,
        group: variable.group,
        lower: variable.lower + bounds.lower,
        upper: variable.upper + bounds.upper,
    };
    kept.exchange(variable.number, Some(more));
}

// Takes back the counts of the bounds that the row sets.
fn discount_bounds(kept: &mut Numbered<Variable>, row: Option<&Row>)
    requires rising { Rise variable_number kept.old.items }
    requires counted { (n : ℕ) → IfSome (find variable_number n kept.old.items)
        (λ v. AreBoundsCounted (option_copied row) v) }
    ensures rising { Rise variable_number kept.new.items }
    ensures entries { (n : ℕ) → option_map (counted (option_copied row.entry))
        (find variable_number n kept.new.items) ≡ find variable_number n kept.old.items }
    ensures count { length kept.new.items ≡ length kept.old.items }
    ensures room { kept.old.room ≤ kept.new.room }
{
    let Some(bounds) = bounds_of(kept, row) else {
        return;
    };
    let variable = bounds.variable;
    let less = Variable {
        number: variable.number,
        group: variable.group,
        lower: variable.lower - bounds.lower,
        upper: variable.upper - bounds.upper,
    };
    kept.exchange(variable.number, Some(less));
}

// The bounds that a plain row sets, 1 each, and its variable as it is kept.
#[derive(Clone, Copy)]
struct Bounds {
    variable: Variable,
    lower: u64,
    upper: u64,
}

// The bounds of a variable that is kept, and none where the row sets none of these.
fn bounds_of(kept: &Numbered<Variable>, row: Option<&Row>) -> Option<Bounds>
    ensures { MatchOption result
        ((n : ℕ) → option_map (counted (option_copied row.entry))
        (find variable_number n kept.now.items) ≡ find variable_number n kept.now.items)
        (SetsBounds (option_copied row.entry) kept.now.items) }
{
    let row = row?;
    let number = plain_variable(row)?;
    let Some(variable) = kept.get(number) else {
        return None;
    };
    Some(Bounds {
        variable: *variable,
        lower: u64::from(sets_lower(&row.set)),
        upper: u64::from(sets_upper(&row.set)),
    })
}

// The number of the variable that the row is, if it is a plain row of one.
fn plain_variable(row: &Row) -> Option<u32>
    ensures { (n : ℕ) → is_variable n row.now.func ≡ is_number result n }
{
    match &row.func {
        UserFunc::Plain(var) => variable_at(var),
        _ => None,
    }
}

/// The number of the variable with an address, and none where it is no variable's.
pub fn variable_at(address: &Address) -> Option<u32>
    ensures { (n : ℕ) → address_eq (variable_address n) address.now ≡ is_number result n }
{
    let Root::Variable = address.kind() else {
        return None;
    };
    if address.depth() > 0 {
        return None;
    }
    Some(address.number())
}

fn sets_lower(set: &Set) -> bool
    ensures { result ≡ sets.sets_lower set.now }
{
    set.lower_bound().is_some()
}

fn sets_upper(set: &Set) -> bool
    ensures { result ≡ sets.sets_upper set.now }
{
    set.upper_bound().is_some()
}
