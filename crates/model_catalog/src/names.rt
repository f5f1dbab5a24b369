//! Tables of names, and exchanges of the names at some numbers.
ghost use Rattle.std.specs.Prelude.{◌≡◌, ◌+◌, ◌<◌, ◌≤◌, ◌==◌, ℕ, cond, map, None, IsSome, IfSome, is_some};
ghost use Rattle.std.specs.FinMap.{get};
ghost use Rattle.name_index.specs.NameTable.{IsNumberFree, IsOneToOne};
ghost use Rattle.numbered_list.specs.Numbered.{Rise, find};
ghost use Rattle.model_catalog.specs.Names.{AreDistinct, listed_as, listed_number, standing_names, name_of, put_aside, put_count, renamed_by, settled, without_names};

use name_index::{Name, NameTable};
use std::mem;

/// What name a variable or a row is to have: one, or none where it isn't to stand any more.
#[derive(Debug, Drop)]
pub struct NameChange {
    pub number: u32,
    pub name: Option<Name>,
    // where the name that is taken out stands until the others are put in
    aside: Option<Name>,
}

/// The names that come, go or change, by the numbers of the variables and of the rows, in rising
/// order.
#[derive(Debug, Drop)]
pub struct NameChanges {
    /// The number of the group that the listed variables stand in, before and after.
    pub group: u32,
    pub variables: Vec<NameChange>,
    pub rows: Vec<NameChange>,
}

impl NameChange {
    /// The name that is to stand at a number, or none.
    pub fn new(number: u32, name: Option<Name>) -> NameChange
        ensures { result ≡ listed_as number name }
    {
        NameChange {
            number,
            name,
            aside: None,
        }
    }
}

/// Lets each listed name change places with the name at its number in the table. It takes no
/// memory, and no order of the numbers matters.
pub(crate) fn exchange_names(table: &mut NameTable, listed: &mut [NameChange])
    requires one_to_one { IsOneToOne table.old.numbers }
    requires rising { Rise listed_number listed.old }
    requires distinct { AreDistinct (renamed_by listed.old (name_of table.old.numbers)) }
    requires room { put_count listed.old ≤ table.old.spare }
    ensures names { (n : ℕ) → name_of table.new.numbers n
        ≡ renamed_by listed.old (name_of table.old.numbers) n }
    ensures listed { listed.new ≡ standing_names (name_of table.old.numbers) listed.old }
    ensures spare { table.old.spare ≤ table.new.spare + put_count listed.old }
    ensures one_to_one { IsOneToOne table.new.numbers }
{
    take_names(table, listed);
    put_names(table, listed);
}

// Takes the names at the listed numbers out, and puts them aside.
fn take_names(table: &mut NameTable, listed: &mut [NameChange])
    requires one_to_one { IsOneToOne table.old.numbers }
    requires rising { Rise listed_number listed.old }
    ensures names { (n : ℕ) → name_of table.new.numbers n
        ≡ without_names listed.old (name_of table.old.numbers) n }
    ensures listed { listed.new ≡ map (put_aside (name_of table.old.numbers)) listed.old }
    ensures spare { table.old.spare ≤ table.new.spare }
    ensures one_to_one { IsOneToOne table.new.numbers }
{
    for item in listed.iter_mut() {
        item.aside = take_name(table, item.number);
    }
}

// Puts the listed names in, at numbers that have none.
fn put_names(table: &mut NameTable, listed: &mut [NameChange])
    requires one_to_one { IsOneToOne table.old.numbers }
    requires rising { Rise listed_number listed.old }
    requires free { (n : ℕ) → IsSome (find listed_number n listed.old)
        → name_of table.old.numbers n ≡ None }
    requires distinct { AreDistinct (renamed_by listed.old (name_of table.old.numbers)) }
    requires room { put_count listed.old ≤ table.old.spare }
    ensures names { (n : ℕ) → name_of table.new.numbers n
        ≡ renamed_by listed.old (name_of table.old.numbers) n }
    ensures listed { listed.new ≡ map settled listed.old }
    ensures spare { table.old.spare ≤ table.new.spare + put_count listed.old }
    ensures one_to_one { IsOneToOne table.new.numbers }
{
    for item in listed.iter_mut() {
        let old = item.aside.take();
        put_name(table, item.number, mem::replace(&mut item.name, old));
    }
}

// Takes the name at a number out.
fn take_name(table: &mut NameTable, number: u32) -> Option<Name>
    requires one_to_one { IsOneToOne table.old.numbers }
    ensures value { result ≡ name_of table.old.numbers number }
    ensures names { (n : ℕ) → name_of table.new.numbers n
        ≡ cond (number == n) None (name_of table.old.numbers n) }
    ensures spare { table.old.spare ≤ table.new.spare }
    ensures one_to_one { IsOneToOne table.new.numbers }
{
    table.remove(number)
}

// Puts a name, or none, at a number that has none.
fn put_name(table: &mut NameTable, number: u32, name: Option<Name>)
    requires one_to_one { IsOneToOne table.old.numbers }
    requires free { name_of table.old.numbers number ≡ None }
    requires new { IfSome name (λ name. get table.old.numbers name ≡ None) }
    requires room { IsSome name → 0 < table.old.spare }
    ensures names { (n : ℕ) → name_of table.new.numbers n
        ≡ cond (number == n) name (name_of table.old.numbers n) }
    ensures spare { table.old.spare ≤ table.new.spare + cond (is_some name) 1 0 }
    ensures one_to_one { IsOneToOne table.new.numbers }
{
    let Some(name) = name else {
        return;
    };
    match table.add(name, number) {
        Ok(()) => (),
        Err(_) => unreachable!(),
    }
}
