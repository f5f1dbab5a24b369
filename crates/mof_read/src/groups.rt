//! Groups of variables with their creation sets.
ghost use Rattle.std.specs.Prelude.{◌≡◌, [], IfOk, OnOk, None, option_and_then, option_to_list, ◌++◌, slice_get, slice_set};
ghost use Rattle.std.specs.List.{list_all};
ghost use Rattle.mof_read.specs.Groups.{are_new, becomes_group, free_group, group_at, in_order, is_free, left_after, plain_names, with_owners};

use indexmap::{IndexMap, IndexSet};
use lists::{Duplicate, Memory};
use name_index::{Name, Names};
use set_core::Set;
use std::alloc::Global;
use std::mem;
use user_model::{Edit, NamedFunc};

/// Whether a constraint is the creation set of its variables.
pub(crate) fn becomes_group(
    alloc: Global,
    owners: &IndexMap<Name, usize>,
    func: &NamedFunc,
    set: &Set,
) -> Result<bool, Memory>
    ensures { IfOk result (λ becomes. becomes
        ≡ becomes_group owners.now.entries func.now set.now) }
{
    match func {
        NamedFunc::Plain(var) => Ok(set.is_scalar() && is_free(owners, var)),
        NamedFunc::PlainVec(vars) => {
            if set.is_scalar() || vars.is_empty() || !are_free(owners, vars.as_slice()) {
                return Ok(false);
            }
            are_distinct(alloc, vars.as_slice())
        }
        NamedFunc::Affine(_) | NamedFunc::AffineVec(_) => Ok(false),
    }
}

fn is_free(owners: &IndexMap<Name, usize>, name: &Name) -> bool
    ensures { result ≡ is_free owners.now.entries name.now }
{
    owners.get(name).is_none()
}

fn are_free(owners: &IndexMap<Name, usize>, names: &[Name]) -> bool
    ensures { result ≡ list_all (is_free owners.now.entries) names.now }
{
    for name in names {
        if !is_free(owners, name) {
            return false;
        }
    }
    true
}

fn are_distinct(alloc: Global, names: &[Name]) -> Result<bool, Memory>
    ensures { IfOk result (λ distinct. distinct ≡ are_new [] names.now) }
{
    let mut seen = IndexSet::new(alloc);
    for name in names {
        if seen.contains(name) {
            drop(seen);
            return Ok(false);
        }
        seen.insert(name.copy()?)?;
    }
    drop(seen);
    Ok(true)
}

/// The variables of a function without coefficients.
pub(crate) fn plain_names(alloc: Global, func: NamedFunc) -> Result<Names, Memory>
    ensures { IfOk result (λ names. names ≡ plain_names func) }
{
    match func {
        NamedFunc::Plain(var) => Ok(Names::from_vec(vec![in alloc; var]?)),
        NamedFunc::PlainVec(vars) => Ok(vars),
        NamedFunc::Affine(_) | NamedFunc::AffineVec(_) => Ok(Names::new(alloc)),
    }
}

/// Puts variables into a group.
pub(crate) fn put_owners(
    owners: &mut IndexMap<Name, usize>,
    names: &[Name],
    group: usize,
) -> Result<(), Memory>
    ensures { OnOk result (owners.new.entries ≡ with_owners owners.old.entries names.now group) }
{
    for name in names {
        let _ = owners.insert(name.copy()?, group)?;
    }
    Ok(())
}

/// Appends the groups, each at the first of its variables, in the order of the file's variables.
pub(crate) fn put_groups(
    alloc: Global,
    edits: &mut Vec<Edit>,
    owners: &IndexMap<Name, usize>,
    left: &mut Vec<Option<Edit>>,
    variables: IndexSet<Name>,
) -> Result<(), Memory>
    ensures { OnOk result (edits.new.items ≡ edits.old.items
        ++ in_order owners.now.entries left.old.items variables.keys) }
{
    edits.reserve(variables.len())?;
    for name in variables {
        let owner = owners.get(&name).copied();
        put_group(alloc, edits, left, owner, name)?;
    }
    Ok(())
}

// Puts the group last that comes at a variable, if one does.
fn put_group(
    alloc: Global,
    edits: &mut Vec<Edit>,
    left: &mut Vec<Option<Edit>>,
    owner: Option<usize>,
    name: Name,
) -> Result<(), Memory>
    ensures edits { OnOk result (edits.new.items
        ≡ edits.old.items ++ option_to_list (group_at left.old.items owner name)) }
    ensures left { OnOk result (left.new.items ≡ left_after left.old.items owner) }
{
    match take_group(alloc, left, owner, name)? {
        Some(group) => Ok(edits.push(group)?),
        None => Ok(()),
    }
}

// The group that comes at a variable: its own, unless it came before.
fn take_group(
    alloc: Global,
    left: &mut Vec<Option<Edit>>,
    owner: Option<usize>,
    name: Name,
) -> Result<Option<Edit>, Memory>
    ensures group { IfOk result (λ group. group ≡ group_at left.old.items owner name) }
    ensures left { OnOk result (left.new.items ≡ left_after left.old.items owner) }
{
    match owner {
        Some(place) => Ok(take_at(left, place)),
        None => Ok(Some(free_group(alloc, name)?)),
    }
}

fn take_at(left: &mut Vec<Option<Edit>>, place: usize) -> Option<Edit>
    ensures group { result ≡ option_and_then (λ group. group) (slice_get left.old.items place) }
    ensures left { left.new.items ≡ slice_set left.old.items place None }
{
    if place < left.len() {
        mem::replace(&mut left[place], None)
    } else {
        None
    }
}

// The group of a variable that is in no creation set.
fn free_group(alloc: Global, name: Name) -> Result<Edit, Memory>
    ensures { IfOk result (λ group. group ≡ free_group name) }
{
    let names = Names::from_vec(vec![in alloc; name]?);
    Ok(Edit::AddGroup {
        names,
        set: Set::Reals { dimension: 1 },
    })
}
