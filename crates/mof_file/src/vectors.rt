//! Affine functions of vectors.
ghost use Rattle.std.specs.Prelude.{◌≡◌, Some, None, IfOk, if◌then◌else◌};
ghost use Rattle.serde_json.specs.View.{view};
ghost use Rattle.mof_file.specs.Functions.{add_scalar_term, add_to_output, constants_of, output_of, term_of, vector_affine_of, vector_terms_of, with_term_at};
ghost use Rattle.mof_values.specs.Values.{field, walk_at};
ghost use Rattle.mof_values.specs.Walked.{MeetsWalk};

use crate::items::{AddItem, add_each};
use crate::terms::term;
use indexmap::IndexSet;
use lists::Memory;
use mof_values::{MofFault, array, at_key, field, here, integer, number, require_object};
use name_index::Name;
use named_aff::{AffSum, NamedTerm, NamedVec};
use serde_json::Value;
use std::alloc::Global;

/// The function that a value says.
pub(crate) fn vector_affine(
    alloc: Global,
    known: &IndexSet<Name>,
    value: &Value,
) -> Result<NamedVec, MofFault>
    ensures { MeetsWalk (λ funcs. funcs) result (vector_affine_of known.now.keys (view value.now)) }
{
    let components = components(alloc, known, value)?;
    let functions = functions(alloc, components)?;
    Ok(functions)
}

#[tactic(auto, unfolding(crate::specs::Functions::vector_affine_of))]
fn components(alloc: Global, known: &IndexSet<Name>, value: &Value) -> Result<Vec<AffSum>, MofFault>
    ensures { MeetsWalk (λ components. components.items) result
        (vector_affine_of known.now.keys (view value.now)) }
{
    let constants = constants_field(alloc, "constants", value)?;
    vector_terms_field(alloc, known, constants, "terms", value)
}

#[tactic(auto, using(mof_values::specs::WalkLaws::walk_at_steps))]
fn constants_field(alloc: Global, name: &str, value: &Value) -> Result<Vec<AffSum>, MofFault>
    ensures { MeetsWalk (λ constants. constants.items) result
        (walk_at constants_of name.now (view value.now)) }
{
    let found = field(alloc, name, value)?;
    at_key(alloc, name, constants(alloc, found))
}

#[tactic(auto, unfolding(crate::specs::Functions::constants_of))]
fn constants(alloc: Global, value: &Value) -> Result<Vec<AffSum>, MofFault>
    ensures { MeetsWalk (λ constants. constants.items) result (constants_of (view value.now)) }
{
    let items = array(alloc, value)?;
    let mut components = Vec::new(alloc);
    add_each(alloc, &(), &mut components, items)?;
    Ok(components)
}

// An item is the constant of one component more.
impl AddItem<()> for Vec<AffSum> {
    ghost use Rattle.std.specs.Prelude.{List};
    ghost use Rattle.named_aff.specs.declared.aff.NamedAff.{NamedAff};
    ghost use Rattle.mof_file.specs.Functions.{add_component};

    ghost Seen = { List NamedAff };

    ghost seen = { λ components. components.items };

    ghost with_item = { λ _. add_component };

    #[tactic(auto, unfolding(crate::specs::Functions::add_component))]
    fn add_item(&mut self, alloc: Global, _known: &(), item: &Value) -> Result<(), MofFault> {
        let constant = number(alloc, item)?;
        self.push(AffSum::of_constant(alloc, constant))?;
        Ok(())
    }
}

#[tactic(auto, using(mof_values::specs::WalkLaws::walk_at_steps))]
fn vector_terms_field(
    alloc: Global,
    known: &IndexSet<Name>,
    components: Vec<AffSum>,
    name: &str,
    value: &Value,
) -> Result<Vec<AffSum>, MofFault>
    ensures { MeetsWalk (λ components. components.items) result
        (walk_at (vector_terms_of known.now.keys components.items) name.now (view value.now)) }
{
    let found = field(alloc, name, value)?;
    at_key(alloc, name, vector_terms(alloc, known, components, found))
}

#[tactic(auto, unfolding(crate::specs::Functions::vector_terms_of))]
fn vector_terms(
    alloc: Global,
    known: &IndexSet<Name>,
    components: Vec<AffSum>,
    value: &Value,
) -> Result<Vec<AffSum>, MofFault>
    ensures { MeetsWalk (λ components. components.items) result
        (vector_terms_of known.now.keys components.items (view value.now)) }
{
    let items = array(alloc, value)?;
    let mut components = components;
    add_each(alloc, known, &mut components, items)?;
    Ok(components)
}

// An item is a term more of one of the components.
impl AddItem<IndexSet<Name>> for Vec<AffSum> {
    ghost use Rattle.std.specs.Prelude.{List};
    ghost use Rattle.named_aff.specs.declared.aff.NamedAff.{NamedAff};
    ghost use Rattle.mof_file.specs.Functions.{add_vector_term};

    ghost Seen = { List NamedAff };

    ghost seen = { λ components. components.items };

    ghost with_item = { λ known. add_vector_term known.keys };

    #[tactic(auto, unfolding(crate::specs::Functions::add_vector_term))]
    fn add_item(
        &mut self,
        alloc: Global,
        known: &IndexSet<Name>,
        item: &Value,
    ) -> Result<(), MofFault> {
        require_object(alloc, item)?;
        add_to_output(alloc, known, self, item)
    }
}

#[tactic(auto, unfolding(crate::specs::Functions::add_to_output))]
fn add_to_output(
    alloc: Global,
    known: &IndexSet<Name>,
    components: &mut Vec<AffSum>,
    item: &Value,
) -> Result<(), MofFault>
    ensures { MeetsWalk (λ _. components.new.items) result
        (add_to_output known.now.keys components.old.items (view item.now)) }
{
    let output = output_index(alloc, components, item)?;
    add_scalar_term(alloc, known, components, output, item)
}

// Adds a term to the component at a place.
#[tactic(auto, unfolding(crate::specs::Functions::add_scalar_term))]
fn add_scalar_term(
    alloc: Global,
    known: &IndexSet<Name>,
    components: &mut Vec<AffSum>,
    output: usize,
    item: &Value,
) -> Result<(), MofFault>
    ensures { MeetsWalk (λ _. components.new.items) result
        (add_scalar_term known.now.keys components.old.items output (view item.now)) }
{
    let term = scalar_term(alloc, known, item)?;
    if add_to_component(components, output, term)? {
        Ok(())
    } else {
        Err(MofFault::BadNumber { place: here(alloc) })
    }
}

fn output_index(alloc: Global, components: &Vec<AffSum>, value: &Value) -> Result<usize, MofFault>
    ensures { MeetsWalk (λ output. output) result
        (field (output_of components.now.items) "output_index" (view value.now)) }
{
    output_field(alloc, components, "output_index", value)
}

#[tactic(auto, using(mof_values::specs::WalkLaws::walk_at_steps))]
fn output_field(
    alloc: Global,
    components: &Vec<AffSum>,
    name: &str,
    value: &Value,
) -> Result<usize, MofFault>
    ensures { MeetsWalk (λ output. output) result
        (walk_at (output_of components.now.items) name.now (view value.now)) }
{
    let found = field(alloc, name, value)?;
    at_key(alloc, name, output(alloc, components, found))
}

// The place of an output, which are counted from 1.
#[tactic(auto, unfolding(crate::specs::Functions::output_of))]
fn output(alloc: Global, components: &Vec<AffSum>, value: &Value) -> Result<usize, MofFault>
    ensures { MeetsWalk (λ output. output) result
        (output_of components.now.items (view value.now)) }
{
    let output = integer(alloc, value)? as usize;
    if output > 0 && output <= components.len() {
        Ok(output - 1)
    } else {
        Err(MofFault::Shape { place: here(alloc) })
    }
}

fn scalar_term(alloc: Global, known: &IndexSet<Name>, value: &Value) -> Result<NamedTerm, MofFault>
    ensures { MeetsWalk (λ term. term) result
        (field (term_of known.now.keys) "scalar_term" (view value.now)) }
{
    term_field(alloc, known, "scalar_term", value)
}

#[tactic(auto, using(mof_values::specs::WalkLaws::walk_at_steps))]
fn term_field(
    alloc: Global,
    known: &IndexSet<Name>,
    name: &str,
    value: &Value,
) -> Result<NamedTerm, MofFault>
    ensures { MeetsWalk (λ term. term) result
        (walk_at (term_of known.now.keys) name.now (view value.now)) }
{
    let found = field(alloc, name, value)?;
    at_key(alloc, name, term(alloc, known, found))
}

// Adds a term to the component at a place, and says whether there is one and the sum fits.
fn add_to_component(
    components: &mut Vec<AffSum>,
    output: usize,
    term: NamedTerm,
) -> Result<bool, Memory>
    ensures { IfOk result (λ fits. with_term_at components.old.items output term
        ≡ (if fits then Some components.new.items else None)) }
{
    if output >= components.len() {
        return Ok(false);
    }
    components[output].add_term(term)
}

fn functions(alloc: Global, components: Vec<AffSum>) -> Result<NamedVec, Memory>
    ensures { IfOk result (λ functions. functions ≡ components.items) }
{
    let mut functions = Vec::with_capacity(alloc, components.len())?;
    for component in components {
        functions.push(component.into_function(alloc)?)?;
    }
    Ok(NamedVec::from_vec(functions))
}
