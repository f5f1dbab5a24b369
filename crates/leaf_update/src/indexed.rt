//! Native rows and objectives as the solver's model has them: by the indices of their variables.
ghost use Rattle.std.specs.Prelude.{◌≡◌, Some, IfOk, IfSome, IsSome, All, map};
ghost use Rattle.std.specs.FinMap as finite;
ghost use Rattle.fresh_bridging.specs.Leaves.{leaf_objectives, leaf_rows};
ghost use Rattle.leaf_update.specs.Leaves.{HasNativeForm};
ghost use Rattle.leaf_update.specs.Named.{HasIndices, IsIndexed, ObjectiveNames, RowNames, indexed_terms};
ghost use Rattle.leaf_update.specs.Puts.{objective_at, row_at};
ghost use Rattle.leaf_model.specs.ReadThrough.{address_in, named};
ghost use Rattle.std.specs.List.Sorted.{IsPermutation};
ghost use Rattle.address_map.specs.Places.{AreIndicesOneToOne};
ghost use Rattle.aff_core.specs.Function.{terms_of};
ghost use Rattle.solver_store.specs.SolverFunction.{IndicesRise};
ghost use Rattle.std_form.specs.NameLaws.{NamesNamed};

use address_map::AddressMap;
use aff_core::{Address, Aff};
use item_core::{Body, Item};
use lists::{Memory, Sequence};
use ratio_core::Ratio;
use solver_store::{LeafObjective, LeafRow, SolverAff};
use std::alloc::Global;

// A native row, and `None` for another leaf.
pub(crate) fn leaf_row(
    alloc: Global,
    map: &AddressMap,
    leaf: &Item,
) -> Result<Option<LeafRow>, Memory>
    requires form { HasNativeForm leaf.now.body }
    requires indexed { HasIndices map.now.vars.indices leaf.now }
    ensures row { IfOk result
        (λ row. row_at map.now.vars.indices leaf.now.at row ≡ leaf_rows leaf.now) }
    ensures names { IfOk result (λ row. IfSome row (RowNames map.now.vars.indices)) }
{
    match &leaf.body {
        Body::Plain { var, set } => Ok(Some(LeafRow::Plain {
            var: index_of(map, var),
            set: set.copy(alloc)?,
        })),
        Body::Affine { func, set } => Ok(Some(LeafRow::Affine {
            func: by_index(alloc, map, func)?,
            set: set.copy(alloc)?,
        })),
        Body::AffineVec { func, set } => Ok(Some(LeafRow::AffineVec {
            func: each_by_index(alloc, map, func.as_slice())?,
            set: set.copy(alloc)?,
        })),
        _ => Ok(None),
    }
}

// A native objective, and `None` for another leaf.
pub(crate) fn leaf_objective(
    alloc: Global,
    map: &AddressMap,
    leaf: &Item,
) -> Result<Option<LeafObjective>, Memory>
    requires { HasIndices map.now.vars.indices leaf.now }
    ensures objective { IfOk result (λ objective.
        objective_at map.now.vars.indices leaf.now.at objective ≡ leaf_objectives leaf.now) }
    ensures names { IfOk result
        (λ objective. IfSome objective (ObjectiveNames map.now.vars.indices)) }
{
    match &leaf.body {
        Body::PlainObj { sense, var } => Ok(Some(LeafObjective::Plain {
            sense: *sense,
            var: index_of(map, var),
        })),
        Body::AffineObj { sense, func } => Ok(Some(LeafObjective::Affine {
            sense: *sense,
            func: by_index(alloc, map, func)?,
        })),
        _ => Ok(None),
    }
}

fn each_by_index(
    alloc: Global,
    places: &AddressMap,
    funcs: &[Aff],
) -> Result<Sequence<SolverAff>, Memory>
    requires { All (IsIndexed places.now.vars.indices) funcs.now }
    ensures same { IfOk result (λ fs. map (named places.now.vars.indices) fs ≡ funcs.now) }
    ensures names { IfOk result (All (NamesNamed places.now.vars.indices)) }
{
    let mut made = Vec::with_capacity(alloc, funcs.len())?;
    for func in funcs {
        made.push(by_index(alloc, places, func)?)?;
    }
    Ok(Sequence::from_vec(made))
}

// The function of the indices that its addresses have.
fn by_index(alloc: Global, map: &AddressMap, func: &Aff) -> Result<SolverAff, Memory>
    requires { IsIndexed map.now.vars.indices func.now }
    ensures same { IfOk result (λ f. named map.now.vars.indices f ≡ func.now) }
    ensures names { IfOk result (NamesNamed map.now.vars.indices) }
{
    let terms = sorted_terms(alloc, map, func)?;
    let made = SolverAff::from_terms(alloc, terms.as_slice(), func.constant())?;
    Ok(made)
}

// The terms by their indices, in the order of these.
fn sorted_terms(alloc: Global, map: &AddressMap, func: &Aff) -> Result<Vec<(usize, Ratio)>, Memory>
    requires { IsIndexed map.now.vars.indices func.now }
    ensures permutation { IfOk result (λ terms.
        IsPermutation (indexed_terms map.now.vars.indices (terms_of func.now)) terms.items) }
    ensures rising { IfOk result (λ terms. IndicesRise terms.items) }
    ensures one_to_one { AreIndicesOneToOne map.now.vars.indices }
{
    // what this ensures of the map
    let _one_to_one = map.var_at(0);
    let mut terms = indexed_terms(alloc, map, func)?;
    terms.sort_unstable_by_key(|term| term.0);
    Ok(terms)
}

// The terms by their indices.
fn indexed_terms(alloc: Global, map: &AddressMap, func: &Aff) -> Result<Vec<(usize, Ratio)>, Memory>
    requires { IsIndexed map.now.vars.indices func.now }
    ensures { IfOk result (λ terms.
        terms.items ≡ indexed_terms map.now.vars.indices (terms_of func.now)) }
{
    let mut terms = Vec::with_capacity(alloc, func.term_count())?;
    for (at, coefficient) in func.terms() {
        terms.push((index_of(map, at), *coefficient))?;
    }
    Ok(terms)
}

fn index_of(map: &AddressMap, at: &Address) -> usize
    requires { IsSome (finite.get map.now.vars.indices at.now) }
    ensures value { finite.get map.now.vars.indices at.now ≡ Some result }
    ensures read { address_in map.now.vars.indices result ≡ at.now }
{
    let Some(i) = map.var_index(at) else {
        unreachable!()
    };
    i
}
