//! The rows that a file of maps uses.
ghost use Rattle.std.specs.Prelude.{◌≡◌, ◌≢◌, ◌<◌, ◌++◌, ◌∷◌, ℕ, List, [], AllPairs, IfOk, IfSome, OnOk, bytes_eq, length, map};
ghost use Rattle.std.specs.Option.{option_copied};
ghost use Rattle.std.specs.Result.{result_map_both};
ghost use Rattle.indexmap.specs.IndexMap.{UpdatesBy, get};
ghost use Rattle.map_file.specs.Shaped.{IsShaped};
ghost use Rattle.mapped_model.specs.Tells.{TellsUses};
ghost use Rattle.mapped_model.specs.Uses.{is_free_vector, map_at, named_in, usable};

use crate::fault::MappingFault;
use indexmap::IndexMap;
use lists::{Duplicate, Memory};
use map_file::{MapFile, UseText};
use model_store::UserModel;
use name_index::Name;
use set_core::Set;
use std::alloc::Global;
use user_model::{Row, Rows, UserFunc};

/// The rows that the uses name, in their order. `BadMaps` reports the first wrong line of the file:
/// where a use names a row that isn't there, isn't a vector affine one in Reals, has another dimension
/// than its map, or is named by an earlier use; or where the file's form is wrong.
pub(crate) fn used_rows<'a>(
    alloc: Global,
    model: &'a UserModel,
    file: &MapFile,
) -> Result<Vec<&'a Row>, MappingFault>
    requires { IsShaped file.now }
    ensures { TellsUses model.now.model file.now
        (result_map_both (λ rows. map (λ r. r.now) rows.items) (λ e. e) result) }
{
    let mut unused = rows_by_name(alloc, model.rows())?;
    let mut used = Vec::with_capacity(alloc, file.uses.len())?;
    for use_ in file.uses.as_slice() {
        let Some(row) = take_usable(&mut unused, file, use_) else {
            return Err(MappingFault::BadMaps { line: use_.line });
        };
        push_row(&mut used, row)?;
    }
    match file.wrong {
        Some(line) => Err(MappingFault::BadMaps { line }),
        None => Ok(used),
    }
}

fn push_row<'a>(rows: &mut Vec<&'a Row>, row: &'a Row) -> Result<(), Memory>
    ensures { OnOk result (rows.new.items ≡ rows.old.items ++ row.entry ∷ []) }
{
    rows.push(row)?;
    Ok(())
}

// The rows by their names.
#[tactic(auto, using(crate::proofs::Filling::nothing_filled))]
fn rows_by_name<'a>(alloc: Global, rows: &'a Rows) -> Result<IndexMap<Name, &'a Row>, Memory>
    requires { AllPairs (λ r s. r.name ≢ s.name) rows.now.items }
    ensures { IfOk result (λ found. (name : List ℕ)
        → option_copied (get bytes_eq found name) ≡ named_in rows.now.items name) }
{
    let mut found = IndexMap::new(alloc);
    for row in rows.iter() {
        found.insert(row.name.copy()?, row)?;
    }
    Ok(found)
}

// Takes out the row that a use names, where it is one that the map fits.
fn take_usable<'a>(
    unused: &mut IndexMap<Name, &'a Row>,
    file: &MapFile,
    use_: &UseText,
) -> Option<&'a Row>
    requires { use_.now.map < length file.now.maps }
    ensures value { option_copied result
        ≡ usable file.now.maps (option_copied (get bytes_eq unused.old use_.now.row)) use_.now }
    ensures taken { IfSome result (λ _.
        UpdatesBy bytes_eq (bytes_eq use_.now.row) unused.old unused.new None) }
{
    let row = unused.swap_remove(&use_.row)?;
    let fits = is_free_vector(row, size_at(file, use_.map));
    if fits { Some(row) } else { None }
}

// The dimension of the map at a place.
fn size_at(file: &MapFile, place: usize) -> usize
    requires { place < length file.now.maps }
    ensures { result ≡ (map_at file.now.maps place).size }
{
    file.maps.as_slice()[place].size
}

// Whether a row is a vector affine one of this dimension in Reals.
fn is_free_vector(row: &Row, size: usize) -> bool
    ensures { result ≡ is_free_vector size row.now }
{
    match (&row.func, &row.set) {
        (UserFunc::AffineVec(fs), Set::Reals { .. }) => fs.len() == size,
        _ => false,
    }
}
