//! The edits that put M f in the place of each used row's f.
ghost use Rattle.std.specs.Prelude.{◌≡◌, ◌<◌, ◌++◌, ◌∷◌, [], true, IfOk, OnOk, length, map, slice_index_or};
ghost use Rattle.certificates.specs.Points.{functions_of};
ghost use Rattle.map_file.specs.Shaped.{IsShaped};
ghost use Rattle.mapped_model.specs.Edits.{IsMappedFunction, Pushes};
ghost use Rattle.mapped_model.specs.Mapping.{AreEditsFor, edits_by};
ghost use Rattle.mapped_model.specs.Tells.{AreMapsRight};
ghost use Rattle.mapped_model.specs.Uses.{matrix_of, uses_in};
ghost use Rattle.mof_laws.specs.ReadBack.{named_function};
ghost use Rattle.mof_round_trip_laws.specs.Functions.{IsPlaced};
ghost use Rattle.mof_write.specs.Written.{naming};
ghost use Rattle.user_model.specs.Functions.{is_vector_affine};
ghost use Rattle.user_model.specs.Valid.{IsValidRow};

use crate::taking::map_at;
use lists::{Duplicate, Memory};
use map_file::MapFile;
use model_store::UserModel;
use name_index::Name;
use ratio_core::NumberFault;
use row_again::named_function;
use set_core::Set;
use set_map::SetMap;
use std::alloc::Global;
use user_model::{Edit, Row, UserFunc};

/// The edits for the uses before the first whose numbers exceed 128 bits, and the name of that one's
/// row.
#[derive(Drop)]
pub(crate) struct RowEdits {
    pub(crate) edits: Vec<Edit>,
    pub(crate) exceeds: Option<Name>,
}

/// Deletes each used row, and adds it again under its name as M f in the cone.
pub(crate) fn row_edits(
    alloc: Global,
    model: &UserModel,
    file: &MapFile,
    maps: &[SetMap],
    rows: &[&Row],
) -> Result<RowEdits, Memory>
    requires shaped { IsShaped file.now }
    requires right { AreMapsRight model.now.model file.now }
    requires maps { maps.now ≡ map matrix_of file.now.maps }
    requires rows { map (λ r. r.now) rows.now ≡ map (λ u. u.row) (uses_in model.now.model file.now) }
    ensures { IfOk result (λ made. AreEditsFor model.now.model (uses_in model.now.model file.now)
        made.edits.items made.exceeds) }
{
    // what this ensures: the model is valid
    let _valid = model.rows();
    let mut edits = Vec::new(alloc);
    for (i, use_) in file.uses.as_slice().iter().enumerate() {
        let row = row_at(rows, i);
        let map = map_at(maps, use_.map);
        if !push_edits(alloc, model, row, map, &use_.set, &mut edits)? {
            return Ok(RowEdits {
                edits,
                exceeds: Some(row.name.copy()?),
            });
        }
    }
    Ok(RowEdits {
        edits,
        exceeds: None,
    })
}

fn row_at<'a>(rows: &[&'a Row], i: usize) -> &'a Row
    requires { i < length rows.now }
    ensures { result.now ≡ slice_index_or (map (λ r. r.now) rows.now) i result.now }
{
    rows[i]
}

// Appends the edits of a used row, and gives whether its numbers fit.
fn push_edits(
    alloc: Global,
    model: &UserModel,
    row: &Row,
    map: &SetMap,
    cone: &Set,
    edits: &mut Vec<Edit>,
) -> Result<bool, Memory>
    requires vector { is_vector_affine row.now.func ≡ true }
    requires size { length (functions_of row.now.func) ≡ length map.now }
    requires valid { IsValidRow model.now.model.groups row.now }
    ensures { IfOk result (λ fits. Pushes fits map.now row.now edits.old.items
        (edits_by (naming model.now.model) row.now map.now cone.now) edits.new.items) }
{
    let func = mapped_function(row, map)?;
    match func {
        Some(mapped) => {
            push_pair(alloc, model, row, &mapped, cone, edits)?;
            Ok(true)
        }
        None => Ok(false),
    }
}

// Appends the edits that put a function and a cone in the place of a row's.
fn push_pair(
    alloc: Global,
    model: &UserModel,
    row: &Row,
    func: &UserFunc,
    cone: &Set,
    edits: &mut Vec<Edit>,
) -> Result<(), Memory>
    requires { IsPlaced model.now.model func.now }
    ensures { OnOk result (edits.new.items ≡ edits.old.items ++ Edit.DeleteRow row.now.name
        ∷ Edit.AddRow row.now.name (named_function (naming model.now.model) func.now) cone.now
        ∷ []) }
{
    let delete = Edit::DeleteRow {
        row: row.name.copy()?,
    };
    push_edit(edits, delete)?;
    let add = added_row(alloc, model, row, func, cone)?;
    push_edit(edits, add)
}

fn added_row(
    alloc: Global,
    model: &UserModel,
    row: &Row,
    func: &UserFunc,
    cone: &Set,
) -> Result<Edit, Memory>
    requires { IsPlaced model.now.model func.now }
    ensures { IfOk result (λ edit. edit
        ≡ Edit.AddRow row.now.name (named_function (naming model.now.model) func.now) cone.now) }
{
    Ok(Edit::AddRow {
        name: row.name.copy()?,
        func: named_function(alloc, model, func)?,
        set: cone.copy(alloc)?,
    })
}

fn push_edit(edits: &mut Vec<Edit>, edit: Edit) -> Result<(), Memory>
    ensures { OnOk result (edits.new.items ≡ edits.old.items ++ edit ∷ []) }
{
    edits.push(edit)?;
    Ok(())
}

// M f, where its numbers fit.
fn mapped_function(row: &Row, map: &SetMap) -> Result<Option<UserFunc>, Memory>
    requires vector { is_vector_affine row.now.func ≡ true }
    requires size { length (functions_of row.now.func) ≡ length map.now }
    ensures { IfOk result (IsMappedFunction map.now row.now) }
{
    let UserFunc::AffineVec(fs) = &row.func else {
        unreachable!()
    };
    match map.forward(fs) {
        Ok(mapped) => Ok(Some(UserFunc::AffineVec(mapped))),
        Err(NumberFault::Overflow) => Ok(None),
        Err(NumberFault::Memory) => Err(Memory),
    }
}
