//! The model with the mapped rows.
ghost use Rattle.std.specs.Prelude.{◌≡◌, IfOk, None, OnErr, map};
ghost use Rattle.std.specs.List.{list_any};
ghost use Rattle.map_file.specs.Shaped.{IsShaped};
ghost use Rattle.mapped_model.specs.Answers.{MapsRows};
ghost use Rattle.mapped_model.specs.Edits.{IsMappingPlan, MakesEdits, PlansMapping, TellsUnmade};
ghost use Rattle.mapped_model.specs.Mapping.{is_lone};
ghost use Rattle.mapped_model.specs.Stands.{StandsFor};
ghost use Rattle.mapped_model.specs.Tells.{AreMapsRight};
ghost use Rattle.mapped_model.specs.Uses.{matrix_of, uses_in, wrong_line};

use crate::edits::{RowEdits, row_edits};
use crate::fault::MappingFault;
use crate::maps::set_maps;
use crate::taking::MappedRows;
use crate::used::used_rows;
use map_file::MapFile;
use model_load::{Unmade, load_all, make_all, take_back_all};
use model_store::UserModel;
use name_index::Name;
use set_core::Set;
use set_map::SetMap;
use std::alloc::Global;
use user_model::{ApplyFault, Edit, Refusal, Row};

/// Deletes each row that the file uses and adds it again under its name as M f in the cone, in the
/// order of the uses. Where it can't, it changes nothing and reports the first of these: a wrong line,
/// a map whose matrices aren't inverse, a norm cone of one number, and use by use a number that
/// exceeds 128 bits or a limit of models.
pub fn map_rows(
    alloc: Global,
    model: &mut UserModel,
    file: MapFile,
) -> Result<MappedRows, MappingFault>
    requires { IsShaped file }
    ensures maps { MapsRows model.old file result model.new }
    ensures stands { IfOk result (λ _. StandsFor model.old.model (uses_in model.old.model file)
        model.new.model) }
    ensures kept { OnErr result (model.new ≡ model.old) }
{
    match planned(alloc, model, &file) {
        Ok(plan) => made(model, plan, file),
        Err(fault) => Err(fault),
    }
}

// Does to a model what was planned, or nothing.
fn made(model: &mut UserModel, plan: MappingPlan, file: MapFile) -> Result<MappedRows, MappingFault>
    requires shaped { IsShaped file }
    requires planned { IsMappingPlan model.old.model file plan }
    ensures maps { MapsRows model.old file result model.new }
    ensures stands { IfOk result (λ _. StandsFor model.old.model (uses_in model.old.model file)
        model.new.model) }
    ensures kept { OnErr result (model.new ≡ model.old) }
{
    let MappingPlan { maps, edits } = plan;
    let RowEdits { edits, exceeds } = edits;
    match exceeds {
        Some(row) => Err(why_unmade(model, edits, row)),
        None => match make(model, edits) {
            Ok(()) => Ok(MappedRows::of_file(maps, file)),
            Err(fault) => Err(fault),
        },
    }
}

// Why edits before a row whose numbers exceed 128 bits aren't made: the first that is refused, or else
// that row. It changes nothing.
fn why_unmade(model: &mut UserModel, edits: Vec<Edit>, row: Name) -> MappingFault
    ensures why { TellsUnmade model.old.model edits.items row result }
    ensures kept { model.new ≡ model.old }
{
    match make_all(model, edits) {
        Ok(undos) => {
            take_back_all(model, undos);
            MappingFault::Overflow { row }
        }
        Err(Unmade::Refused { refusal, .. }) => MappingFault::Refused(refusal),
        Err(Unmade::Memory) => MappingFault::Memory,
    }
}

// The maps, and the edits of the model.
#[derive(Drop)]
struct MappingPlan {
    maps: Vec<SetMap>,
    edits: RowEdits,
}

// What is to be done to a model, or why nothing is.
fn planned(alloc: Global, model: &UserModel, file: &MapFile) -> Result<MappingPlan, MappingFault>
    requires { IsShaped file.now }
    ensures { PlansMapping model.now.model file.now result }
{
    match used_rows(alloc, model, file) {
        Ok(rows) => planned_with(alloc, model, file, &rows),
        Err(fault) => Err(fault),
    }
}

// What is to be done, where the used rows are found.
fn planned_with(
    alloc: Global,
    model: &UserModel,
    file: &MapFile,
    rows: &[&Row],
) -> Result<MappingPlan, MappingFault>
    requires shaped { IsShaped file.now }
    requires right { wrong_line model.now.model file.now ≡ None }
    requires rows { map (λ r. r.now) rows.now ≡ map (λ u. u.row) (uses_in model.now.model file.now) }
    ensures { PlansMapping model.now.model file.now result }
{
    match set_maps(alloc, file) {
        Ok(maps) => planned_by(alloc, model, file, rows, maps),
        Err(fault) => Err(fault),
    }
}

// What is to be done, where the maps are read too.
fn planned_by(
    alloc: Global,
    model: &UserModel,
    file: &MapFile,
    rows: &[&Row],
    maps: Vec<SetMap>,
) -> Result<MappingPlan, MappingFault>
    requires shaped { IsShaped file.now }
    requires right { AreMapsRight model.now.model file.now }
    requires rows { map (λ r. r.now) rows.now ≡ map (λ u. u.row) (uses_in model.now.model file.now) }
    requires maps { maps.items ≡ map matrix_of file.now.maps }
    ensures { PlansMapping model.now.model file.now result }
{
    if has_lone(file) {
        return Err(MappingFault::Refused(Refusal::BadDimension));
    }
    // what this ensures: the model is valid
    let _valid = model.rows();
    let edits = row_edits(alloc, model, file, &maps, rows)?;
    Ok(MappingPlan { maps, edits })
}

// Whether a use has a norm cone of one number.
fn has_lone(file: &MapFile) -> bool
    ensures { result ≡ list_any (λ u. is_lone u.set) file.now.uses }
{
    file.uses.as_slice().iter().any(|use_| is_lone(&use_.set))
}

fn is_lone(set: &Set) -> bool
    ensures { result ≡ is_lone set.now }
{
    matches!(
        set,
        Set::NormInfinityCone { dimension: 1 } | Set::NormOneCone { dimension: 1 }
    )
}

fn make(model: &mut UserModel, edits: Vec<Edit>) -> Result<(), MappingFault>
    ensures made { MakesEdits model.old edits.items result model.new }
    ensures kept { OnErr result (model.new ≡ model.old) }
{
    match load_all(model, edits) {
        Ok(()) => Ok(()),
        Err(ApplyFault::Refused(refusal)) => Err(MappingFault::Refused(refusal)),
        Err(ApplyFault::Memory) => Err(MappingFault::Memory),
    }
}
