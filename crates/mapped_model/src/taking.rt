//! Mapped rows, and certificates with their duals taken back.
ghost use Rattle.std.specs.Prelude.{◌≡◌, ◌<◌, ◌++◌, ◌∷◌, [], OnOk, length, map, slice_index_or};
ghost use Rattle.std.specs.Result.{result_map_both};
ghost use Rattle.map_file.specs.Shaped.{IsShaped};
ghost use Rattle.mapped_model.specs.Taking.{TellsDual, TellsDuals, TellsEach};
ghost use Rattle.mapped_model.specs.Tells.{AreDualsFor, HasDualsFor, TellsBack, matrix_in};
ghost use Rattle.mapped_model.specs.Uses.{matrix_of};

use crate::fault::MappingFault;
use certificates::{Certificate, DualRows};
use lists::{Duplicate, Memory, Sequence};
use map_file::{MapFile, UseText};
use ratio_core::{NumberFault, Ratios};
use set_map::SetMap;
use std::marker::Model;

/// The rows of a model that a file of maps uses, mapped. Contracts see them as the file.
#[derive(Drop)]
pub struct MappedRows {
    maps: Vec<SetMap>,
    file: MapFile,
}

impl Model for MappedRows {
    ghost use Rattle.map_file.specs.declared.file.MapFile.{MapFile};
    ghost use Rattle.mapped_model.specs.Kept.{AreMapsOf};

    ghost Value = { MapFile };

    ghost view = { λ rows. rows.file };

    ghost invariant = { λ rows. AreMapsOf rows.maps.items rows.file };
}

impl MappedRows {
    /// The rows of a file whose maps were read.
    pub(crate) fn of_file(maps: Vec<SetMap>, file: MapFile) -> MappedRows
        requires shaped { IsShaped file }
        requires maps { maps.items ≡ map matrix_of file.maps }
        ensures { result ≡ file }
    {
        MappedRows { maps, file }
    }

    /// A certificate of the model with the mapped rows, which are its last ones in the order of the
    /// uses, with the duals of these taken back through their maps. `Overflow` reports the row of the
    /// first whose duals then exceed 128 bits.
    pub fn take_back(&self, certificate: Certificate) -> Result<Certificate, MappingFault>
        requires { HasDualsFor self.now certificate }
        ensures { TellsBack self.now certificate result }
    {
        certificate_back(certificate, &self.maps, &self.file)
    }
}

fn certificate_back(
    certificate: Certificate,
    maps: &[SetMap],
    file: &MapFile,
) -> Result<Certificate, MappingFault>
    requires shaped { IsShaped file.now }
    requires maps { maps.now ≡ map matrix_of file.now.maps }
    requires duals { HasDualsFor file.now certificate }
    ensures { TellsBack file.now certificate result }
{
    match certificate {
        Certificate::Optimal {
            value,
            x,
            rows,
            vars,
        } => match duals_back(rows, maps, file) {
            Ok(rows) => Ok(Certificate::Optimal {
                value,
                x,
                rows,
                vars,
            }),
            Err(fault) => Err(fault),
        },
        Certificate::Infeasible { gap, rows, vars } => match duals_back(rows, maps, file) {
            Ok(rows) => Ok(Certificate::Infeasible { gap, rows, vars }),
            Err(fault) => Err(fault),
        },
        Certificate::Unbounded { x, d } => Ok(Certificate::Unbounded { x, d }),
    }
}

fn duals_back(rows: DualRows, maps: &[SetMap], file: &MapFile) -> Result<DualRows, MappingFault>
    requires shaped { IsShaped file.now }
    requires maps { maps.now ≡ map matrix_of file.now.maps }
    requires duals { AreDualsFor file.now rows }
    ensures { TellsDuals file.now rows result }
{
    let mut duals = rows.into_vec();
    let mapped = duals.split_off(duals.len() - file.uses.len())?;
    match push_back(&mut duals, &mapped, maps, file) {
        Ok(()) => Ok(Sequence::from_vec(duals)),
        Err(fault) => Err(fault),
    }
}

// Appends the duals of the uses, taken back.
fn push_back(
    duals: &mut Vec<Ratios>,
    mapped: &[Ratios],
    maps: &[SetMap],
    file: &MapFile,
) -> Result<(), MappingFault>
    requires shaped { IsShaped file.now }
    requires maps { maps.now ≡ map matrix_of file.now.maps }
    requires sizes { map (λ y. length y) mapped.now
        ≡ map (λ u. length (matrix_in file.now.maps u)) file.now.uses }
    ensures { TellsEach file.now.maps file.now.uses mapped.now duals.old.items
        (result_map_both (λ _. duals.new.items) (λ e. e) result) }
{
    for (i, use_) in file.uses.as_slice().iter().enumerate() {
        match dual_back(map_at(maps, use_.map), use_, dual_at(mapped, i)) {
            Ok(back) => push_dual(duals, back)?,
            Err(fault) => return Err(fault),
        }
    }
    Ok(())
}

/// The map at a place.
pub(crate) fn map_at(maps: &[SetMap], place: usize) -> &SetMap
    requires { place < length maps.now }
    ensures { result.now ≡ slice_index_or maps.now place [] }
{
    &maps[place]
}

fn dual_at(duals: &[Ratios], i: usize) -> &Ratios
    requires { i < length duals.now }
    ensures { result.now ≡ slice_index_or duals.now i [] }
{
    &duals[i]
}

fn push_dual(duals: &mut Vec<Ratios>, dual: Ratios) -> Result<(), Memory>
    ensures { OnOk result (duals.new.items ≡ duals.old.items ++ dual ∷ []) }
{
    duals.push(dual)?;
    Ok(())
}

fn dual_back(map: &SetMap, use_: &UseText, y: &Ratios) -> Result<Ratios, MappingFault>
    requires { length y.now ≡ length map.now }
    ensures { TellsDual map.now use_.now.row y.now result }
{
    match map.back(y) {
        Ok(w) => Ok(w),
        Err(NumberFault::Overflow) => Err(MappingFault::Overflow {
            row: use_.row.copy()?,
        }),
        Err(NumberFault::Memory) => Err(MappingFault::Memory),
    }
}
