//! The maps of a file.
ghost use Rattle.std.specs.Prelude.{◌≡◌, ◌++◌, ◌∷◌, [], OnOk};
ghost use Rattle.std.specs.Result.{result_map_both};
ghost use Rattle.map_file.specs.Shaped.{IsMapWhole, IsShaped};
ghost use Rattle.mapped_model.specs.Tells.{TellsBad, TellsMap, TellsMaps};

use crate::fault::MappingFault;
use lists::{Duplicate, Memory};
use map_file::{MapFile, MapText};
use set_map::{MapFault, SetMap};
use std::alloc::Global;

/// The maps of a file, in its order. `BadMap` reports the first map whose matrices aren't inverse to
/// each other, or whose products exceed 128 bits.
pub(crate) fn set_maps(alloc: Global, file: &MapFile) -> Result<Vec<SetMap>, MappingFault>
    requires { IsShaped file.now }
    ensures { TellsMaps file.now.maps (result_map_both (λ maps. maps.items) (λ e. e) result) }
{
    let mut maps = Vec::with_capacity(alloc, file.maps.len())?;
    for text in file.maps.as_slice() {
        match map_of(alloc, text) {
            Ok(map) => push_map(&mut maps, map)?,
            Err(fault) => return Err(fault),
        }
    }
    Ok(maps)
}

fn map_of(alloc: Global, text: &MapText) -> Result<SetMap, MappingFault>
    requires { IsMapWhole text.now }
    ensures { TellsMap text.now result }
{
    match SetMap::read(alloc, text.matrix(), text.inverse()) {
        Ok(map) => Ok(map),
        Err(MapFault::NotInverse) => Err(bad_map(text)),
        Err(MapFault::Overflow) => Err(bad_map(text)),
        Err(MapFault::Memory) => Err(MappingFault::Memory),
    }
}

fn bad_map(text: &MapText) -> MappingFault
    ensures { TellsBad text.now result }
{
    match text.name.copy() {
        Ok(map) => MappingFault::BadMap { map },
        Err(_) => MappingFault::Memory,
    }
}

fn push_map(maps: &mut Vec<SetMap>, map: SetMap) -> Result<(), Memory>
    ensures { OnOk result (maps.new.items ≡ maps.old.items ++ map ∷ []) }
{
    maps.push(map)?;
    Ok(())
}
