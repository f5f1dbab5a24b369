//! What is answered to a command.
ghost use Rattle.std.specs.Prelude.{◌≡◌, ◌≢◌, ◌≤◌, [], ◌∷◌, All, Err, IfErr, IfOk, IsTrue, Ok, length};
ghost use Rattle.std.specs.Prelude as prelude;
ghost use Rattle.std.specs.FinMap as finite;
ghost use Rattle.bridge_set.specs.Bridges.{families_of, occur_once};
ghost use Rattle.file_command.specs.Loading.{AnswersFile};
ghost use Rattle.io_face.specs.Fault.{HasFaulted};
ghost use Rattle.io_face.specs.Shelf.{AsksFor, file_limit};
ghost use Rattle.io_face.specs.Told.{told_by};
ghost use Rattle.map_file.specs.Lines.{file_in};
ghost use Rattle.map_file.specs.Shaped.{IsShaped};
ghost use Rattle.model_command.specs.Alone.{standard_by};
ghost use Rattle.setmap_command.specs.Files.{AsksModelAndMaps, FetchesFile, SaysOfMaps, fetch_answer};
ghost use Rattle.setmap_command.specs.Says.{SaysFile};

use crate::command::MappedCommand;
use crate::solving::solved;
use crate::telling::tell_mapping;
use bridge_face::Bridge;
use file_command::model_of;
use io_face::{FetchFault, Shelf};
use lists::Memory;
use map_file::{MapFile, read};
use mapped_model::map_rows;
use model_store::UserModel;
use name_index::Name;
use report_core::Answer;
use std::alloc::Global;

/// What is answered to a command. The model's file is asked for first and once; the maps' once, and
/// only for a model that was made.
pub(crate) fn answer<H: Shelf, B: Bridge>(
    alloc: Global,
    command: &MappedCommand,
    shelf: &mut H,
    bridges: Vec<B>,
) -> Answer
    requires once { IsTrue (occur_once (families_of (prelude.map B.state bridges.items))) }
    requires kept { All (λ s. s.kept ≡ finite.empty) (prelude.map B.state bridges.items) }
    ensures answers { let setting = standard_by (prelude.map B.state bridges.items) in
        let told = told_by (H.files shelf.old) (H.sure shelf.old) in
        result ≢ Answer.Memory
        → AnswersFile (SaysOfMaps setting told command.now.maps) told command.now.model result }
    ensures cause { result ≡ Answer.ReadFault
        → HasFaulted (H.faults shelf.old) (H.faults shelf.new) }
    ensures sound { result ≢ Answer.ReadFault → H.faults shelf.new ≡ H.faults shelf.old }
    ensures asks { result ≢ Answer.Memory
        → AsksModelAndMaps (told_by (H.files shelf.old) (H.sure shelf.old)) command.now.model
        command.now.maps (AsksFor (H.asked shelf.old) (H.asked shelf.new)) }
{
    match model_of(alloc, shelf, &command.model) {
        Ok(model) => answer_on(alloc, model, shelf, &command.maps, bridges),
        Err(answer) => answer,
    }
}

// What is answered to a model, by the file of the maps.
fn answer_on<H: Shelf, B: Bridge>(
    alloc: Global,
    model: UserModel,
    shelf: &mut H,
    maps: &Name,
    bridges: Vec<B>,
) -> Answer
    requires settled { model.parked ≡ [] }
    requires once { IsTrue (occur_once (families_of (prelude.map B.state bridges.items))) }
    requires kept { All (λ s. s.kept ≡ finite.empty) (prelude.map B.state bridges.items) }
    ensures says { result ≢ Answer.Memory
        → SaysOfMaps (standard_by (prelude.map B.state bridges.items))
        (told_by (H.files shelf.old) (H.sure shelf.old)) maps.now model.model result }
    ensures cause { result ≡ Answer.ReadFault
        → HasFaulted (H.faults shelf.old) (H.faults shelf.new) }
    ensures sound { result ≢ Answer.ReadFault → H.faults shelf.new ≡ H.faults shelf.old }
    ensures asks { result ≢ Answer.Memory
        → AsksFor (H.asked shelf.old) (H.asked shelf.new) (maps.now ∷ []) }
{
    match fetch_maps(alloc, shelf, maps) {
        Ok(file) => answer_maps(alloc, model, file, bridges).unwrap_or(Answer::Memory),
        Err(fault) => {
            drop(model);
            tell_fetch(fault)
        }
    }
}

// What is answered to a model and what its maps say.
fn answer_maps<B: Bridge>(
    alloc: Global,
    model: UserModel,
    file: MapFile,
    bridges: Vec<B>,
) -> Result<Answer, Memory>
    requires shaped { IsShaped file }
    requires settled { model.parked ≡ [] }
    requires once { IsTrue (occur_once (families_of (prelude.map B.state bridges.items))) }
    requires kept { All (λ s. s.kept ≡ finite.empty) (prelude.map B.state bridges.items) }
    ensures says { IfOk result (SaysFile
        (standard_by (prelude.map B.state bridges.items)) file model.model) }
    ensures no_fault { result ≢ Ok Answer.ReadFault }
{
    let mut model = model;
    match map_rows(alloc, &mut model, file) {
        Ok(rows) => solved(alloc, model, &rows, bridges),
        Err(fault) => {
            drop(model);
            tell_mapping(alloc, fault)
        }
    }
}

// What the file of a name says of maps. It is asked for once, and no other is.
fn fetch_maps<H: Shelf>(alloc: Global, shelf: &mut H, name: &Name) -> Result<MapFile, FetchFault>
    ensures fetches { FetchesFile (told_by (H.files shelf.old) (H.sure shelf.old)) name.now result }
    ensures shaped { IfOk result IsShaped }
    ensures cause { result ≡ Err FetchFault.Failed
        → HasFaulted (H.faults shelf.old) (H.faults shelf.new) }
    ensures sound { result ≢ Err FetchFault.Failed → H.faults shelf.new ≡ H.faults shelf.old }
    ensures asks { result ≢ Err FetchFault.Memory
        → AsksFor (H.asked shelf.old) (H.asked shelf.new) (name.now ∷ []) }
{
    let mut text = Vec::new(alloc);
    match shelf.fetch(name.text(), &mut text) {
        Ok(()) => read_maps(alloc, &text),
        Err(fault) => Err(fault),
    }
}

fn read_maps(alloc: Global, text: &[u8]) -> Result<MapFile, FetchFault>
    requires { length text.now ≤ file_limit }
    ensures said { IfOk result (λ file. file ≡ file_in text.now) }
    ensures shaped { IfOk result IsShaped }
    ensures memory { IfErr result (λ fault. fault ≡ FetchFault.Memory) }
{
    match read(alloc, text) {
        Ok(file) => Ok(file),
        Err(_) => Err(FetchFault::Memory),
    }
}

// What is answered where a file isn't fetched.
fn tell_fetch(fault: FetchFault) -> Answer
    ensures { result ≡ fetch_answer fault }
{
    match fault {
        FetchFault::Failed => Answer::ReadFault,
        FetchFault::TooLong => Answer::TooLong,
        FetchFault::Memory => Answer::Memory,
    }
}
