//! Why a model's rows are not mapped, as it is answered.
ghost use Rattle.std.specs.Prelude.{◌≡◌, ◌≢◌, IfOk, OnOk};
ghost use Rattle.setmap_command.specs.Text.{bad_map, bad_maps, fault_answer};

use lists::Memory;
use mapped_model::MappingFault;
use report_core::{Answer, Draft, Place, Refused, refusal};
use std::alloc::Global;

/// One line `refused` with the number, the name and the field.
pub(crate) fn tell_mapping(alloc: Global, fault: MappingFault) -> Result<Answer, Memory>
    ensures told { IfOk result (λ answer. answer ≡ fault_answer fault) }
    ensures memory { OnOk result (fault ≢ MappingFault.Memory) }
{
    match fault {
        MappingFault::BadMaps { line } => bad_maps(alloc, line),
        MappingFault::BadMap { map } => bad_map(alloc, map.as_slice()),
        MappingFault::Refused(reason) => refusal(alloc, &Refused::from(reason)),
        MappingFault::Overflow { row } => refusal(
            alloc,
            &Refused::Overflow {
                place: Place::Row(row),
            },
        ),
        MappingFault::Memory => Err(Memory),
    }
}

fn bad_maps(alloc: Global, line: u32) -> Result<Answer, Memory>
    ensures { IfOk result (λ answer. answer ≡ bad_maps line) }
{
    let mut draft = Draft::new(alloc);
    draft.push("refused 25 BadMaps ")?;
    draft.push_number(u128::from(line))?;
    draft.push("\n")?;
    Ok(Answer::Refused(draft.into_text()))
}

fn bad_map(alloc: Global, name: &[u8]) -> Result<Answer, Memory>
    ensures { IfOk result (λ answer. answer ≡ bad_map name.now) }
{
    let mut draft = Draft::new(alloc);
    draft.push("refused 24 BadMap ")?;
    draft.push_bytes(name)?;
    draft.push("\n")?;
    Ok(Answer::Refused(draft.into_text()))
}
