//! The refusal that answers each fault of the cache; none where memory ran out.
ghost use Rattle.std.specs.Prelude.{◌≡◌, Err};
ghost use Rattle.edit_engine.specs.Script.{attach_answer, edit_answer, group_answer, load_answer, optimize_answer};
ghost use Rattle.file_answers.specs.FileAnswers.{refusal_answer};
ghost use Rattle.user_model.specs.Model.{ModelValue};

use cache_layer::{AttachFault, EditFault, GroupFault, OptFault};
use report_core::Refused;

/// Why an edit, the edits of a file or another table are refused.
pub(crate) fn edit_refusal(fault: EditFault) -> Option<Refused>
    ensures edit { edit_answer (Err fault) ≡ refusal_answer result }
    ensures load { load_answer (Err fault) ≡ refusal_answer result }
{
    match fault {
        EditFault::Refused(refusal) => Some(Refused::from(refusal)),
        EditFault::Unsupported { kind } => Some(Refused::Unsupported { kind }),
        EditFault::Overflow { place } => Some(Refused::Overflow { place }),
        EditFault::Memory => None,
    }
}

/// Why the edits of a group are refused.
pub(crate) fn group_refusal(fault: GroupFault) -> Option<Refused>
    ensures { group_answer (Err fault) ≡ refusal_answer result }
{
    match fault {
        GroupFault::Refused { index, refusal } => Some(Refused::Group { index, refusal }),
        GroupFault::Unsupported { kind } => Some(Refused::Unsupported { kind }),
        GroupFault::Overflow { place } => Some(Refused::Overflow { place }),
        GroupFault::Memory => None,
    }
}

/// Why attaching a solver is refused.
pub(crate) fn attach_refusal(fault: AttachFault) -> Option<Refused>
    ensures { attach_answer (Err fault) ≡ refusal_answer result }
{
    match fault {
        AttachFault::AlreadyAttached => Some(Refused::AlreadyAttached),
        AttachFault::Unsupported { kind } => Some(Refused::Unsupported { kind }),
        AttachFault::Overflow { place } => Some(Refused::Overflow { place }),
        AttachFault::Memory => None,
    }
}

/// Why `optimize` gives no certificate.
pub(crate) fn optimize_refusal(fault: OptFault) -> Option<Refused>
    ensures { (model : ModelValue) → optimize_answer model (Err fault) ≡ refusal_answer result }
{
    match fault {
        OptFault::NotAttached => Some(Refused::NotAttached),
        OptFault::TooLarge { cells } => Some(Refused::TooLarge { cells }),
        OptFault::Overflow { place } => Some(Refused::Overflow { place }),
        OptFault::Limit { pivots } => Some(Refused::Limit { pivots }),
        OptFault::Memory => None,
    }
}
