//! The replies to accepted lines and to refused ones.
ghost use Rattle.std.specs.Prelude.{◌≡◌, [], ◌∷◌, ◌++◌, OnOk, IfOk, decimal, flat_map};
ghost use Rattle.item_core.specs.Kind.{name_of};
ghost use Rattle.report_core.specs.Refused.{edit_fields, fault_heading, fields, heading_text, place_text, refusal_text};
ghost use Rattle.report_core.specs.Replies.{done_text, held_text};
ghost use Rattle.report_core.specs.Words.{spaced};

use crate::draft::Draft;
use crate::refused::fault_heading;
use crate::{Answer, Place, Refused};
use item_core::Kind;
use mof_values::FaultKind;
use ratio_core::Memory;
use std::alloc::Global;
use user_model::Refusal;

/// The most cells of an equality form.
const MOST_CELLS: u64 = 16_777_216;

/// `ok`, and while a solver is attached at how many addresses its model changed.
pub fn done(alloc: Global, count: Option<u64>) -> Result<Answer, Memory>
    ensures { IfOk result (λ answer. answer ≡ Answer.Printed (done_text count)) }
{
    let mut draft = Draft::new(alloc);
    push_done(&mut draft, count)?;
    Ok(Answer::Printed(draft.into_text()))
}

/// `held`, of an edit that an open group holds.
pub fn held(alloc: Global) -> Result<Answer, Memory>
    ensures { IfOk result (λ answer. answer ≡ Answer.Printed held_text) }
{
    let mut draft = Draft::new(alloc);
    draft.push("held\n")?;
    Ok(Answer::Printed(draft.into_text()))
}

/// The refusal's number, name and fields.
#[tactic(auto, unfolding(crate::specs::Refused::refusal_text))]
pub fn refusal(alloc: Global, refused: &Refused) -> Result<Answer, Memory>
    ensures { IfOk result (λ answer. answer ≡ Answer.Refused (refusal_text refused.now)) }
{
    let mut draft = Draft::new(alloc);
    push_heading(&mut draft, refused)?;
    push_fields(&mut draft, refused)?;
    draft.push("\n")?;
    Ok(Answer::Refused(draft.into_text()))
}

#[tactic(auto, unfolding(crate::specs::Replies::done_text))]
fn push_done(draft: &mut Draft, count: Option<u64>) -> Result<(), Memory>
    ensures { OnOk result (draft.new ≡ draft.old ++ done_text count) }
{
    match count {
        None => draft.push("ok\n"),
        Some(count) => {
            draft.push("ok ")?;
            draft.push_number(u128::from(count))?;
            draft.push("\n")
        }
    }
}

fn push_heading(draft: &mut Draft, refused: &Refused) -> Result<(), Memory>
    ensures { OnOk result (draft.new ≡ draft.old ++ heading_text refused.now) }
{
    let (number, name) = refused.heading();
    draft.push("refused ")?;
    draft.push_number(u128::from(number))?;
    draft.push(" ")?;
    draft.push(name)
}

// Each field after a space.
fn push_fields(draft: &mut Draft, refused: &Refused) -> Result<(), Memory>
    ensures { OnOk result (draft.new ≡ draft.old ++ flat_map spaced (fields refused.now)) }
{
    match refused {
        Refused::Full { count, limit } => push_two_numbers(draft, *count, *limit),
        Refused::TooLarge { cells } => push_two_numbers(draft, *cells, MOST_CELLS),
        Refused::Unsupported { kind } => push_kind(draft, *kind),
        Refused::Overflow { place } => push_place(draft, place),
        Refused::Limit { pivots } => push_one_number(draft, *pivots),
        Refused::File { kind, place } => push_fault(draft, *kind, place.as_slice()),
        Refused::Group { index, refusal } => push_group(draft, *index, *refusal),
        Refused::BadLine | Refused::UnknownName | Refused::NameTaken => Ok(()),
        Refused::FunctionShape | Refused::BadDimension | Refused::OutputIndex => Ok(()),
        Refused::BadInterval | Refused::LowerBoundAlreadySet => Ok(()),
        Refused::UpperBoundAlreadySet | Refused::SetTypeMismatch => Ok(()),
        Refused::DeleteNotAllowed | Refused::NotAttached => Ok(()),
        Refused::AlreadyAttached | Refused::NotEmpty => Ok(()),
        Refused::GroupOpen | Refused::NoGroup => Ok(()),
    }
}

// The number of the edit in its group, and then its own refusal.
fn push_group(draft: &mut Draft, index: u64, refusal: Refusal) -> Result<(), Memory>
    ensures { OnOk result (draft.new
        ≡ draft.old ++ flat_map spaced (decimal index ∷ edit_fields refusal)) }
{
    let (number, name) = Refused::from(refusal).heading();
    push_one_number(draft, index)?;
    push_one_number(draft, u64::from(number))?;
    draft.push(" ")?;
    draft.push(name)?;
    match refusal {
        Refusal::Full { count, limit } => push_two_numbers(draft, count, limit),
        _ => Ok(()),
    }
}

fn push_one_number(draft: &mut Draft, number: u64) -> Result<(), Memory>
    ensures { OnOk result (draft.new ≡ draft.old ++ flat_map spaced (decimal number ∷ [])) }
{
    draft.push(" ")?;
    draft.push_number(u128::from(number))
}

fn push_two_numbers(draft: &mut Draft, first: u64, second: u64) -> Result<(), Memory>
    ensures { OnOk result (draft.new
        ≡ draft.old ++ flat_map spaced (decimal first ∷ decimal second ∷ [])) }
{
    push_one_number(draft, first)?;
    push_one_number(draft, second)
}

fn push_kind(draft: &mut Draft, kind: Kind) -> Result<(), Memory>
    ensures { OnOk result (draft.new ≡ draft.old ++ flat_map spaced (name_of kind ∷ [])) }
{
    draft.push(" ")?;
    draft.push_kind(kind)
}

fn push_place(draft: &mut Draft, place: &Place) -> Result<(), Memory>
    ensures { OnOk result (draft.new ≡ draft.old ++ flat_map spaced (place_text place.now ∷ [])) }
{
    match place {
        Place::Line => draft.push(" line"),
        Place::Var(name) => {
            draft.push(" var ")?;
            draft.push_name(name)
        }
        Place::Row(name) => {
            draft.push(" row ")?;
            draft.push_name(name)
        }
        Place::Objective => draft.push(" objective"),
        Place::Solver => draft.push(" solver"),
        Place::Check => draft.push(" check"),
    }
}

fn push_fault(draft: &mut Draft, kind: FaultKind, place: &[u8]) -> Result<(), Memory>
    ensures { OnOk result (draft.new ≡ draft.old ++ flat_map spaced
        (decimal (fault_heading kind).0 ∷ (fault_heading kind).1 ∷ place.now ∷ [])) }
{
    let (number, name) = fault_heading(kind);
    push_one_number(draft, u64::from(number))?;
    draft.push(" ")?;
    draft.push(name)?;
    draft.push(" ")?;
    draft.push_bytes(place)
}
