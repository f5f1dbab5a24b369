//! The verdict on the files of a model and of a certificate.
ghost use Rattle.std.specs.Prelude.{◌≡◌, ◌≢◌, [], ◌∷◌, Result, Ok, IfOk, OnOk};
ghost use Rattle.model_load.specs.Loads.{after_edits};
ghost use Rattle.certificates.specs.Points.{variables_of};
ghost use Rattle.cert_text.specs.Reading.{certificate_of};
ghost use Rattle.cert_text.specs.ReadsBack.{HasItsEntries};
ghost use Rattle.certificate_check.specs.Verdict.{AsksModelAndCertificate, FetchesText, IsVerdict, Judges, JudgesMade, JudgesText, asks_made};
ghost use Rattle.io_face.specs.Fault.{HasFaulted};
ghost use Rattle.io_face.specs.Shelf.{AsksFor};
ghost use Rattle.io_face.specs.Told.{told_by};
ghost use Rattle.user_model.specs.Model.{empty_model};

use crate::verdict_text::yes_or_no;
use cert_core::{Certificate, check};
use cert_text::read;
use file_answers::tell_fault;
use io_face::{FetchFault, Shelf};
use lists::Memory;
use model_load::load_all;
use model_store::UserModel;
use mof_fetch::fetch_edits;
use mof_read::Edits;
use name_index::Name;
use ratio_core::NumberFault;
use report_core::{Answer, Place, Refused, refusal};
use std::alloc::Global;
use user_model::{ApplyFault, Edit};

/// What is answered to the files of a model and of a certificate, by their names: `yes` where the
/// text is a certificate for the model, all that is multiplied and added fits, and the certificate
/// is good; `no` where the text isn't one, or all fits and it isn't good; and otherwise a refusal,
/// or why a file wasn't fetched. The model's file is asked for first and once; the certificate's
/// once, and only for a model that was made.
pub fn verdict<H: Shelf>(alloc: Global, shelf: &mut H, model: &Name, certificate: &Name) -> Answer
    ensures verdict { result ≢ Answer.Memory
        → IsVerdict (told_by (H.files shelf.old) (H.sure shelf.old)) model.now certificate.now
        result }
    ensures cause { result ≡ Answer.ReadFault
        → HasFaulted (H.faults shelf.old) (H.faults shelf.new) }
    ensures sound { result ≢ Answer.ReadFault → H.faults shelf.new ≡ H.faults shelf.old }
    ensures asks { result ≢ Answer.Memory
        → AsksModelAndCertificate (told_by (H.files shelf.old) (H.sure shelf.old)) model.now certificate.now
        (AsksFor (H.asked shelf.old) (H.asked shelf.new)) }
{
    judge_model(alloc, shelf, model, certificate).unwrap_or(Answer::Memory)
}

// The same, where running out of memory is an error.
fn judge_model<H: Shelf>(
    alloc: Global,
    shelf: &mut H,
    model: &Name,
    certificate: &Name,
) -> Result<Answer, Memory>
    ensures verdict { IfOk result (IsVerdict (told_by (H.files shelf.old) (H.sure shelf.old))
        model.now certificate.now) }
    ensures cause { result ≡ Ok Answer.ReadFault
        → HasFaulted (H.faults shelf.old) (H.faults shelf.new) }
    ensures sound { result ≢ Ok Answer.ReadFault → H.faults shelf.new ≡ H.faults shelf.old }
    ensures asks { OnOk result
        (AsksModelAndCertificate (told_by (H.files shelf.old) (H.sure shelf.old))
        model.now certificate.now (AsksFor (H.asked shelf.old) (H.asked shelf.new))) }
{
    match fetch_edits(alloc, shelf, model) {
        Ok(edits) => judge_edits(alloc, shelf, edits, certificate),
        Err(fault) => tell_fault(alloc, fault),
    }
}

// The same once the edits of the model were read.
fn judge_edits<H: Shelf>(
    alloc: Global,
    shelf: &mut H,
    edits: Edits,
    certificate: &Name,
) -> Result<Answer, Memory>
    ensures verdict { IfOk result (JudgesMade (told_by (H.files shelf.old) (H.sure shelf.old))
        certificate.now (after_edits empty_model edits)) }
    ensures cause { result ≡ Ok Answer.ReadFault
        → HasFaulted (H.faults shelf.old) (H.faults shelf.new) }
    ensures sound { result ≢ Ok Answer.ReadFault → H.faults shelf.new ≡ H.faults shelf.old }
    ensures asks { OnOk result (AsksFor (H.asked shelf.old) (H.asked shelf.new)
        (asks_made certificate.now (after_edits empty_model edits))) }
{
    let mut model = UserModel::new(alloc);
    let answer = judge_on(alloc, shelf, &mut model, edits.into_vec(), certificate);
    drop(model);
    answer
}

// The same of edits on a model. It is lent, so that no way out frees it.
fn judge_on<H: Shelf>(
    alloc: Global,
    shelf: &mut H,
    model: &mut UserModel,
    edits: Vec<Edit>,
    certificate: &Name,
) -> Result<Answer, Memory>
    ensures verdict { IfOk result (JudgesMade (told_by (H.files shelf.old) (H.sure shelf.old))
        certificate.now (after_edits model.old.model edits.items)) }
    ensures cause { result ≡ Ok Answer.ReadFault
        → HasFaulted (H.faults shelf.old) (H.faults shelf.new) }
    ensures sound { result ≢ Ok Answer.ReadFault → H.faults shelf.new ≡ H.faults shelf.old }
    ensures asks { OnOk result (AsksFor (H.asked shelf.old) (H.asked shelf.new)
        (asks_made certificate.now (after_edits model.old.model edits.items))) }
{
    match load_all(model, edits) {
        Ok(()) => judge_file(alloc, shelf, model, certificate),
        Err(ApplyFault::Refused(reason)) => refusal(alloc, &Refused::from(reason)),
        Err(ApplyFault::Memory) => Err(Memory),
    }
}

// The same once the model was made.
fn judge_file<H: Shelf>(
    alloc: Global,
    shelf: &mut H,
    model: &UserModel,
    certificate: &Name,
) -> Result<Answer, Memory>
    ensures verdict { IfOk result (FetchesText (told_by (H.files shelf.old) (H.sure shelf.old))
        certificate.now model.now.model) }
    ensures cause { result ≡ Ok Answer.ReadFault
        → HasFaulted (H.faults shelf.old) (H.faults shelf.new) }
    ensures sound { result ≢ Ok Answer.ReadFault → H.faults shelf.new ≡ H.faults shelf.old }
    ensures asks { OnOk result (AsksFor (H.asked shelf.old) (H.asked shelf.new)
        (certificate.now ∷ [])) }
{
    let mut text = Vec::new(alloc);
    match shelf.fetch(certificate.text(), &mut text) {
        Ok(()) => judge_text(alloc, model, &text),
        Err(FetchFault::Failed) => Ok(Answer::ReadFault),
        Err(FetchFault::TooLong) => Ok(Answer::TooLong),
        Err(FetchFault::Memory) => Err(Memory),
    }
}

// What is answered to the text of a certificate.
fn judge_text(alloc: Global, model: &UserModel, text: &[u8]) -> Result<Answer, Memory>
    ensures verdict { IfOk result (JudgesText model.now.model
        (certificate_of (variables_of model.now.model.groups) model.now.model.rows text.now)) }
    ensures no_fault { result ≢ Ok Answer.ReadFault }
{
    match read(alloc, model.groups(), model.rows(), text)? {
        Some(certificate) => {
            let judged = judge(alloc, model, &certificate);
            drop(certificate);
            judged
        }
        None => yes_or_no(alloc, false),
    }
}

// What is answered to a certificate.
fn judge(alloc: Global, model: &UserModel, certificate: &Certificate) -> Result<Answer, Memory>
    requires { HasItsEntries model.now.model.groups model.now.model.rows certificate.now }
    ensures { IfOk result (Judges model.now.model certificate.now) }
{
    match check(
        alloc,
        model.groups(),
        model.rows(),
        model.objective(),
        certificate,
    ) {
        Ok(is_good) => yes_or_no(alloc, is_good),
        Err(NumberFault::Overflow) => refusal(
            alloc,
            &Refused::Overflow {
                place: Place::Check,
            },
        ),
        Err(NumberFault::Memory) => Err(Memory),
    }
}
