//! The certificate of a file, held against the model of a file.
ghost use Rattle.std.specs.Prelude.{◌≡◌, ◌≢◌};
ghost use Rattle.certificate_check.specs.Verdict.{AsksModelAndCertificate};
ghost use Rattle.io_face.specs.Fault.{HasFaulted};
ghost use Rattle.io_face.specs.Shelf.{AsksFor};
ghost use Rattle.io_face.specs.Told.{told_by};
ghost use Rattle.moi_run.specs.Run.{CheckOutcome};
ghost use Rattle.moi_run.specs.Status.{IsEnded};

use crate::reply::write_answer;
use crate::status::Status;
use certificate_check::verdict;
use io_face::{Shelf, Sink};
use name_index::Name;
use std::alloc::Global;

/// Answers whether the certificate of a file proves what it says of a file's model.
pub(crate) fn answer_check<H: Shelf, O: Sink>(
    alloc: Global,
    model: &Name,
    certificate: &Name,
    shelf: &mut H,
    output: &mut O,
) -> Status
    ensures outcome { CheckOutcome result (told_by (H.files shelf.old) (H.sure shelf.old))
        (H.faults shelf.old) (H.faults shelf.new) model.now certificate.now
        (O.written output.old) (O.written output.new) }
    ensures write_fault { result ≡ Status.WriteFault
        → HasFaulted (O.faults output.old) (O.faults output.new) }
    ensures asks { result ≢ Status.Memory
        → AsksModelAndCertificate (told_by (H.files shelf.old) (H.sure shelf.old)) model.now certificate.now
        (AsksFor (H.asked shelf.old) (H.asked shelf.new)) }
    ensures sound_fetches { IsEnded result → H.faults shelf.new ≡ H.faults shelf.old }
    ensures sound_writes { IsEnded result → O.faults output.new ≡ O.faults output.old }
    ensures not_usage { result ≢ Status.Usage }
{
    let answer = verdict(alloc, shelf, model, certificate);
    match write_answer(answer, output) {
        Ok(reply) => Status::ended(reply.is_refused()),
        Err(stop) => Status::from(stop),
    }
}
