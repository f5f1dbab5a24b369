//! The words of a verdict.
ghost use Rattle.std.specs.Prelude.{◌≡◌, IfOk, if◌then◌else◌};
ghost use Rattle.certificate_check.specs.Verdict.{no as answers_no, yes as answers_yes};

use lists::Memory;
use name_index::Text;
use report_core::Answer;
use std::alloc::Global;

/// `yes` or `no`, in a line.
pub(crate) fn yes_or_no(alloc: Global, is_good: bool) -> Result<Answer, Memory>
    ensures { IfOk result (λ answer. answer ≡ (if is_good then answers_yes else answers_no)) }
{
    let text = match is_good {
        true => Vec::from_slice(alloc, b"yes\n")?,
        false => Vec::from_slice(alloc, b"no\n")?,
    };
    Ok(Answer::Printed(Text::from_vec(text)))
}
