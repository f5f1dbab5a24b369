//! What a text is answered.
ghost use Rattle.std.specs.Prelude.{◌≡◌, IfOk, Some, true};
ghost use Rattle.bland_run.specs.Answering.{IsReplyTo};
ghost use Rattle.bland_run.specs.Reading.{IsSmall, form_in};

use crate::fault::SmallFault;
use crate::printing::push_answer;
use crate::reading::read_form;
use crate::small::solve_small;
use lists::Memory;
use simplex_core::StdForm;
use std::alloc::Global;

// What is printed, and whether it is a refusal.
#[derive(Drop)]
pub(crate) struct Reply {
    pub(crate) text: Vec<u8>,
    pub(crate) is_refusal: bool,
}

// Solves the form that a text writes.
pub(crate) fn reply_to(alloc: Global, text: &[u8]) -> Result<Reply, Memory>
    ensures { IfOk result (λ reply. IsReplyTo (form_in text.now) reply) }
{
    match read_form(alloc, text)? {
        Some(form) => solved(alloc, &form),
        None => refusal(alloc, b"refused 1 BadForm\n"),
    }
}

fn solved(alloc: Global, form: &StdForm) -> Result<Reply, Memory>
    requires { IsSmall form.now }
    ensures { IfOk result (λ reply. IsReplyTo (Some form.now) reply) }
{
    match solve_small(alloc, form) {
        Ok(answer) => {
            let mut text = Vec::new(alloc);
            push_answer(&mut text, &answer)?;
            Ok(Reply {
                text,
                is_refusal: false,
            })
        }
        Err(SmallFault::Overflow { .. }) => refusal(alloc, b"refused 17 Overflow\n"),
        Err(SmallFault::Memory) => Err(Memory),
    }
}

fn refusal(alloc: Global, line: &[u8]) -> Result<Reply, Memory>
    ensures { IfOk result (λ reply. (reply.text.items ≡ line.now) × (reply.is_refusal ≡ true)) }
{
    let text = Vec::from_slice(alloc, line)?;
    Ok(Reply {
        text,
        is_refusal: true,
    })
}
