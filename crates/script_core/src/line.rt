//! Lines, each of the form that its first word names.
ghost use Rattle.std.specs.Prelude.{◌≡◌, IfOk};
ghost use Rattle.script_core.specs.Line.{IsParsedAs, form_of, line_form, line_said, reading_of, word_alone};

use crate::keyword::Keyword;
use crate::reading::{LineReading, alone};
use crate::{Command, LineFault, changes, rows, solver, tables, variables};
use ratio_core::Memory;
use script_tokens::{Tokens, are_line_bytes};
use std::alloc::Global;
use user_model::{Edit, Sense};

/// What a line without its end says. It is `BadLine` exactly where the line isn't in the grammar,
/// and `Overflow` exactly where it is and a sum of its terms, from the left, exceeds 128 bits.
#[tactic(auto, unfolding(crate::specs::Line::line_said))]
pub fn parse_line(alloc: Global, line: &[u8]) -> Result<Command, LineFault>
    ensures { IsParsedAs (line_said line.now) result }
{
    match reading(alloc, line)? {
        None => Err(LineFault::BadLine),
        Some(LineReading::Overflow) => Err(LineFault::Overflow),
        Some(LineReading::Says(command)) => Ok(command),
    }
}

// What the line is read as, if it is in the grammar.
#[tactic(auto, unfolding(crate::specs::Line::reading_of))]
fn reading(alloc: Global, line: &[u8]) -> Result<Option<LineReading>, Memory>
    ensures { IfOk result (λ reading. reading ≡ reading_of line.now) }
{
    if !are_line_bytes(line) {
        return Ok(None);
    }
    read_tokens(alloc, Tokens::new(line))
}

// A line without tokens and a remark are silent.
#[tactic(auto, unfolding(crate::specs::Line::line_form))]
fn read_tokens(alloc: Global, mut tokens: Tokens<'_>) -> Result<Option<LineReading>, Memory>
    ensures { IfOk result (λ reading. reading ≡ line_form tokens.entry) }
{
    let Some(first) = tokens.next() else {
        return Ok(Some(LineReading::Says(Command::Silent)));
    };
    if first.starts_with(b"#") {
        return Ok(Some(LineReading::Says(Command::Silent)));
    }
    let Some(keyword) = Keyword::read(first) else {
        return Ok(None);
    };
    form(alloc, keyword, tokens)
}

// A word alone.
fn word_alone(command: Command, tokens: Tokens<'_>) -> Option<LineReading>
    ensures { result ≡ word_alone command tokens.entry }
{
    alone(LineReading::Says(command), tokens)
}

// The form that a keyword names, of the tokens that follow it.
#[tactic(auto, unfolding(crate::specs::Line::form_of))]
fn form(alloc: Global, keyword: Keyword, tokens: Tokens<'_>) -> Result<Option<LineReading>, Memory>
    ensures { IfOk result (λ reading. reading ≡ form_of keyword tokens.entry) }
{
    match keyword {
        Keyword::Var => variables::variable(alloc, tokens),
        Keyword::Vars => variables::group(alloc, tokens),
        Keyword::Bound => rows::bound(alloc, tokens),
        Keyword::Row => rows::row(alloc, tokens),
        Keyword::Vbound => rows::vector_bound(alloc, tokens),
        Keyword::Vrow => rows::vector_row(alloc, tokens),
        Keyword::Min => rows::objective(alloc, Sense::Min, tokens),
        Keyword::Max => rows::objective(alloc, Sense::Max, tokens),
        Keyword::Minvar => rows::objective_variable(alloc, Sense::Min, tokens),
        Keyword::Maxvar => rows::objective_variable(alloc, Sense::Max, tokens),
        Keyword::Feasibility => Ok(word_alone(Command::Edit(Edit::Feasibility), tokens)),
        Keyword::Coef => changes::coefficient(alloc, tokens),
        Keyword::Vcoef => changes::vector_coefficient(alloc, tokens),
        Keyword::Const => changes::constant(alloc, tokens),
        Keyword::Vconst => changes::vector_constant(alloc, tokens),
        Keyword::Objcoef => changes::objective_coefficient(alloc, tokens),
        Keyword::Objconst => Ok(changes::objective_constant(tokens)),
        Keyword::Set => changes::row_set(alloc, tokens),
        Keyword::Reset => changes::reset(alloc, tokens),
        Keyword::Free => changes::free(alloc, tokens),
        Keyword::Delvar => changes::delete_variable(alloc, tokens),
        Keyword::Delrow => changes::delete_row(alloc, tokens),
        Keyword::Renvar => changes::rename_variable(alloc, tokens),
        Keyword::Renrow => changes::rename_row(alloc, tokens),
        Keyword::Target => Ok(tables::target(tokens)),
        Keyword::Support => Ok(tables::support(true, tokens)),
        Keyword::Unsupport => Ok(tables::support(false, tokens)),
        Keyword::Cost => Ok(tables::cost(tokens)),
        Keyword::On => Ok(tables::switch(true, tokens)),
        Keyword::Off => Ok(tables::switch(false, tokens)),
        Keyword::Attach => Ok(word_alone(Command::Attach, tokens)),
        Keyword::Detach => Ok(word_alone(Command::Detach, tokens)),
        Keyword::Begin => Ok(word_alone(Command::Begin, tokens)),
        Keyword::Commit => Ok(word_alone(Command::Commit, tokens)),
        Keyword::Abandon => Ok(word_alone(Command::Abandon, tokens)),
        Keyword::Optimize => Ok(solver::optimize(tokens)),
        Keyword::Bridged => Ok(word_alone(Command::Bridged, tokens)),
        Keyword::Plan => Ok(word_alone(Command::Plan, tokens)),
        Keyword::Write => Ok(word_alone(Command::Write, tokens)),
        Keyword::Load => solver::load(alloc, tokens),
        Keyword::Quit => Ok(word_alone(Command::Quit, tokens)),
    }
}
