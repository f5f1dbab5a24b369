//! Lines that change rows and the objective.
ghost use Rattle.std.specs.Prelude.{◌≡◌, IfOk};
ghost use Rattle.script_core.specs.Changes.{coefficient_form, constant_form, delete_row_form, delete_variable_form, free_form, objective_coefficient_form, objective_constant_form, rename_row_form, rename_variable_form, reset_form, row_set_form, vector_coefficient_form, vector_constant_form};

use crate::names::{last_name, last_named_number, last_two_names};
use crate::reading::{LineReading, makes};
use crate::sets::last_named_relation;
use name_index::Name;
use ratio_core::{Memory, Ratio};
use script_tokens::{Tokens, read_number};
use std::alloc::Global;
use user_model::Edit;

/// `coef R X Q`
#[tactic(auto, unfolding(crate::specs::Changes::coefficient_form))]
pub fn coefficient(alloc: Global, mut tokens: Tokens<'_>) -> Result<Option<LineReading>, Memory>
    ensures { IfOk result (λ reading. reading ≡ coefficient_form tokens.entry) }
{
    let Some(row) = tokens.next() else {
        return Ok(None);
    };
    let Some(row) = Name::unescape(alloc, row)? else {
        return Ok(None);
    };
    let Some((var, value)) = last_named_number(alloc, tokens)? else {
        return Ok(None);
    };
    Ok(makes(Edit::Coef { row, var, value }))
}

/// `vcoef R I X Q`
#[tactic(auto, unfolding(crate::specs::Changes::vector_coefficient_form))]
pub fn vector_coefficient(
    alloc: Global,
    mut tokens: Tokens<'_>,
) -> Result<Option<LineReading>, Memory>
    ensures { IfOk result (λ reading. reading ≡ vector_coefficient_form tokens.entry) }
{
    let (Some(row), Some(output)) = (tokens.next(), tokens.next()) else {
        return Ok(None);
    };
    let Some(row) = Name::unescape(alloc, row)? else {
        return Ok(None);
    };
    let Some(output) = read_number(output) else {
        return Ok(None);
    };
    let Some((var, value)) = last_named_number(alloc, tokens)? else {
        return Ok(None);
    };
    Ok(makes(Edit::VecCoef {
        row,
        output,
        var,
        value,
    }))
}

/// `const R Q`
#[tactic(auto, unfolding(crate::specs::Changes::constant_form))]
pub fn constant(alloc: Global, tokens: Tokens<'_>) -> Result<Option<LineReading>, Memory>
    ensures { IfOk result (λ reading. reading ≡ constant_form tokens.entry) }
{
    let Some((row, value)) = last_named_number(alloc, tokens)? else {
        return Ok(None);
    };
    Ok(makes(Edit::Constant { row, value }))
}

/// `vconst R I Q`
#[tactic(auto, unfolding(crate::specs::Changes::vector_constant_form))]
pub fn vector_constant(alloc: Global, mut tokens: Tokens<'_>) -> Result<Option<LineReading>, Memory>
    ensures { IfOk result (λ reading. reading ≡ vector_constant_form tokens.entry) }
{
    let (Some(row), Some(output), Some(value), None) = (
        tokens.next(),
        tokens.next(),
        tokens.next(),
        tokens.next(),
    ) else {
        return Ok(None);
    };
    let Some(row) = Name::unescape(alloc, row)? else {
        return Ok(None);
    };
    let Some(output) = read_number(output) else {
        return Ok(None);
    };
    let Some(value) = Ratio::read(value) else {
        return Ok(None);
    };
    Ok(makes(Edit::VecConstant { row, output, value }))
}

/// `objcoef X Q`
#[tactic(auto, unfolding(crate::specs::Changes::objective_coefficient_form))]
pub fn objective_coefficient(
    alloc: Global,
    tokens: Tokens<'_>,
) -> Result<Option<LineReading>, Memory>
    ensures { IfOk result (λ reading. reading ≡ objective_coefficient_form tokens.entry) }
{
    let Some((var, value)) = last_named_number(alloc, tokens)? else {
        return Ok(None);
    };
    Ok(makes(Edit::ObjCoef { var, value }))
}

/// `objconst Q`
#[tactic(auto, unfolding(crate::specs::Changes::objective_constant_form))]
pub fn objective_constant(mut tokens: Tokens<'_>) -> Option<LineReading>
    ensures { result ≡ objective_constant_form tokens.entry }
{
    let (Some(value), None) = (tokens.next(), tokens.next()) else {
        return None;
    };
    let value = Ratio::read(value)?;
    makes(Edit::ObjConstant { value })
}

/// `set R REL`
#[tactic(auto, unfolding(crate::specs::Changes::row_set_form))]
pub fn row_set(alloc: Global, tokens: Tokens<'_>) -> Result<Option<LineReading>, Memory>
    ensures { IfOk result (λ reading. reading ≡ row_set_form tokens.entry) }
{
    let Some((row, set)) = last_named_relation(alloc, tokens)? else {
        return Ok(None);
    };
    Ok(makes(Edit::RowSet { row, set }))
}

/// `reset X REL`
#[tactic(auto, unfolding(crate::specs::Changes::reset_form))]
pub fn reset(alloc: Global, tokens: Tokens<'_>) -> Result<Option<LineReading>, Memory>
    ensures { IfOk result (λ reading. reading ≡ reset_form tokens.entry) }
{
    let Some((var, set)) = last_named_relation(alloc, tokens)? else {
        return Ok(None);
    };
    Ok(makes(Edit::Reset { var, set }))
}

/// `free X`
#[tactic(auto, unfolding(crate::specs::Changes::free_form))]
pub fn free(alloc: Global, tokens: Tokens<'_>) -> Result<Option<LineReading>, Memory>
    ensures { IfOk result (λ reading. reading ≡ free_form tokens.entry) }
{
    let Some(var) = last_name(alloc, tokens)? else {
        return Ok(None);
    };
    Ok(makes(Edit::FreeGroup { var }))
}

/// `delvar X`
#[tactic(auto, unfolding(crate::specs::Changes::delete_variable_form))]
pub fn delete_variable(alloc: Global, tokens: Tokens<'_>) -> Result<Option<LineReading>, Memory>
    ensures { IfOk result (λ reading. reading ≡ delete_variable_form tokens.entry) }
{
    let Some(var) = last_name(alloc, tokens)? else {
        return Ok(None);
    };
    Ok(makes(Edit::DeleteVariable { var }))
}

/// `delrow R`
#[tactic(auto, unfolding(crate::specs::Changes::delete_row_form))]
pub fn delete_row(alloc: Global, tokens: Tokens<'_>) -> Result<Option<LineReading>, Memory>
    ensures { IfOk result (λ reading. reading ≡ delete_row_form tokens.entry) }
{
    let Some(row) = last_name(alloc, tokens)? else {
        return Ok(None);
    };
    Ok(makes(Edit::DeleteRow { row }))
}

/// `renvar X Y`
#[tactic(auto, unfolding(crate::specs::Changes::rename_variable_form))]
pub fn rename_variable(alloc: Global, tokens: Tokens<'_>) -> Result<Option<LineReading>, Memory>
    ensures { IfOk result (λ reading. reading ≡ rename_variable_form tokens.entry) }
{
    let Some((old, new)) = last_two_names(alloc, tokens)? else {
        return Ok(None);
    };
    Ok(makes(Edit::RenameVariable { old, new }))
}

/// `renrow R S`
#[tactic(auto, unfolding(crate::specs::Changes::rename_row_form))]
pub fn rename_row(alloc: Global, tokens: Tokens<'_>) -> Result<Option<LineReading>, Memory>
    ensures { IfOk result (λ reading. reading ≡ rename_row_form tokens.entry) }
{
    let Some((old, new)) = last_two_names(alloc, tokens)? else {
        return Ok(None);
    };
    Ok(makes(Edit::RenameRow { old, new }))
}
