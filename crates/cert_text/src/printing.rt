//! How a certificate is printed.
ghost use Rattle.std.specs.Prelude.{◌≡◌, ◌++◌, All, IfOk, OnOk, codes};
ghost use Rattle.std.specs.List.{zip};
ghost use Rattle.name_index.specs.Escape.{escaped};
ghost use Rattle.certificates.specs.Points.{variables_of};
ghost use Rattle.cert_text.specs.Text as texts;
ghost use Rattle.cert_text.specs.ReadsBack.{IsGraphic, ReadsAsItself, ReadsBack, RowReads, VariableReads};

use crate::variables::Variables;
use cert_core::Certificate;
use lists::Sequence;
use name_index::{Name, Text};
use ratio_core::{Memory, Ratio, Ratios};
use std::alloc::Global;
use user_model::{GroupVar, Groups, Row, Rows};

/// The text of a certificate for the model of these groups and rows, with a line for each variable
/// and each row of which it has a number. With the right numbers of entries it reads back.
pub fn print(
    alloc: Global,
    groups: &Groups,
    rows: &Rows,
    certificate: &Certificate,
) -> Result<Text, Memory>
    ensures value { IfOk result (λ text. text
        ≡ texts.certificate_text (variables_of groups.now.items) rows.now.items certificate.now) }
    ensures reads_back { OnOk result (ReadsBack groups.now.items rows.now.items certificate.now) }
{
    let mut text = Vec::new(alloc);
    push_certificate(&mut text, groups, rows, certificate)?;
    Ok(Sequence::from_vec(text))
}

fn push_certificate(
    text: &mut Vec<u8>,
    groups: &Groups,
    rows: &Rows,
    certificate: &Certificate,
) -> Result<(), Memory>
    ensures value { OnOk result (text.new.items ≡ text.old.items
        ++ texts.certificate_text (variables_of groups.now.items) rows.now.items certificate.now) }
    ensures reads_back { OnOk result (ReadsBack groups.now.items rows.now.items certificate.now) }
{
    match certificate {
        Certificate::Optimal {
            value,
            x,
            rows: duals,
            vars,
        } => {
            let duals = Duals {
                rows: duals.as_slice(),
                vars: vars.as_slice(),
            };
            push_optimal(text, groups, rows, value, x.as_slice(), &duals)
        }
        Certificate::Infeasible {
            gap,
            rows: duals,
            vars,
        } => {
            let duals = Duals {
                rows: duals.as_slice(),
                vars: vars.as_slice(),
            };
            push_infeasible(text, groups, rows, gap, &duals)
        }
        Certificate::Unbounded { x, d } => {
            push_unbounded(text, groups, rows, x.as_slice(), d.as_slice())
        }
    }
}

// The duals of the rows and of the variables.
#[derive(Clone, Copy)]
struct Duals<'a> {
    rows: &'a [Ratios],
    vars: &'a [Ratio],
}

fn push_optimal(
    text: &mut Vec<u8>,
    groups: &Groups,
    rows: &Rows,
    value: &Ratio,
    x: &[Ratio],
    duals: &Duals,
) -> Result<(), Memory>
    ensures value { let c = Certificate.Optimal value.now x.now duals.now.rows.now
        duals.now.vars.now in
        OnOk result (text.new.items ≡ text.old.items
        ++ texts.certificate_text (variables_of groups.now.items) rows.now.items c) }
    ensures reads_back { let c = Certificate.Optimal value.now x.now duals.now.rows.now
        duals.now.vars.now in
        OnOk result (ReadsBack groups.now.items rows.now.items c) }
{
    push_number_line(text, b"optimal ", value)?;
    push_numbers(text, b"primal ", groups, x)?;
    push_duals(text, groups, rows, duals)
}

fn push_infeasible(
    text: &mut Vec<u8>,
    groups: &Groups,
    rows: &Rows,
    gap: &Ratio,
    duals: &Duals,
) -> Result<(), Memory>
    ensures value { let c = Certificate.Infeasible gap.now duals.now.rows.now
        duals.now.vars.now in
        OnOk result (text.new.items ≡ text.old.items
        ++ texts.certificate_text (variables_of groups.now.items) rows.now.items c) }
    ensures reads_back { let c = Certificate.Infeasible gap.now duals.now.rows.now
        duals.now.vars.now in
        OnOk result (ReadsBack groups.now.items rows.now.items c) }
{
    push_number_line(text, b"infeasible ", gap)?;
    push_duals(text, groups, rows, duals)
}

fn push_unbounded(
    text: &mut Vec<u8>,
    groups: &Groups,
    rows: &Rows,
    x: &[Ratio],
    d: &[Ratio],
) -> Result<(), Memory>
    ensures value { OnOk result (text.new.items ≡ text.old.items
        ++ texts.certificate_text (variables_of groups.now.items) rows.now.items
        (Certificate.Unbounded x.now d.now)) }
    ensures reads_back { OnOk result (ReadsBack groups.now.items rows.now.items
        (Certificate.Unbounded x.now d.now)) }
{
    push(text, b"unbounded\n")?;
    push_numbers(text, b"primal ", groups, x)?;
    push_numbers(text, b"ray ", groups, d)
}

fn push_duals(text: &mut Vec<u8>, groups: &Groups, rows: &Rows, duals: &Duals) -> Result<(), Memory>
    ensures value { OnOk result (text.new.items ≡ text.old.items
        ++ texts.text_of_lines (texts.dual_lines (variables_of groups.now.items) rows.now.items
        duals.now.rows.now duals.now.vars.now)) }
    ensures rows_read { OnOk result (All RowReads (zip rows.now.items duals.now.rows.now)) }
    ensures variables_read { OnOk result
        (All VariableReads (zip (variables_of groups.now.items) duals.now.vars.now)) }
{
    push_row_duals(text, rows, duals.rows)?;
    push_numbers(text, b"dual var ", groups, duals.vars)
}

// A line for each variable.
fn push_numbers(
    text: &mut Vec<u8>,
    word: &[u8],
    groups: &Groups,
    numbers: &[Ratio],
) -> Result<(), Memory>
    ensures value { OnOk result (text.new.items ≡ text.old.items ++ texts.text_of_lines
        (texts.variable_lines word.now (variables_of groups.now.items) numbers.now)) }
    ensures reads { OnOk result
        (All VariableReads (zip (variables_of groups.now.items) numbers.now)) }
{
    let mut variables = Variables::of(groups);
    for number in numbers {
        let Some(var) = variables.next() else {
            return Ok(());
        };
        push_variable(text, word, var, number)?;
    }
    Ok(())
}

fn push_variable(
    text: &mut Vec<u8>,
    word: &[u8],
    var: &GroupVar,
    number: &Ratio,
) -> Result<(), Memory>
    ensures value { OnOk result (text.new.items ≡ text.old.items
        ++ texts.ended (texts.variable_line word.now (var.now, number.now))) }
    ensures reads { OnOk result (VariableReads (var.now, number.now)) }
{
    push_variable_head(text, word, &var.name)?;
    push_number_line(text, b"", number)
}

/// What is said of a variable, before its number.
pub(crate) fn push_variable_head(text: &mut Vec<u8>, word: &[u8], name: &Name) -> Result<(), Memory>
    ensures value { OnOk result (text.new.items ≡ text.old.items
        ++ (word.now ++ escaped name.now ++ codes " ")) }
    ensures graphic { OnOk result (IsGraphic (escaped name.now)) }
{
    push(text, word)?;
    push_name(text, name)?;
    push(text, b" ")
}

// A line for each row.
fn push_row_duals(text: &mut Vec<u8>, rows: &Rows, duals: &[Ratios]) -> Result<(), Memory>
    ensures value { OnOk result (text.new.items ≡ text.old.items
        ++ texts.text_of_lines (texts.row_lines rows.now.items duals.now)) }
    ensures reads { OnOk result (All RowReads (zip rows.now.items duals.now)) }
{
    for (i, row) in rows.iter().enumerate() {
        if i >= duals.len() {
            return Ok(());
        }
        push_row(text, row, duals[i].as_slice())?;
    }
    Ok(())
}

fn push_row(text: &mut Vec<u8>, row: &Row, duals: &[Ratio]) -> Result<(), Memory>
    ensures value { OnOk result (text.new.items ≡ text.old.items
        ++ texts.ended (texts.row_line (row.now, duals.now))) }
    ensures reads { OnOk result (RowReads (row.now, duals.now)) }
{
    push_row_head(text, &row.name)?;
    push_each(text, duals)?;
    push(text, b"\n")
}

// Numbers, each after a space.
fn push_each(text: &mut Vec<u8>, numbers: &[Ratio]) -> Result<(), Memory>
    ensures value { OnOk result (text.new.items ≡ text.old.items
        ++ texts.numbers_text numbers.now) }
    ensures reads { OnOk result (All ReadsAsItself numbers.now) }
{
    for number in numbers {
        push(text, b" ")?;
        number.print(text)?;
    }
    Ok(())
}

/// What is said of a row, before its duals.
pub(crate) fn push_row_head(text: &mut Vec<u8>, name: &Name) -> Result<(), Memory>
    ensures value { OnOk result (text.new.items ≡ text.old.items
        ++ (codes "dual row " ++ escaped name.now)) }
    ensures graphic { OnOk result (IsGraphic (escaped name.now)) }
{
    push(text, b"dual row ")?;
    push_name(text, name)
}

// A number after a beginning, as a line's end.
fn push_number_line(text: &mut Vec<u8>, beginning: &[u8], number: &Ratio) -> Result<(), Memory>
    ensures value { OnOk result (text.new.items ≡ text.old.items
        ++ texts.ended (texts.number_line beginning.now number.now)) }
    ensures reads { OnOk result (ReadsAsItself number.now) }
{
    push(text, beginning)?;
    number.print(text)?;
    push(text, b"\n")
}

fn push_name(text: &mut Vec<u8>, name: &Name) -> Result<(), Memory>
    ensures value { OnOk result (text.new.items ≡ text.old.items ++ escaped name.now) }
    ensures graphic { OnOk result (IsGraphic (escaped name.now)) }
{
    let token = name.escape()?;
    push(text, token.as_slice())
}

fn push(text: &mut Vec<u8>, bytes: &[u8]) -> Result<(), Memory>
    ensures { OnOk result (text.new.items ≡ text.old.items ++ bytes.now) }
{
    text.extend_from_slice(bytes)?;
    Ok(())
}
