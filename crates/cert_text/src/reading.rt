//! How a certificate is read.
ghost use Rattle.std.specs.Prelude.{◌≡◌, IfOk, IfSome, option_map};
ghost use Rattle.ratio_core.specs.Text.{rational_of};
ghost use Rattle.certificates.specs.Points.{variables_of};
ghost use Rattle.script_tokens.specs.Each.{each};
ghost use Rattle.cert_text.specs.Reading as texts;
ghost use Rattle.cert_text.specs.ReadsBack.{HasItsEntries};

use crate::heading::{Heading, number_after, read_heading};
use crate::printing::{push_row_head, push_variable_head};
use crate::variables::Variables;
use cert_core::{Certificate, DualRows, component_count};
use lists::Sequence;
use ratio_core::{Memory, Ratio, Ratios};
use script_tokens::Pieces;
use std::alloc::Global;
use user_model::{GroupVar, Groups, Row, Rows};

/// The certificate that a text is for the model of these groups and rows, with the right numbers of
/// entries. There is none exactly where the text isn't of the printed form for the model, with any
/// literals as its numbers.
#[tactic(auto, unfolding(crate::specs::Reading::certificate_of))]
pub fn read(
    alloc: Global,
    groups: &Groups,
    rows: &Rows,
    text: &[u8],
) -> Result<Option<Certificate>, Memory>
    ensures value { IfOk result (λ found. found
        ≡ texts.certificate_of (variables_of groups.now.items) rows.now.items text.now) }
    ensures entries { IfOk result (λ found.
        IfSome found (HasItsEntries groups.now.items rows.now.items)) }
{
    read_lines(alloc, groups, rows, Pieces::new(text, b'\n'))
}

// All lines, and the end after the last.
#[tactic(auto, unfolding(crate::specs::Reading::certificate_in))]
fn read_lines(
    alloc: Global,
    groups: &Groups,
    rows: &Rows,
    mut lines: Pieces<'_>,
) -> Result<Option<Certificate>, Memory>
    ensures { IfOk result (λ found. found
        ≡ texts.certificate_in (variables_of groups.now.items) rows.now.items lines.entry) }
{
    let Some(first) = lines.next() else {
        return Ok(None);
    };
    let Some(heading) = read_heading(first) else {
        return Ok(None);
    };
    read_body(alloc, groups, rows, heading, lines)
}

// The lines after the first.
#[tactic(auto, unfolding(crate::specs::Reading::body_of))]
fn read_body(
    alloc: Global,
    groups: &Groups,
    rows: &Rows,
    heading: Heading,
    lines: Pieces<'_>,
) -> Result<Option<Certificate>, Memory>
    ensures { IfOk result (λ found. found
        ≡ texts.body_of (variables_of groups.now.items) rows.now.items heading lines.entry) }
{
    match heading {
        Heading::Optimal(value) => read_optimal(alloc, groups, rows, value, lines),
        Heading::Infeasible(gap) => read_infeasible(alloc, groups, rows, gap, lines),
        Heading::Unbounded => read_unbounded(alloc, groups, lines),
    }
}

#[tactic(auto, unfolding(crate::specs::Reading::optimal_of))]
fn read_optimal(
    alloc: Global,
    groups: &Groups,
    rows: &Rows,
    value: Ratio,
    mut lines: Pieces<'_>,
) -> Result<Option<Certificate>, Memory>
    ensures { IfOk result (λ found. found
        ≡ texts.optimal_of (variables_of groups.now.items) rows.now.items value lines.entry) }
{
    let Some(x) = read_numbers(alloc, b"primal ", groups, &mut lines)? else {
        return Ok(None);
    };
    let Some(rows) = read_row_duals(alloc, rows, &mut lines)? else {
        return Ok(None);
    };
    let Some(vars) = read_numbers(alloc, b"dual var ", groups, &mut lines)? else {
        return Ok(None);
    };
    Ok(at_end(
        Certificate::Optimal {
            value,
            x,
            rows,
            vars,
        },
        lines,
    ))
}

#[tactic(auto, unfolding(crate::specs::Reading::infeasible_of))]
fn read_infeasible(
    alloc: Global,
    groups: &Groups,
    rows: &Rows,
    gap: Ratio,
    mut lines: Pieces<'_>,
) -> Result<Option<Certificate>, Memory>
    ensures { IfOk result (λ found. found
        ≡ texts.infeasible_of (variables_of groups.now.items) rows.now.items gap lines.entry) }
{
    let Some(rows) = read_row_duals(alloc, rows, &mut lines)? else {
        return Ok(None);
    };
    let Some(vars) = read_numbers(alloc, b"dual var ", groups, &mut lines)? else {
        return Ok(None);
    };
    Ok(at_end(Certificate::Infeasible { gap, rows, vars }, lines))
}

#[tactic(auto, unfolding(crate::specs::Reading::unbounded_of))]
fn read_unbounded(
    alloc: Global,
    groups: &Groups,
    mut lines: Pieces<'_>,
) -> Result<Option<Certificate>, Memory>
    ensures { IfOk result (λ found. found
        ≡ texts.unbounded_of (variables_of groups.now.items) lines.entry) }
{
    let Some(x) = read_numbers(alloc, b"primal ", groups, &mut lines)? else {
        return Ok(None);
    };
    let Some(d) = read_numbers(alloc, b"ray ", groups, &mut lines)? else {
        return Ok(None);
    };
    Ok(at_end(Certificate::Unbounded { x, d }, lines))
}

// A certificate after whose lines nothing stands.
fn at_end(certificate: Certificate, mut lines: Pieces<'_>) -> Option<Certificate>
    ensures { result ≡ texts.at_end certificate lines.entry }
{
    let (Some([]), None) = (lines.next(), lines.next()) else {
        return None;
    };
    Some(certificate)
}

// A number of each variable, each on a line of its own.
fn read_numbers(
    alloc: Global,
    word: &[u8],
    groups: &Groups,
    lines: &mut Pieces<'_>,
) -> Result<Option<Ratios>, Memory>
    ensures { IfOk result (λ found. option_map (λ x. (x, lines.new)) found
        ≡ texts.point_of (variables_of groups.now.items) word.now lines.old) }
{
    let mut numbers = Vec::new(alloc);
    for var in Variables::of(groups) {
        let Some(line) = lines.next() else {
            return Ok(None);
        };
        let Some(number) = variable_number(alloc, word, var, line)? else {
            return Ok(None);
        };
        numbers.push(number)?;
    }
    Ok(Some(Sequence::from_vec(numbers)))
}

fn variable_number(
    alloc: Global,
    word: &[u8],
    var: &GroupVar,
    line: &[u8],
) -> Result<Option<Ratio>, Memory>
    ensures { IfOk result (λ number. number ≡ texts.variable_number word.now var.now line.now) }
{
    let mut head = Vec::new(alloc);
    push_variable_head(&mut head, word, &var.name)?;
    Ok(number_after(line, &head))
}

// The duals of each row, each row's on a line of its own.
fn read_row_duals(
    alloc: Global,
    rows: &Rows,
    lines: &mut Pieces<'_>,
) -> Result<Option<DualRows>, Memory>
    ensures { IfOk result (λ found. option_map (λ duals. (duals, lines.new)) found
        ≡ texts.row_duals_of rows.now.items lines.old) }
{
    let mut duals = Vec::new(alloc);
    for row in rows.iter() {
        let Some(line) = lines.next() else {
            return Ok(None);
        };
        let Some(own) = row_duals(alloc, row, line)? else {
            return Ok(None);
        };
        duals.push(own)?;
    }
    Ok(Some(Sequence::from_vec(duals)))
}

#[tactic(auto, unfolding(crate::specs::Reading::duals_of))]
fn row_duals(alloc: Global, row: &Row, line: &[u8]) -> Result<Option<Ratios>, Memory>
    ensures { IfOk result (λ duals. duals ≡ texts.duals_of row.now line.now) }
{
    let mut head = Vec::new(alloc);
    push_row_head(&mut head, &row.name)?;
    let Some(rest) = line.strip_prefix(&head) else {
        return Ok(None);
    };
    let Some(duals) = numbers(alloc, rest)? else {
        return Ok(None);
    };
    if duals.len() == component_count(&row.func) {
        Ok(Some(duals))
    } else {
        Ok(None)
    }
}

// Numbers, each after a space.
#[tactic(auto, unfolding(crate::specs::Reading::numbers_of))]
fn numbers(alloc: Global, text: &[u8]) -> Result<Option<Ratios>, Memory>
    ensures { IfOk result (λ numbers. numbers ≡ texts.numbers_of text.now) }
{
    let mut words = Pieces::new(text, b' ');
    let Some([]) = words.next() else {
        return Ok(None);
    };
    each_number(alloc, words)
}

fn each_number(alloc: Global, words: Pieces<'_>) -> Result<Option<Ratios>, Memory>
    ensures { IfOk result (λ numbers. numbers ≡ each rational_of words.entry) }
{
    let mut numbers = Vec::new(alloc);
    for word in words {
        let Some(number) = Ratio::read(word) else {
            return Ok(None);
        };
        numbers.push(number)?;
    }
    Ok(Some(Sequence::from_vec(numbers)))
}
