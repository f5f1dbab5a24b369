// The edits that build the model, and those that are timed.
use crate::kind::Kind;
use model_store::{Edit, NamedFunc};
use name_index::{Name, Names};
use named_aff::{NamedAff, NamedTerm, NamedTerms};
use ratio_core::{Memory, Ratio};
use set_core::Set;
use std::alloc::Global;

pub const VARIABLE: &str = "x";

pub const OTHER: &str = "y";

/// A variable, at least 0, in a group of its own.
pub fn add_variable(alloc: Global, variable: &str) -> Result<Edit, Memory> {
    Ok(Edit::AddGroup {
        names: one_name(alloc, variable)?,
        set: at_least(Ratio::zero()),
    })
}

/// The row of a number: x is at least 0, or, for rows that are deleted with it, x or y itself by
/// turns is 0.
pub fn add_row(alloc: Global, kind: Kind, row: u32) -> Result<Edit, Memory> {
    let name = row_name(alloc, row)?;
    match kind {
        Kind::DeleteVariable => Ok(Edit::AddRow {
            name,
            func: NamedFunc::PlainVec(one_name(alloc, by_turns(row))?),
            set: Set::Zeros { dimension: 1 },
        }),
        _ => Ok(Edit::AddRow {
            name,
            func: NamedFunc::Affine(once_x(alloc)?),
            set: at_least(Ratio::zero()),
        }),
    }
}

fn by_turns(row: u32) -> &'static str {
    if row % 2 == 0 { VARIABLE } else { OTHER }
}

/// The edit of a round, at the row of a number, if there is one. It changes the model: the
/// coefficients are 1 at first and the bounds 0, and the rounds give numbers from 2 on.
pub fn edit(alloc: Global, kind: Kind, row: u32, round: u32) -> Result<Edit, Memory> {
    let value = number(i128::from(round) + 2)?;
    match kind {
        Kind::Coef => coef(alloc, row_name(alloc, row)?, value),
        Kind::RowSet => Ok(Edit::RowSet {
            row: row_name(alloc, row)?,
            set: at_least(value),
        }),
        Kind::RenameRow => rename_row(alloc, row_name(alloc, row)?, round),
        Kind::Reset => Ok(Edit::Reset {
            var: name(alloc, VARIABLE)?,
            set: at_least(value),
        }),
        Kind::DeleteVariable => Ok(Edit::DeleteVariable {
            var: name(alloc, VARIABLE)?,
        }),
        Kind::DeleteRow | Kind::ReplaceRow => Ok(Edit::DeleteRow {
            row: row_name(alloc, row)?,
        }),
    }
}

fn coef(alloc: Global, row: Name, value: Ratio) -> Result<Edit, Memory> {
    let var = name(alloc, VARIABLE)?;
    Ok(Edit::Coef { row, var, value })
}

fn rename_row(alloc: Global, old: Name, round: u32) -> Result<Edit, Memory> {
    let text = format!(in alloc; "s{round}")?;
    let new = name(alloc, text.as_str())?;
    Ok(Edit::RenameRow { old, new })
}

fn at_least(lower: Ratio) -> Set {
    Set::GreaterThan { lower }
}

// Each number here fits.
fn number(whole: i128) -> Result<Ratio, Memory> {
    match Ratio::new(whole, 1) {
        Ok(number) => Ok(number),
        Err(_) => Err(Memory),
    }
}

// Each text here is a name.
fn name(alloc: Global, text: &str) -> Result<Name, Memory> {
    match Name::new(alloc, text) {
        Ok(name) => Ok(name),
        Err(_) => Err(Memory),
    }
}

fn row_name(alloc: Global, row: u32) -> Result<Name, Memory> {
    let text = format!(in alloc; "r{row}")?;
    name(alloc, text.as_str())
}

fn one_name(alloc: Global, variable: &str) -> Result<Names, Memory> {
    let mut names = Vec::new(alloc);
    names.push(name(alloc, variable)?)?;
    Ok(Names::from_vec(names))
}

fn once_x(alloc: Global) -> Result<NamedAff, Memory> {
    let mut terms = NamedTerms::new(alloc);
    let term = NamedTerm {
        variable: name(alloc, VARIABLE)?,
        coefficient: Ratio::one(),
    };
    match terms.push(term) {
        Ok(()) => Ok(NamedAff {
            terms,
            constant: Ratio::zero(),
        }),
        Err((_, memory)) => Err(memory),
    }
}
