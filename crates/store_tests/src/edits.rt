// Edits: those that a line says, and some that none says.
use model_store::{Edit, Sense};
use ratio_core::Ratio;
use script_core::{Command, parse_line};
use set_core::Set;
use std::alloc::Global;
use test_support::Stop;

/// The edit of a line.
pub fn read(alloc: Global, line: &str) -> Result<Edit, Stop> {
    match parse_line(alloc, line.as_bytes())? {
        Command::Edit(edit) => Ok(edit),
        _ => Err(Stop),
    }
}

/// The edit otherwise, as a word says.
pub fn otherwise(word: &str, edit: Edit) -> Edit {
    match word {
        "zeros0" => with_set(edit, Set::Zeros { dimension: 0 }),
        "zeros3" => with_set(edit, Set::Zeros { dimension: 3 }),
        "minimize" => as_objective(edit),
        _ => with_set(edit, at_least_0()),
    }
}

fn at_least_0() -> Set {
    Set::GreaterThan {
        lower: Ratio::zero(),
    }
}

fn with_set(edit: Edit, set: Set) -> Edit {
    match edit {
        Edit::AddGroup { names, .. } => Edit::AddGroup { names, set },
        Edit::AddRow { name, func, .. } => Edit::AddRow { name, func, set },
        edit => edit,
    }
}

fn as_objective(edit: Edit) -> Edit {
    match edit {
        Edit::AddRow { func, .. } => Edit::Objective {
            sense: Sense::Min,
            func,
        },
        edit => edit,
    }
}
