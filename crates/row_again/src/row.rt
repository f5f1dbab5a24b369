//! The edit that adds a row again.
ghost use Rattle.std.specs.Prelude.{◌≡◌, IfOk};
ghost use Rattle.mof_laws.specs.EditLaws as edits;
ghost use Rattle.mof_write.specs.Written.{naming};
ghost use Rattle.user_model.specs.Valid.{IsValidRow};

use crate::named_function;
use lists::{Duplicate, Memory};
use model_store::UserModel;
use std::alloc::Global;
use user_model::{Edit, Row};

/// The edit that adds a row with this one's name, function and set, whose variables stand in the
/// model.
pub fn row_edit(alloc: Global, model: &UserModel, row: &Row) -> Result<Edit, Memory>
    requires { IsValidRow model.now.model.groups row.now }
    ensures { IfOk result (λ edit. edit ≡ edits.row_edit (naming model.now.model) row.now) }
{
    Ok(Edit::AddRow {
        name: row.name.copy()?,
        func: named_function(alloc, model, &row.func)?,
        set: row.set.copy(alloc)?,
    })
}
