//! The components of a function.
ghost use Rattle.std.specs.Prelude.{◌≡◌, length};
ghost use Rattle.certificates.specs.Points.{functions_of};
ghost use Rattle.cert_core.specs.Components.{functions_in};

use aff_core::{Address, Aff};
use std::slice;
use user_model::UserFunc;

/// The components of a function: variables, or affine functions.
#[derive(Clone, Copy)]
pub(crate) enum Components<'a> {
    Variables(&'a [Address]),
    Functions(&'a [Aff]),
}

/// The components of a function of the user's.
pub(crate) fn components_of(func: &UserFunc) -> Components<'_>
    ensures { functions_in result ≡ functions_of func.now }
{
    match func {
        UserFunc::Plain(var) => Components::Variables(slice::from_ref(var)),
        UserFunc::Affine(f) => Components::Functions(slice::from_ref(f)),
        UserFunc::PlainVec(vars) => Components::Variables(vars.as_slice()),
        UserFunc::AffineVec(fs) => Components::Functions(fs.as_slice()),
    }
}

/// How many components a function has.
pub fn component_count(func: &UserFunc) -> usize
    ensures { result ≡ length (functions_of func.now) }
{
    match components_of(func) {
        Components::Variables(vars) => vars.len(),
        Components::Functions(fs) => fs.len(),
    }
}
