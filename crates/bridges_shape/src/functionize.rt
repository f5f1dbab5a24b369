//! Plain rows as affine ones.
ghost use Rattle.std.specs.Prelude.{◌≡◌, IfOk};
ghost use Rattle.bridges_shape.specs.FunctionizeLaws.{IsPlainRow, made};

use aff_core::Aff;
use bridge_face::variables;
use item_core::Body;
use lists::Memory;
use std::alloc::Global;

/// The affine row of a plain row's variables, in the same set.
pub fn functionized(alloc: Global, body: &Body) -> Result<Body, Memory>
    requires { IsPlainRow body.now }
    ensures { IfOk result (λ row. row ≡ made body.now) }
{
    match body {
        Body::Plain { var, set } => Ok(Body::Affine {
            func: Aff::variable(alloc, var)?,
            set: set.copy(alloc)?,
        }),
        Body::PlainVec { vars, set } => Ok(Body::AffineVec {
            func: variables(alloc, vars.as_slice())?,
            set: set.copy(alloc)?,
        }),
        _ => unreachable!(),
    }
}
