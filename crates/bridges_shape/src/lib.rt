//! Bridges that change the shape of functions: plain ones into affine ones, numbers into vectors
//! and vectors into numbers.
#![tactic(auto)]

mod functionize;
mod numbers;
mod obj_functionize;
mod scalar_functionize;
mod scalarize;
mod vector_functionize;
mod vectorize;
mod vectorize_var;

pub use obj_functionize::{ObjFunctionize, ObjFunctionizeRule};
pub use scalar_functionize::{ScalarFunctionize, ScalarFunctionizeRule};
pub use scalarize::Scalarize;
pub use vector_functionize::{VectorFunctionize, VectorFunctionizeRule};
pub use vectorize::{Vectorize, VectorizeRule};
pub use vectorize_var::{VectorizeVar, VectorizeVarRule};
