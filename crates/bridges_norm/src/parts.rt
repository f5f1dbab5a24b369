//! The first of a row's functions or of a dual's numbers, and the others.
ghost use Rattle.std.specs.Prelude.{◌≡◌, ◌≤◌, length};
ghost use Rattle.bridge_face.specs.BackOf.{head_of, tail_of};
ghost use Rattle.bridge_face.specs.Images.{first_in, rest_of};

use aff_core::Aff;
use ratio_core::Ratio;

// The first function.
pub(crate) fn first_function(funcs: &[Aff]) -> &Aff
    requires { 1 ≤ length funcs.now }
    ensures { result.now ≡ first_in funcs.now }
{
    &funcs[0]
}

// The other functions.
pub(crate) fn other_functions(funcs: &[Aff]) -> &[Aff]
    ensures { result.now ≡ rest_of funcs.now }
{
    match funcs {
        [_, others @ ..] => others,
        [] => funcs,
    }
}

// The first number.
pub(crate) fn first_number(numbers: &[Ratio]) -> Ratio
    requires { 1 ≤ length numbers.now }
    ensures { result ≡ head_of numbers.now }
{
    numbers[0]
}

// The other numbers.
pub(crate) fn other_numbers(numbers: &[Ratio]) -> &[Ratio]
    ensures { result.now ≡ tail_of numbers.now }
{
    match numbers {
        [_, others @ ..] => others,
        [] => numbers,
    }
}
