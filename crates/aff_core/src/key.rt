//! Keys of affine functions, each with the functions over it that contracts see.
ghost use Rattle.std.specs.Prelude.{◌≡◌, List, filter};
ghost use Rattle.std.specs.Ordering.{nat_cmp};
ghost use Rattle.ratio_core.specs.Rational.{Rational};
ghost use Rattle.aff_core.specs.Address.{address_cmp};
ghost use Rattle.aff_core.specs.Function as functions;
ghost use Rattle.aff_core.specs.FunctionLaws as laws;
ghost use Rattle.aff_core.specs.Rising.{RiseBy};
ghost use Rattle.aff_core.specs.Terms.{HaveNoZero, is_nonzero};

use crate::Address;
use std::marker::Model;

/// What an affine function has coefficients of, in an order of its own.
///
/// The value of a model can't cite the order of a type parameter, so each key names the functions
/// over it.
pub trait Key: Ord + Copy {
    /// The affine functions over such keys, as contracts see them.
    type Functions;

    // Of terms in the order of their keys, of which those with the coefficient 0 are left out.
    ghost function_of: { List (Self × Rational) → Rational → Self.Functions };

    ghost terms_of: { Self.Functions → List (Self × Rational) };

    ghost constant_of: { Self.Functions → Rational };

    ghost terms_kept: { (ts : List (Self × Rational)) (k : Rational) → RiseBy Self.cmp ts
        → HaveNoZero ts → terms_of (function_of ts k) ≡ ts };

    ghost constant_kept: { (ts : List (Self × Rational)) (k : Rational)
        → constant_of (function_of ts k) ≡ k };

    ghost zeros_left_out: { (ts : List (Self × Rational)) (k : Rational) → RiseBy Self.cmp ts
        → function_of (filter is_nonzero ts) k ≡ function_of ts k };
}

/// The affine functions of addresses, as contracts see them. No value of this type is made.
pub struct AddressFunctions;

impl Model for AddressFunctions {
    ghost use Rattle.ratio_core.specs.Rational.{zero_ℚ};
    ghost use Rattle.aff_core.specs.Function.{Function, constant_function, function_code};

    ghost Value = { Function };

    ghost coded = { function_code };

    ghost view = { λ _. constant_function zero_ℚ };
}

impl Key for Address {
    type Functions = AddressFunctions;

    ghost function_of = { functions.function_of };

    ghost terms_of = { functions.terms_of };

    ghost constant_of = { λ f. f.constant };

    ghost terms_kept = { laws.terms_kept };

    ghost constant_kept = { laws.constant-function_of address_cmp };

    ghost zeros_left_out = { laws.function_of-filter };
}

/// The affine functions of indices, as contracts see them. No value of this type is made.
pub struct IndexFunctions;

impl Model for IndexFunctions {
    ghost use Rattle.std.specs.Coded.{coded_ℕ};
    ghost use Rattle.std.specs.Ordering.{nat_cmp};
    ghost use Rattle.ratio_core.specs.Rational.{zero_ℚ};
    ghost use Rattle.aff_core.specs.Function.{FunctionOver, code_over, constant_function};

    ghost Value = { FunctionOver nat_cmp };

    ghost coded = { code_over coded_ℕ };

    ghost view = { λ _. constant_function zero_ℚ };
}

impl Key for usize {
    type Functions = IndexFunctions;

    ghost function_of = { functions.function_of };

    ghost terms_of = { functions.terms_of };

    ghost constant_of = { λ f. f.constant };

    ghost terms_kept = { laws.terms_kept };

    ghost constant_kept = { laws.constant-function_of nat_cmp };

    ghost zeros_left_out = { laws.function_of-filter };
}
