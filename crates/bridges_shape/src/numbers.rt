//! Sets with one number.
ghost use Rattle.std.specs.Prelude.{◌≡◌};
ghost use Rattle.bridge_face.specs.Images.{cone_of, number_in};
ghost use Rattle.bridges_shape.specs.RaisedLaws.{HasDifferenceCone};

use ratio_core::Ratio;
use set_core::Set;

/// The number of a `LessThan`, a `GreaterThan` or an `EqualTo`: its bound, or the value asked for.
pub fn number(set: &Set) -> Ratio
    requires { HasDifferenceCone set.now (number_in set.now) (cone_of set.now) }
    ensures { result ≡ number_in set.now }
{
    match set {
        Set::LessThan { upper } => *upper,
        Set::GreaterThan { lower } => *lower,
        Set::EqualTo { value } => *value,
        _ => unreachable!(),
    }
}

/// The cone that has the differences from that number: of one nonpositive number, of one
/// nonnegative number, or of one zero.
pub fn cone(set: &Set) -> Set
    requires { HasDifferenceCone set.now (number_in set.now) (cone_of set.now) }
    ensures { result ≡ cone_of set.now }
{
    match set {
        Set::LessThan { .. } => Set::Nonpositives { dimension: 1 },
        Set::GreaterThan { .. } => Set::Nonnegatives { dimension: 1 },
        Set::EqualTo { .. } => Set::Zeros { dimension: 1 },
        _ => unreachable!(),
    }
}
