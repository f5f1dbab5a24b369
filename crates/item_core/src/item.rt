//! Items of models and of what bridges make of them.
ghost use Rattle.std.specs.Prelude.{◌≡◌};
ghost use Rattle.item_core.specs.KindOf.{kind_of_body, group_kind_of, plain_kind_of, affine_kind_of};

use crate::{Kind, Sense};
use aff_core::{Address, Addresses, Aff, VecAff};
use lists::Sequence;
use set_core::Set;

/// What an item asks: that its variables are created in a set, that a function is in a set, or
/// that a function is made least or greatest.
#[derive(Debug, Drop)]
pub enum Body {
    /// Variables created together in a set.
    Group { set: Set, vars: Addresses },
    /// Free variables, which rows alone restrict.
    Free { vars: Addresses },
    Plain { var: Address, set: Set },
    Affine { func: Aff, set: Set },
    PlainVec { vars: Addresses, set: Set },
    AffineVec { func: VecAff, set: Set },
    PlainObj { sense: Sense, var: Address },
    AffineObj { sense: Sense, func: Aff },
}

/// An item, at its address.
#[derive(Debug, Drop)]
pub struct Item {
    pub at: Address,
    pub body: Body,
}

/// A list of items.
pub type Items = Sequence<Item>;

/// The kind of an item as it stands: a plain function that names a bridged variable is an affine
/// one only after its expression was put in.
#[tactic(auto, unfolding(crate::specs::KindOf::kind_of_body))]
pub fn kind_of(item: &Item) -> Kind
    ensures { result ≡ kind_of_body item.now.body }
{
    match &item.body {
        Body::Group { set, .. } => group_kind(set),
        Body::Free { .. } => Kind::Free,
        Body::Plain { set, .. } | Body::PlainVec { set, .. } => plain_kind(set),
        Body::Affine { set, .. } | Body::AffineVec { set, .. } => affine_kind(set),
        Body::PlainObj { sense, .. } => match sense {
            Sense::Min => Kind::MinPlain,
            Sense::Max => Kind::MaxPlain,
        },
        Body::AffineObj { sense, .. } => match sense {
            Sense::Min => Kind::MinAffine,
            Sense::Max => Kind::MaxAffine,
        },
    }
}

/// The kind of variables created in the set.
pub fn group_kind(set: &Set) -> Kind
    ensures { result ≡ group_kind_of set.now }
{
    match set {
        Set::LessThan { .. } => Kind::GroupLessThan,
        Set::GreaterThan { .. } => Kind::GroupGreaterThan,
        Set::EqualTo { .. } => Kind::GroupEqualTo,
        Set::Interval { .. } => Kind::GroupInterval,
        Set::Reals { .. } => Kind::GroupReals,
        Set::Zeros { .. } => Kind::GroupZeros,
        Set::Nonnegatives { .. } => Kind::GroupNonnegatives,
        Set::Nonpositives { .. } => Kind::GroupNonpositives,
        Set::NormInfinityCone { .. } => Kind::GroupNormInfinityCone,
        Set::NormOneCone { .. } => Kind::GroupNormOneCone,
    }
}

/// The kind of plain variables in the set.
pub fn plain_kind(set: &Set) -> Kind
    ensures { result ≡ plain_kind_of set.now }
{
    match set {
        Set::LessThan { .. } => Kind::PlainLessThan,
        Set::GreaterThan { .. } => Kind::PlainGreaterThan,
        Set::EqualTo { .. } => Kind::PlainEqualTo,
        Set::Interval { .. } => Kind::PlainInterval,
        Set::Reals { .. } => Kind::VplainReals,
        Set::Zeros { .. } => Kind::VplainZeros,
        Set::Nonnegatives { .. } => Kind::VplainNonnegatives,
        Set::Nonpositives { .. } => Kind::VplainNonpositives,
        Set::NormInfinityCone { .. } => Kind::VplainNormInfinityCone,
        Set::NormOneCone { .. } => Kind::VplainNormOneCone,
    }
}

/// The kind of affine functions in the set.
pub fn affine_kind(set: &Set) -> Kind
    ensures { result ≡ affine_kind_of set.now }
{
    match set {
        Set::LessThan { .. } => Kind::AffineLessThan,
        Set::GreaterThan { .. } => Kind::AffineGreaterThan,
        Set::EqualTo { .. } => Kind::AffineEqualTo,
        Set::Interval { .. } => Kind::AffineInterval,
        Set::Reals { .. } => Kind::VaffineReals,
        Set::Zeros { .. } => Kind::VaffineZeros,
        Set::Nonnegatives { .. } => Kind::VaffineNonnegatives,
        Set::Nonpositives { .. } => Kind::VaffineNonpositives,
        Set::NormInfinityCone { .. } => Kind::VaffineNormInfinityCone,
        Set::NormOneCone { .. } => Kind::VaffineNormOneCone,
    }
}
