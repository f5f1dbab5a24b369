//! A row in a set that is what two others have in common is a row in each of them.
//!
//! - From: a plain or an affine row in `Interval(l, u)`, an affine row in `EqualTo(v)`, or an
//!   affine vector row in `Zeros`, by the edges 11 to 14.
//! - To: at position 0 the row in `GreaterThan(l)`, `GreaterThan(v)` or `Nonnegatives`, and at
//!   position 1 the row in `LessThan(u)`, `LessThan(v)` or `Nonpositives`.
//! - Dual: the first child's numbers plus the second's.
//! - In MathOptInterface: `SplitIntervalBridge`.
ghost use Rattle.std.specs.Prelude.{◌≡◌, IfOk};
ghost use Rattle.item_core.specs.Item as items;
ghost use Rattle.bridge_face.specs.Images as images;
ghost use Rattle.bridges_split.specs.SplitSetLaws.{IsSplitRow, IsSplitSet};

use bridge_face::{ChildRows, KeptItem, Rewriting, place_sums, rows_image};
use item_core::{Body, Edge, Image, Item};
use lists::{Duplicate, Memory};
use ratio_core::{NumberFault, Ratios};
use set_core::Set;
use std::alloc::Global;

/// The family that splits a set into two.
#[derive(Drop)]
pub struct SplitSet;

impl Rewriting for SplitSet {
    ghost use Rattle.item_core.specs.declared.family.Family.TheVariants as families;
    ghost use Rattle.bridges_split.specs.SplitSetLaws.{split_set_lawful};

    ghost family = { families.SplitSet };

    fn image(alloc: Global, _edge: Edge, item: &Item) -> Result<Image, NumberFault> {
        let set = set_of(&item.body);
        let mut rows = Vec::with_capacity(alloc, 2)?;
        rows.push(Item {
            at: item.at.child(0),
            body: with_set(&item.body, lower_part(set))?,
        })?;
        rows.push(Item {
            at: item.at.child(1),
            body: with_set(&item.body, upper_part(set))?,
        })?;
        Ok(rows_image(alloc, rows))
    }

    fn child_rows(_kept: &KeptItem) -> ChildRows {
        ChildRows { first: 0, count: 2 }
    }

    fn back(alloc: Global, _kept: &KeptItem, duals: &[Ratios]) -> Result<Ratios, NumberFault> {
        place_sums(alloc, duals[0].as_slice(), duals[1].as_slice())
    }

    ghost lawful = { split_set_lawful };
}

// The set of the row.
fn set_of(body: &Body) -> &Set
    requires { IsSplitRow body.now }
    ensures { result.now ≡ items.set_of body.now }
{
    match body {
        Body::Plain { set, .. } | Body::Affine { set, .. } | Body::AffineVec { set, .. } => set,
        _ => unreachable!(),
    }
}

// The row in another set.
fn with_set(body: &Body, set: Set) -> Result<Body, Memory>
    requires { IsSplitRow body.now }
    ensures { IfOk result (λ row. row ≡ images.with_set body.now set) }
{
    match body {
        Body::Plain { var, .. } => Ok(Body::Plain { var: *var, set }),
        Body::Affine { func, .. } => Ok(Body::Affine {
            func: func.copy()?,
            set,
        }),
        Body::AffineVec { func, .. } => Ok(Body::AffineVec {
            func: func.copy()?,
            set,
        }),
        _ => unreachable!(),
    }
}

// The set of what is high enough.
fn lower_part(set: &Set) -> Set
    requires { IsSplitSet set.now }
    ensures { result ≡ images.lower_part set.now }
{
    match set {
        Set::Interval { lower, .. } => Set::GreaterThan { lower: *lower },
        Set::EqualTo { value } => Set::GreaterThan { lower: *value },
        Set::Zeros { dimension } => Set::Nonnegatives {
            dimension: *dimension,
        },
        _ => unreachable!(),
    }
}

// The set of what is low enough.
fn upper_part(set: &Set) -> Set
    requires { IsSplitSet set.now }
    ensures { result ≡ images.upper_part set.now }
{
    match set {
        Set::Interval { upper, .. } => Set::LessThan { upper: *upper },
        Set::EqualTo { value } => Set::LessThan { upper: *value },
        Set::Zeros { dimension } => Set::Nonpositives {
            dimension: *dimension,
        },
        _ => unreachable!(),
    }
}
