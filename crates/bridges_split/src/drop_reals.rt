//! A row that all vectors meet needs no row.
//!
//! - From: a plain or an affine vector row in `Reals`, by the edges 39 and 40.
//! - To: nothing.
//! - Dual: a zero for each component.
//! - In MathOptInterface there is no such bridge.
ghost use Rattle.std.specs.Prelude.{◌≡◌, IfOk, replicate};
ghost use Rattle.ratio_core.specs.Rational.{zero_ℚ};

use bridge_face::{ChildRows, KeptItem, Rewriting, component_count, rows_image};
use item_core::{Edge, Image, Item};
use lists::Memory;
use ratio_core::{NumberFault, Ratio, Ratios};
use std::alloc::Global;

/// The family that drops rows in `Reals`.
#[derive(Drop)]
pub struct DropReals;

impl Rewriting for DropReals {
    ghost use Rattle.item_core.specs.declared.family.Family.TheVariants as families;
    ghost use Rattle.bridges_split.specs.DropRealsLaws.{drop_reals_lawful};

    ghost family = { families.DropReals };

    fn image(alloc: Global, _edge: Edge, _item: &Item) -> Result<Image, NumberFault> {
        Ok(rows_image(alloc, Vec::new(alloc)))
    }

    fn child_rows(_kept: &KeptItem) -> ChildRows {
        ChildRows { first: 0, count: 0 }
    }

    fn back(alloc: Global, kept: &KeptItem, _duals: &[Ratios]) -> Result<Ratios, NumberFault> {
        let count = component_count(&kept.item.body);
        Ok(zeros(alloc, count as usize)?)
    }

    ghost lawful = { drop_reals_lawful };
}

fn zeros(alloc: Global, count: usize) -> Result<Ratios, Memory>
    ensures { IfOk result (λ zeros. zeros ≡ replicate count zero_ℚ) }
{
    Ok(Ratios::from_vec(vec![in alloc; Ratio::zero(); count]?))
}
