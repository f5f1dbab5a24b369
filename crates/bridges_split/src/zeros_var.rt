//! Variables that are 0 need no variables.
//!
//! - From: a group in `Zeros`, by edge 45.
//! - To: nothing; each component is 0.
//! - In MathOptInterface: `ZerosBridge` of variables.
ghost use Rattle.std.specs.Prelude.{◌≡◌, IfOk, replicate};
ghost use Rattle.bridges_split.specs.ZerosVarLaws.{none_of};

use aff_core::Aff;
use bridge_face::{ChildRows, KeptItem, Rewriting, component_count};
use item_core::{Edge, Expression, Expressions, Image, Item, Items};
use lists::Memory;
use ratio_core::{NumberFault, Ratio, Ratios};
use std::alloc::Global;

/// The family of variables that are 0.
#[derive(Drop)]
pub struct ZerosVar;

impl Rewriting for ZerosVar {
    ghost use Rattle.item_core.specs.declared.family.Family.TheVariants as families;
    ghost use Rattle.bridges_split.specs.ZerosVarLaws.{zeros_var_lawful};

    ghost family = { families.ZerosVar };

    fn image(alloc: Global, _edge: Edge, item: &Item) -> Result<Image, NumberFault> {
        let count = component_count(&item.body);
        let exprs = nothings(alloc, count as usize)?;
        Ok(Image {
            groups: Items::new(alloc),
            exprs,
            rows: Items::new(alloc),
            objective: None,
        })
    }

    fn child_rows(_kept: &KeptItem) -> ChildRows {
        ChildRows { first: 0, count: 0 }
    }

    fn back(_alloc: Global, _kept: &KeptItem, _duals: &[Ratios]) -> Result<Ratios, NumberFault> {
        unreachable!()
    }

    ghost lawful = { zeros_var_lawful };
}

// Expressions that are 0.
fn nothings(alloc: Global, count: usize) -> Result<Expressions, Memory>
    ensures { IfOk result (λ exprs. exprs ≡ replicate count none_of) }
{
    let mut exprs = Vec::with_capacity(alloc, count)?;
    for _n in 0..count {
        exprs.push(Expression::Bridged {
            func: Aff::constant_function(alloc, Ratio::zero()),
        })?;
    }
    Ok(Expressions::from_vec(exprs))
}
