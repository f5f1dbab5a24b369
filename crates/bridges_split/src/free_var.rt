//! Variables without bounds are differences of variables that are at least 0.
//!
//! - From: a group of d variables in `Reals`, by edge 43.
//! - To: at position 0 a group `s` of 2 d variables in `Nonnegatives`; component i is
//!   `s_i - s_(d+i)`.
//! - In MathOptInterface: `FreeBridge` of variables.
ghost use Rattle.std.specs.Prelude.{◌≡◌, ◌<◌, ◌≤◌, IfOk, length, map};
ghost use Rattle.std.specs.List.{range_with_len};
ghost use Rattle.bridges_split.specs.FreeVarLaws.{halved};

use aff_core::{Address, Aff};
use bridge_face::{
    GroupRule, OneGroup, child_group, component_count, group_image, inner_variables, less_variable,
};
use item_core::{Edge, Expression, Expressions, Image, Item};
use lists::Memory;
use set_core::Set;
use std::alloc::Global;

/// The family of variables without bounds.
pub type FreeVar = OneGroup<FreeVarRule>;

/// What `FreeVar` does with one group.
#[derive(Drop)]
pub struct FreeVarRule;

impl GroupRule for FreeVarRule {
    ghost use Rattle.item_core.specs.declared.family.Family.TheVariants as families;
    ghost use Rattle.bridge_face.specs.ImageOf as images;
    ghost use Rattle.bridges_split.specs.FreeVarLaws as laws;

    ghost family = { families.FreeVar };

    ghost source = { laws.FreeVarSourced };

    ghost made = { λ edge. images.free_var };

    ghost row_count = { 0 };

    fn rows() -> u16 {
        0
    }

    fn image(alloc: Global, _edge: Edge, group: &Item) -> Result<Image, Memory> {
        let count = component_count(&group.body);
        let both = count + count;
        let vars = inner_variables(alloc, group, both)?;
        let exprs = differences(alloc, &group.at.child(0), count)?;
        let set = Set::Nonnegatives {
            dimension: both as u32,
        };
        group_image(alloc, child_group(group, set, vars), exprs)
    }

    ghost rule = { laws.rule };
}

// The differences of a group's variables, of the first half and the second.
fn differences(alloc: Global, group: &Address, count: u16) -> Result<Expressions, Memory>
    requires depth { length group.now.positions < 40 }
    requires count { count ≤ 32767 }
    ensures { IfOk result (λ exprs.
        exprs ≡ map (halved group.now count) (range_with_len 0 count)) }
{
    let mut exprs = Vec::with_capacity(alloc, count as usize)?;
    for n in 0..count {
        let plus = Aff::variable(alloc, &group.child(n))?;
        let func = less_variable(&plus, &group.child(count + n))?;
        exprs.push(Expression::Bridged { func })?;
    }
    Ok(Expressions::from_vec(exprs))
}
