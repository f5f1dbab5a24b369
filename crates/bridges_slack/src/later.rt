//! `x in S` is a variable that is free at first, and a row that it is in `S`.
//!
//! - From: a group in `LessThan`, `GreaterThan`, `EqualTo`, `Interval`, `Nonnegatives`,
//!   `NormInfinityCone` or `NormOneCone`, by the edges 49 to 57.
//! - To: at position 0 a group of as many variables, free by the edges 49 to 53 and in `Reals` by
//!   the others, and at position 1 their row in the group's set, plain by the edges 49 to 53 and
//!   affine by the others. The variables stand for the components.
//! - In MathOptInterface this is how variables are constrained where no bridge of variables is
//!   used.
ghost use Rattle.std.specs.Prelude.{◌≡◌, IfOk, false, map, true};
ghost use Rattle.set_core.specs.Shapes.{is_scalar};
ghost use Rattle.item_core.specs.Edge.{children_of};
ghost use Rattle.item_core.specs.declared.image.Expression.TheVariants as expressions;
ghost use Rattle.bridge_face.specs.ImageOf as images;
ghost use Rattle.bridges_slack.specs.LaterLaws.{first_child, second_child};

use aff_core::{Address, Addresses, Aff};
use bridge_face::{
    GroupRule, OneGroup, component_count, group_row_image, inner_variables, item_set, variables,
};
use item_core::{Body, Children, Edge, Expression, Expressions, Image, Item, Kind};
use lists::Memory;
use set_core::Set;
use std::alloc::Global;

/// The family of variables that are constrained later.
pub type Later = OneGroup<LaterRule>;

/// What `Later` does with one group.
#[derive(Drop)]
pub struct LaterRule;

impl GroupRule for LaterRule {
    ghost use Rattle.item_core.specs.declared.family.Family.TheVariants as families;
    ghost use Rattle.bridges_slack.specs.LaterLaws as laws;

    ghost family = { families.Later };

    ghost source = { laws.LaterSourced };

    ghost made = { images.later };

    ghost row_count = { 1 };

    fn rows() -> u16 {
        1
    }

    fn image(alloc: Global, edge: Edge, item: &Item) -> Result<Image, Memory> {
        let at = item.at.child(0);
        let count = component_count(&item.body);
        let free = begins_free(edge);
        let vars = inner_variables(alloc, item, count)?;
        let exprs = kept(alloc, vars.as_slice())?;
        let set = item_set(alloc, &item.body)?;
        let row = row_body(alloc, free, &at.child(0), vars.as_slice(), set)?;
        let group = Item {
            at,
            body: group_body(free, count, vars),
        };
        group_row_image(alloc, item, group, exprs, row)
    }

    ghost rule = { laws.rule };
}

// Whether the edge makes free variables.
fn begins_free(edge: Edge) -> bool
    ensures { result ≡ images.begins_free (children_of edge) }
{
    match edge.entry().children {
        Children::One(Kind::Free)
        | Children::Two(Kind::Free, _)
        | Children::Three(Kind::Free, _, _) => true,
        _ => false,
    }
}

// The child group.
fn group_body(free: bool, count: u16, vars: Addresses) -> Body
    ensures { result ≡ first_child free count vars }
{
    if free {
        return Body::Free { vars };
    }
    Body::Group {
        set: Set::Reals {
            dimension: count as u32,
        },
        vars,
    }
}

// The child row: of the first variable alone where the set is one of numbers, and else of all.
fn row_body(
    alloc: Global,
    free: bool,
    first: &Address,
    vars: &[Address],
    set: Set,
) -> Result<Body, Memory>
    ensures { IfOk result (λ row. row
        ≡ second_child free (is_scalar set) first.now vars.now set) }
{
    if free {
        return plain_body(alloc, first, vars, set);
    }
    affine_body(alloc, first, vars, set)
}

fn plain_body(alloc: Global, first: &Address, vars: &[Address], set: Set) -> Result<Body, Memory>
    ensures { IfOk result (λ row. row
        ≡ second_child true (is_scalar set) first.now vars.now set) }
{
    if set.is_scalar() {
        return Ok(Body::Plain { var: *first, set });
    }
    Ok(Body::PlainVec {
        vars: Addresses::from_vec(vars.to_vec(alloc)?),
        set,
    })
}

fn affine_body(alloc: Global, first: &Address, vars: &[Address], set: Set) -> Result<Body, Memory>
    ensures { IfOk result (λ row. row
        ≡ second_child false (is_scalar set) first.now vars.now set) }
{
    if set.is_scalar() {
        return Ok(Body::Affine {
            func: Aff::variable(alloc, first)?,
            set,
        });
    }
    Ok(Body::AffineVec {
        func: variables(alloc, vars)?,
        set,
    })
}

// The variables as expressions.
fn kept(alloc: Global, vars: &[Address]) -> Result<Expressions, Memory>
    ensures { IfOk result (λ exprs. exprs ≡ map expressions.Kept vars.now) }
{
    let mut exprs = Vec::with_capacity(alloc, vars.len())?;
    for var in vars {
        exprs.push(Expression::Kept { var: *var })?;
    }
    Ok(Expressions::from_vec(exprs))
}
