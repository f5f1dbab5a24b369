//! The least `f` is minus the greatest `-f`, and the greatest `f` minus the least `-f`.
//!
//! - From: an affine objective, by the edges 58 and 59.
//! - To: at position 0 the objective of `-f` in the other sense.
//! - In MathOptInterface there is no such bridge; `Objective.SlackBridge` leaves the sense.
ghost use Rattle.std.specs.Prelude.{◌≡◌};
ghost use Rattle.bridge_face.specs.ImageOf.{opposite as other};

use bridge_face::{ObjectiveRule, OneObjective};
use item_core::{Body, Sense};
use lists::Memory;
use std::alloc::Global;

/// The family that turns `min` into `max`, and back.
pub type ObjFlip = OneObjective<ObjFlipRule>;

/// What `ObjFlip` does with one objective.
#[derive(Drop)]
pub struct ObjFlipRule;

impl ObjectiveRule for ObjFlipRule {
    ghost use Rattle.item_core.specs.declared.family.Family.TheVariants as families;
    ghost use Rattle.bridge_face.specs.ObjectiveLaws as objectives;
    ghost use Rattle.bridges_flip.specs.ObjFlipLaws as laws;

    ghost family = { families.ObjFlip };

    ghost source = { objectives.IsAffineObjective };

    ghost made = { laws.made };

    fn child(_alloc: Global, objective: &Body) -> Result<Body, Memory> {
        match objective {
            Body::AffineObj { sense, func } => Ok(Body::AffineObj {
                sense: opposite(*sense),
                func: func.neg()?,
            }),
            _ => unreachable!(),
        }
    }

    ghost rule = { laws.rule };
}

// The other sense.
fn opposite(sense: Sense) -> Sense
    ensures { result ≡ other sense }
{
    match sense {
        Sense::Min => Sense::Max,
        Sense::Max => Sense::Min,
    }
}
