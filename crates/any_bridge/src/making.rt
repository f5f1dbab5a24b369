//! Lists of bridges, each of a family of its own.
ghost use Rattle.std.specs.Prelude.{◌≡◌, All, IfOk, IsTrue, map};
ghost use Rattle.std.specs.FinMap as finite;
ghost use Rattle.any_bridge.specs.States.{fresh, state_of_any};
ghost use Rattle.bridge_set.specs.Bridges.{families_of, occur_once};
ghost use Rattle.script_tokens.specs.declared.family.TheConstants.{FAMILIES};

use crate::AnyBridge;
use item_core::Family;
use lists::Memory;
use script_tokens::FAMILIES;
use std::alloc::Global;

/// A bridge of each family, which keeps nothing.
pub fn all_bridges(alloc: Global) -> Result<Vec<AnyBridge>, Memory>
    ensures states { IfOk result (λ bridges. map state_of_any bridges.items
        ≡ map fresh FAMILIES) }
    ensures once { IfOk result (λ bridges.
        IsTrue (occur_once (families_of (map state_of_any bridges.items)))) }
    ensures kept { IfOk result (λ bridges.
        All (λ s. s.kept ≡ finite.empty) (map state_of_any bridges.items)) }
{
    bridges_of(alloc, &FAMILIES)
}

/// A bridge of each of these families, in their order, which keeps nothing.
pub fn bridges_of(alloc: Global, families: &[Family]) -> Result<Vec<AnyBridge>, Memory>
    requires once { IsTrue (occur_once families.now) }
    ensures states { IfOk result (λ bridges. map state_of_any bridges.items
        ≡ map fresh families.now) }
    ensures once { IfOk result (λ bridges.
        IsTrue (occur_once (families_of (map state_of_any bridges.items)))) }
    ensures kept { IfOk result (λ bridges.
        All (λ s. s.kept ≡ finite.empty) (map state_of_any bridges.items)) }
{
    let bridges = made(alloc, families)?;
    Ok(bridges)
}

fn made(alloc: Global, families: &[Family]) -> Result<Vec<AnyBridge>, Memory>
    ensures { IfOk result (λ bridges. map state_of_any bridges.items ≡ map fresh families.now) }
{
    let mut bridges = Vec::with_capacity(alloc, families.len())?;
    for family in families {
        bridges.push(AnyBridge::new(alloc, *family))?;
    }
    Ok(bridges)
}
