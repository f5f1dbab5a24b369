//! Lists of bridges that a lazy bridging begins with.
ghost use Rattle.std.specs.Prelude.{◌≡◌, All, IsTrue, map};
ghost use Rattle.std.specs.FinMap as finite;
ghost use Rattle.bridge_set.specs.Bridges.{families_of, occur_once};

use bridge_face::Bridge;
use bridge_set::has_family;
use lists::Memory;

/// Adds a bridge unless the list has one of its family. It is emptied first.
pub fn add_bridge<B: Bridge>(bridges: &mut Vec<B>, mut bridge: B) -> Result<(), Memory>
    requires once { IsTrue (occur_once (families_of (map B.state bridges.old.items))) }
    requires kept { All (λ s. s.kept ≡ finite.empty) (map B.state bridges.old.items) }
    ensures once { IsTrue (occur_once (families_of (map B.state bridges.new.items))) }
    ensures kept { All (λ s. s.kept ≡ finite.empty) (map B.state bridges.new.items) }
{
    if has_family(bridges, bridge.family()) {
        return Ok(());
    }
    bridge.let_all_go();
    bridges.push(bridge)?;
    Ok(())
}
