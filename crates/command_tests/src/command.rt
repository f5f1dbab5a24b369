//! A command that is tested.
ghost use Rattle.std.specs.Prelude.{◌≡◌, All, IsTrue, map};
ghost use Rattle.std.specs.FinMap as finite;
ghost use Rattle.any_bridge.specs.States.{state_of_any};
ghost use Rattle.bridge_set.specs.Bridges.{families_of, occur_once};

use any_bridge::AnyBridge;
use file_command::Status;
use io_face::{MemShelf, MemSink};
use std::alloc::Global;

/// A command over the files of a shelf, which writes to a sink.
pub trait TestedCommand {
    /// Runs the command with these arguments, and says how it ends. No family occurs twice among the
    /// bridges, and they keep nothing.
    fn run(
        alloc: Global,
        words: &[String],
        shelf: &mut MemShelf,
        output: &mut MemSink,
        bridges: Vec<AnyBridge>,
    ) -> Status
        requires once { IsTrue (occur_once (families_of (map state_of_any bridges.items))) }
        requires kept { All (λ s. s.kept ≡ finite.empty) (map state_of_any bridges.items) };
}
