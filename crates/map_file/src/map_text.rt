//! A map of the file.
ghost use Rattle.std.specs.Prelude.{◌≡◌, ◌*◌, ◌≤◌, drop, length, take};

use lists::Sequence;
use name_index::Text;
use ratio_core::Ratios;

/// A map: its name as written, its dimension, and its lines of numbers, those of the matrix and then
/// those of its inverse.
#[derive(Debug, Drop)]
pub struct MapText {
    pub name: Text,
    pub size: usize,
    pub lines: Sequence<Ratios>,
}

impl MapText {
    /// The rows of the matrix.
    pub fn matrix(&self) -> &[Ratios]
        requires { self.now.size ≤ length self.now.lines }
        ensures { result.now ≡ take self.now.size self.now.lines }
    {
        &self.lines.as_slice()[..self.size]
    }

    /// The rows of its inverse.
    pub fn inverse(&self) -> &[Ratios]
        requires { self.now.size ≤ length self.now.lines }
        ensures { result.now ≡ drop self.now.size self.now.lines }
    {
        &self.lines.as_slice()[self.size..]
    }
}
