//! Maps, and what they make of functions and of duals.
ghost use Rattle.std.specs.Prelude.{◌≡◌, ◌↔◌, IfOk, IsTrue, List, length};
ghost use Rattle.ratio_core.specs.Answers.{ExactWhere};
ghost use Rattle.aff_core.specs.Function.{Function};
ghost use Rattle.set_core.specs.declared.set.Set.{Set};
ghost use Rattle.set_map.specs.Answers.{ReadsMatrix};
ghost use Rattle.set_map.specs.Combinations.{IsMapped};
ghost use Rattle.set_map.specs.Fitting.{AppliedFits, BothProductsFit, MappedFits};
ghost use Rattle.set_map.specs.MappedSet.{CarriesBack, seen_through};
ghost use Rattle.set_map.specs.Matrices.{AreInverse, ArePair, Matrix, applied, transposed};

use crate::combining::mapped;
use crate::fault::MapFault;
use crate::matrices::{is_product_unit, transposed};
use crate::numbers::applied;
use aff_core::VecAff;
use lists::{Duplicate, Memory, Sequence};
use ratio_core::{NumberFault, Ratios};
use std::alloc::Global;
use std::marker::Model;

/// An invertible matrix. What it takes into a cone is the set that is seen through it.
#[derive(Debug, Drop)]
pub struct SetMap {
    rows: Sequence<Ratios>,
    columns: Sequence<Ratios>,
}

impl Model for SetMap {
    ghost use Rattle.std.specs.Coded.{coded_list};
    ghost use Rattle.ratio_core.specs.Rational.{rational_code};
    ghost use Rattle.set_map.specs.Kept.{IsMatrixKept};
    ghost use Rattle.set_map.specs.Matrices.{Matrix};

    ghost Value = { Matrix };

    ghost coded = { coded_list (coded_list rational_code) };

    ghost view = { λ a. a.rows };

    ghost invariant = { λ a. IsMatrixKept a.rows a.columns };
}

impl SetMap {
    /// The map of a matrix, which is given with its inverse. Both products are worked out whole:
    /// `Overflow` exactly where a sum for an entry, from the left, exceeds 128 bits, and
    /// `NotInverse` exactly where none does and a product isn't the unit matrix.
    pub fn read(alloc: Global, rows: &[Ratios], inverse: &[Ratios]) -> Result<SetMap, MapFault>
        requires { ArePair rows.now inverse.now }
        ensures { ReadsMatrix rows.now inverse.now result }
    {
        let columns = transposed(alloc, rows)?;
        let is_inverse = are_inverse(alloc, rows, &columns, inverse)?;
        if !is_inverse {
            return Err(MapFault::NotInverse);
        }
        let rows = copied(alloc, rows)?;
        let columns = Sequence::from_vec(columns);
        Ok(SetMap { rows, columns })
    }

    /// The matrix times a vector function. `Overflow` exactly where a product, or a sum from the
    /// left, exceeds 128 bits.
    pub fn forward(&self, f: &VecAff) -> Result<VecAff, NumberFault>
        requires { length f.now ≡ length self.now }
        ensures { ExactWhere result (MappedFits self.now f.now) (IsMapped self.now f.now) }
    {
        mapped(f.allocator(), self.rows.as_slice(), f.as_slice())
    }

    /// The transpose of the matrix times duals: those of the mapped functions in a cone give those
    /// of the functions in the set that is seen through the map. `Overflow` exactly where a
    /// product, or a sum from the left, exceeds 128 bits.
    pub fn back(&self, y: &Ratios) -> Result<Ratios, NumberFault>
        requires { length y.now ≡ length self.now }
        ensures value { ExactWhere result (AppliedFits (transposed self.now) y.now)
            (λ w. w ≡ applied (transposed self.now) y.now) }
        ensures law { IfOk result (λ w. (inverse : Matrix) (set : Set) (fs : List Function)
            → ArePair self.now inverse → AreInverse self.now inverse
            → length fs ≡ length self.now
            → CarriesBack (seen_through self.now inverse set) fs y.now w) }
    {
        applied(y.allocator(), self.columns.as_slice(), y.as_slice())
    }
}

// Whether both products are the unit matrix. The columns are those of the first rows.
fn are_inverse(
    alloc: Global,
    rows: &[Ratios],
    columns: &[Ratios],
    inverse: &[Ratios],
) -> Result<bool, NumberFault>
    requires pair { ArePair rows.now inverse.now }
    requires columns { columns.now ≡ transposed rows.now }
    ensures { ExactWhere result (BothProductsFit rows.now inverse.now)
        (λ are_inverse. IsTrue are_inverse ↔ AreInverse rows.now inverse.now) }
{
    let others = transposed(alloc, inverse)?;
    let is_right = is_product_unit(alloc, rows, &others)?;
    let is_left = is_product_unit(alloc, inverse, columns)?;
    Ok(is_right && is_left)
}

fn copied(alloc: Global, rows: &[Ratios]) -> Result<Sequence<Ratios>, Memory>
    ensures { IfOk result (λ copy. copy ≡ rows.now) }
{
    let mut copies = Vec::with_capacity(alloc, rows.len())?;
    for row in rows {
        copies.push(row.copy()?)?;
    }
    Ok(Sequence::from_vec(copies))
}
