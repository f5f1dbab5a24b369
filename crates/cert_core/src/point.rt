//! Points of a model.
ghost use Rattle.std.specs.Prelude.{◌≡◌, slice_index_or};
ghost use Rattle.ratio_core.specs.Rational.{zero_ℚ};
ghost use Rattle.aff_core.specs.Points.{spread};
ghost use Rattle.cert_core.specs.Points.{numbers_in};

use crate::variables::Variables;
use aff_core::Address;
use ratio_core::Ratio;

/// A point: numbers of a model's variables.
#[derive(Clone, Copy)]
pub struct ModelPoint<'a> {
    variables: &'a Variables,
    numbers: &'a [Ratio],
}

impl<'a> ModelPoint<'a> {
    pub fn new(variables: &'a Variables, numbers: &'a [Ratio]) -> ModelPoint<'a>
        ensures { numbers_in result ≡ spread variables.now numbers.now }
    {
        ModelPoint { variables, numbers }
    }

    /// The number at an address, which is 0 where no variable stands.
    pub fn number(&self, at: &Address) -> Ratio
        ensures { result ≡ numbers_in self.now at.now }
    {
        match self.variables.place(at) {
            Some(place) => number_at(self.numbers, place),
            None => Ratio::zero(),
        }
    }
}

// The number at a place, and 0 past the last.
fn number_at(numbers: &[Ratio], place: usize) -> Ratio
    ensures { result ≡ slice_index_or numbers.now place zero_ℚ }
{
    if place < numbers.len() {
        numbers[place]
    } else {
        Ratio::zero()
    }
}
