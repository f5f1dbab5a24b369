//! Many draws at once.
ghost use Rattle.std.specs.Prelude.{◌≡◌};
ghost use Rattle.generated_script.specs.Generator.{after};
ghost use Rattle.generated_script.specs.Jump.{mapped, one_draw, twice};

use crate::generator::{FACTOR, Generator, MODULUS, SHIFT};

/// A map of states: times the factor, plus the shift, modulo 2^31.
#[derive(Clone, Copy)]
pub(crate) struct AffineMap {
    pub(crate) factor: u32,
    pub(crate) shift: u32,
}

impl AffineMap {
    // The map of one draw.
    fn one_draw() -> AffineMap
        ensures { result ≡ one_draw }
    {
        AffineMap {
            factor: FACTOR,
            shift: SHIFT,
        }
    }

    #[tactic(auto, unfolding(crate::specs::Jump::mapped))]
    fn apply(self, state: u32) -> u32
        ensures { result ≡ mapped self state }
    {
        let product = u64::from(state) * u64::from(self.factor);
        ((product + u64::from(self.shift)) % MODULUS) as u32
    }

    // The map followed by itself.
    fn twice(self) -> AffineMap
        ensures { result ≡ twice self }
    {
        let factor = u64::from(self.factor) * u64::from(self.factor);
        AffineMap {
            factor: (factor % MODULUS) as u32,
            shift: self.apply(self.shift),
        }
    }
}

impl Generator {
    // The generator after this number of draws, in a number of steps that is the logarithm of
    // theirs: the map of a draw is squared.
    pub(crate) fn after(self, draws: u64) -> Generator
        ensures { result.state ≡ after draws self.state }
    {
        let mut map = AffineMap::one_draw();
        let mut state = self.state;
        let mut left = draws;
        while left > 0 {
            if left % 2 == 1 {
                state = map.apply(state);
            }
            map = map.twice();
            left /= 2;
        }
        Generator { state }
    }
}
