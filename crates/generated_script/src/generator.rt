//! The generator of numbers.
ghost use Rattle.std.specs.Prelude.{◌≡◌};
ghost use Rattle.generated_script.specs.Generator.{draw, step};

/// What a state is multiplied by in a draw.
pub(crate) const FACTOR: u32 = 1_103_515_245;

/// What is added to it then.
pub(crate) const SHIFT: u32 = 12_345;

/// States are less than this.
pub(crate) const MODULUS: u64 = 1 << 31;

/// A linear congruential generator, with the constants of the example of `rand` in the C standard.
#[derive(Clone, Copy)]
pub(crate) struct Generator {
    pub(crate) state: u32,
}

impl Generator {
    // The next number, of 15 bits.
    #[tactic(auto, unfolding(crate::specs::Generator::draw, crate::specs::Generator::step))]
    pub(crate) fn draw(&mut self) -> u32
        ensures drawn { result ≡ draw self.old.state }
        ensures moved { self.new.state ≡ step self.old.state }
    {
        let product = u64::from(self.state) * u64::from(FACTOR);
        self.state = ((product + u64::from(SHIFT)) % MODULUS) as u32;
        self.state / 65_536
    }
}
