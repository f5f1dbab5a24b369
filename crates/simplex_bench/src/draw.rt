// Draws by the linear congruence of the generated scripts.
ghost use Rattle.std.specs.Prelude.{◌<◌};

const MODULUS: u64 = 0x8000_0000;

#[derive(Drop)]
pub struct Draw {
    state: u64,
}

impl Draw {
    pub fn new(seed: u32) -> Draw {
        Draw {
            state: u64::from(seed) % MODULUS,
        }
    }

    /// A number below n.
    pub fn below(&mut self, n: u32) -> u32
        requires { 0 < n }
        ensures { result < n }
    {
        self.state = self.state.wrapping_mul(1103515245).wrapping_add(12345) % MODULUS;
        (self.state / 65536 % u64::from(n)) as u32
    }
}
