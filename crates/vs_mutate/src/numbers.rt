ghost use Rattle.std.specs.Prelude.{◌<◌};

/// Numbers that look like chance, and are the same in each run.
#[derive(Drop)]
pub struct Numbers {
    state: u64,
}

impl Numbers {
    /// The row of numbers that begins from this one.
    pub fn new(seed: u64) -> Numbers {
        Numbers { state: seed }
    }

    /// The next number, below `n`.
    pub fn below(&mut self, n: u64) -> u64
        requires { 0 < n }
        ensures { result < n }
    {
        self.state = self
            .state
            .wrapping_mul(6_364_136_223_846_793_005)
            .wrapping_add(1_442_695_040_888_963_407);
        (self.state >> 33) % n
    }
}
