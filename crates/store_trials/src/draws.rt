//! Numbers that follow from a seed, one after the other.
ghost use Rattle.std.specs.Prelude.{◌<◌};

/// A generator by one product and one sum.
#[derive(Drop)]
pub(crate) struct Draws {
    state: u64,
}

impl Draws {
    pub(crate) fn new(seed: u64) -> Draws {
        Draws { state: seed }
    }

    /// The next number below a bound, 0 where nothing is below it.
    pub(crate) fn below(&mut self, bound: usize) -> usize
        ensures { 0 < bound → result < bound }
    {
        self.state = self
            .state
            .wrapping_mul(6_364_136_223_846_793_005)
            .wrapping_add(1_442_695_040_888_963_407);
        let drawn = (self.state >> 33) as usize;
        if bound == 0 {
            return 0;
        }
        drawn % bound
    }
}
