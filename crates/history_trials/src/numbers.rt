//! Numbers that look random: the same ones for the same seed.

/// A row of such numbers.
#[derive(Clone, Copy)]
pub(crate) struct Numbers {
    state: u64,
}

impl Numbers {
    /// The row of a number among those of a seed.
    pub(crate) fn new(seed: u64, number: u64) -> Numbers {
        let first = seed.wrapping_mul(0x2545_F491_4F6C_DD1D);
        let further = number.wrapping_mul(0x9E37_79B9_7F4A_7C15);
        let mut numbers = Numbers {
            state: first.wrapping_add(further),
        };
        for _ in 0..4 {
            let _ = numbers.next();
        }
        numbers
    }

    /// The next number: the upper half of a linear congruence modulo 2^64.
    pub(crate) fn next(&mut self) -> u64 {
        let times = self.state.wrapping_mul(6_364_136_223_846_793_005);
        self.state = times.wrapping_add(1_442_695_040_888_963_407);
        self.state / 4_294_967_296
    }

    /// A number below another one that isn't 0.
    pub(crate) fn below(&mut self, end: u64) -> u64 {
        self.next() % end.max(1)
    }

    /// The same for places.
    pub(crate) fn place(&mut self, end: usize) -> usize {
        (self.next() as usize) % end.max(1)
    }

    /// Whether a case comes that comes once in so many times.
    pub(crate) fn is_one_in(&mut self, times: u64) -> bool {
        self.below(times) == 0
    }
}
