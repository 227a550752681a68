//! Numbers without an order.

/// A sequence of numbers that is the same in each run. (Marsaglia, "Xorshift RNGs", 2003.)
#[derive(Clone, Copy, Debug)]
pub struct Chance {
    state: u64,
}

impl Chance {
    /// The sequence from its beginning.
    pub fn new() -> Chance {
        Chance {
            state: 88_172_645_463_325_252,
        }
    }

    /// The next number below `end`; 0 where that is 0.
    pub fn below(&mut self, end: u64) -> u64 {
        let mut x = self.state;
        x ^= x << 13;
        x ^= x >> 7;
        x ^= x << 17;
        self.state = x;
        if end == 0 { 0 } else { x % end }
    }
}
