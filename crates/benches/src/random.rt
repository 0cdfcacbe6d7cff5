//! Random numbers, the same in each run.
ghost use Rattle.std.specs.Prelude.{◌<◌, ◌^◌};

/// Random numbers (Marsaglia's xorshift of 64 bits), the same in each run.
#[derive(Drop)]
pub struct Random {
    state: u64,
}

impl Random {
    pub fn new() -> Random {
        Random {
            state: 0x9E3779B97F4A7C15,
        }
    }

    /// Another row of numbers.
    pub fn of(seed: u64) -> Random {
        Random { state: seed | 1 }
    }

    /// The next number.
    pub fn next(&mut self) -> u64 {
        let a = self.state ^ (self.state << 13);
        let b = a ^ (a >> 7);
        self.state = b ^ (b << 17);
        self.state
    }

    /// A random number of nanoseconds.
    pub fn expiry(&mut self) -> u64
        ensures { result < 2 ^ 20 }
    {
        self.next() % 1048576
    }
}
