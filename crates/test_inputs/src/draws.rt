// Numbers that look random, the same in each run.
ghost use Rattle.std.specs.Prelude.{◌≤◌, ◌<◌};

/// Numbers from a linear congruential generator, whose step is Knuth's (The Art of Computer Programming, volume 2).
#[derive(Drop)]
pub struct Draws {
    state: u64,
}

impl Draws {
    /// The numbers after this seed. No clause says which.
    pub fn from_seed(seed: u64) -> Draws {
        Draws { state: seed }
    }

    /// The next number, below `bound`.
    pub fn below(&mut self, bound: u64) -> u64
        requires { 1 ≤ bound }
        ensures { result < bound }
    {
        self.state = self
            .state
            .wrapping_mul(6364136223846793005)
            .wrapping_add(1442695040888963407);
        (self.state >> 33) % bound
    }
}
