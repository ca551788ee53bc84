// The stream of numbers.
ghost use Rattle.std.specs.Prelude.{◌≡◌};
ghost use Rattle.workload.specs.Draws.{first_state, next_state, draw_of};

/// A stream of numbers from 0 to 32767, kept as its state, which is below 2^31.
#[derive(Drop)]
pub(crate) struct Draws {
    pub(crate) state: u32,
}

impl Draws {
    /// The stream that a seed begins.
    pub(crate) fn new(seed: u64) -> Draws
        ensures { result.state ≡ first_state seed }
    {
        Draws {
            state: (seed % (1 << 31)) as u32,
        }
    }

    /// The next number.
    pub(crate) fn draw(&mut self) -> u64
        ensures state { self.new.state ≡ next_state self.old.state }
        ensures number { result ≡ draw_of self.new.state }
    {
        let grown = 1103515245 * u64::from(self.state) + 12345;
        self.state = (grown % (1 << 31)) as u32;
        u64::from(self.state) / 65536
    }
}
