//! The generator of numbers that seasons are drawn by.

ghost use Rattle.std.specs.Prelude.{◌≡◌, ◌<◌, ◌%◌, ◌+◌, ◌*◌};
ghost use Rattle.season_maker.specs.Draws.{next_state, state_after};

// The modulus of the generator, a prime.
const MODULUS: u32 = 65_537;

/// The generator, by its state.
#[derive(Drop)]
pub(crate) struct Draws {
    pub(crate) state: u32,
}

impl Draws {
    /// Before the first draw for a season's number.
    pub(crate) fn new(number: u32) -> Draws
        ensures { result.state ≡ state_after number 0 }
    {
        Draws {
            state: number % MODULUS,
        }
    }

    /// The next number below a bound.
    pub(crate) fn draw(&mut self, bound: u32) -> u32
        requires { 0 < bound }
        ensures drawn { result ≡ next_state self.old.state % bound }
        ensures state { self.new.state ≡ next_state self.old.state }
    {
        self.state = ((75 * u64::from(self.state) + 74) % u64::from(MODULUS)) as u32;
        self.state % bound
    }
}
