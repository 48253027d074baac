//! Numbers that are drawn.

ghost use Rattle.std.specs.Prelude.{◌<◌};

/// A generator of numbers.
#[derive(Drop)]
pub struct Draws {
    last: u64,
}

impl Draws {
    /// The generator of a case, or of one of its parts.
    pub fn new(case: u64, part: u64) -> Draws {
        let last = case
            .wrapping_mul(0x9E37_79B9_7F4A_7C15)
            .wrapping_add(part.wrapping_mul(0xD1B5_4A32_D192_ED03));
        let mut draws = Draws { last };
        draws.below(2);
        draws
    }

    /// The next number below another one.
    pub fn below(&mut self, end: u64) -> u64
        requires { 0 < end }
        ensures { result < end }
    {
        self.last = self
            .last
            .wrapping_mul(6_364_136_223_846_793_005)
            .wrapping_add(1_442_695_040_888_963_407);
        let mixed = (self.last ^ (self.last >> 29)).wrapping_mul(0xBF58_476D_1CE4_E5B9);
        (mixed >> 32) % end
    }

    /// True once in so many times.
    pub fn once_in(&mut self, times: u64) -> bool
        requires { 0 < times }
    {
        self.below(times) == 0
    }

    /// A place of a list of so many, 0 where there is none.
    pub fn place(&mut self, count: usize) -> usize {
        if count == 0 {
            0
        } else {
            self.below(count as u64) as usize
        }
    }

    /// One of these texts.
    pub fn pick<'a>(&mut self, texts: &[&'a str]) -> &'a str {
        let place = self.place(texts.len());
        texts.get(place).copied().unwrap_or("")
    }
}
