//! Numbers by chance, the same at each run.
ghost use Rattle.std.specs.Prelude.{◌<◌};

/// Where the numbers stand. They are those of SplitMix64 (Steele, Lea and Flood, 2014).
#[derive(Drop)]
pub struct chance_t {
    state: u64,
}

impl chance_t {
    pub fn new(seed: u64) -> chance_t {
        chance_t { state: seed }
    }

    /// The next number.
    pub fn next(&mut self) -> u64 {
        self.state = self.state.wrapping_add(0x9E37_79B9_7F4A_7C15);
        let mut mixed = self.state;
        mixed = (mixed ^ (mixed >> 30)).wrapping_mul(0xBF58_476D_1CE4_E5B9);
        mixed = (mixed ^ (mixed >> 27)).wrapping_mul(0x94D0_49BB_1331_11EB);
        mixed ^ (mixed >> 31)
    }

    /// The next number, brought below a bound.
    pub fn below(&mut self, bound: usize) -> usize
        requires { 0 < bound }
        ensures { result < bound }
    {
        self.next() as usize % bound
    }
}
