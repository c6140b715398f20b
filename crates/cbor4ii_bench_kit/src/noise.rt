//! Numbers that look like chance, the same ones from the same seed.
ghost use Rattle.std.specs.Prelude.{◌≤◌};

/// A generator after splitmix64 of Steele, Lea and Flood, 2014.
#[derive(Drop)]
pub struct Noise {
    state: u64,
}

impl Noise {
    /// The generator of this seed.
    pub fn new(seed: u64) -> Noise {
        Noise { state: seed }
    }

    /// Any number.
    #[inline(always)]
    pub fn any(&mut self) -> u64 {
        self.state = self.state.wrapping_add(0x9e37_79b9_7f4a_7c15);
        let z = (self.state ^ (self.state >> 30)).wrapping_mul(0xbf58_476d_1ce4_e5b9);
        let z = (z ^ (z >> 27)).wrapping_mul(0x94d0_49bb_1331_11eb);
        z ^ (z >> 31)
    }

    /// A number below `end`, or 0.
    #[inline(always)]
    pub fn below(&mut self, end: u32) -> u64
        ensures { result ≤ end }
    {
        let product = (self.any() >> 32).wrapping_mul(end as u64);
        (product >> 32).min(end as u64)
    }

    /// A number of a length of its own, small ones oftener than great ones.
    #[inline(always)]
    pub fn uneven(&mut self) -> u64 {
        let places = self.below(63) as u32;
        self.any() >> places
    }
}
