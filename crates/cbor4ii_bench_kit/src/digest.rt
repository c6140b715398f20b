//! A digest of a job's results.

/// Numbers and bytes, joined into one number.
#[derive(Drop)]
pub struct Digest {
    state: u64,
}

impl Digest {
    /// The digest of nothing.
    pub fn new() -> Digest {
        Digest { state: 0 }
    }

    /// Joins a number.
    #[inline(always)]
    pub fn number(&mut self, n: u64) {
        self.state = (self.state.rotate_left(23) ^ n).wrapping_mul(0x9fb2_1c65_1e98_df25);
    }

    /// Joins bytes, eight at a time, and their number.
    pub fn bytes(&mut self, bytes: &[u8]) {
        let mut rest = bytes;
        while let [a, b, c, d, e, f, g, h, tail @ ..] = rest {
            self.number(u64::from_le_bytes([*a, *b, *c, *d, *e, *f, *g, *h]));
            rest = tail;
        }
        for byte in rest {
            self.number(*byte as u64);
        }
        self.number(bytes.len() as u64);
    }

    /// The digest of all that was joined.
    pub fn value(&self) -> u64 {
        self.state
    }
}
