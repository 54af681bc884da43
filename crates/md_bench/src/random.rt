//! Numbers that look random and are the same in each run.

/// A linear congruential generator.
#[derive(Clone, Copy)]
pub struct Random {
    state: u64,
}

impl Random {
    /// The generator of the document with this number, under a seed.
    pub fn new(seed: u64, number: usize) -> Self {
        let mixed = scattered(seed).wrapping_add(number as u64);
        Random {
            state: scattered(mixed),
        }
    }

    /// The next 32 bits.
    fn next(&mut self) -> u64 {
        self.state = self
            .state
            .wrapping_mul(6_364_136_223_846_793_005)
            .wrapping_add(1_442_695_040_888_963_407);
        self.state >> 32
    }

    /// A number below a limit that is at most 2^32; 0 where the limit is 0.
    pub fn below(&mut self, limit: usize) -> usize {
        (self.next().wrapping_mul(limit as u64) >> 32) as usize
    }

    /// A number from one on, and below another.
    pub fn between(&mut self, least: usize, limit: usize) -> usize {
        least.saturating_add(self.below(limit.saturating_sub(least)))
    }

    /// True once in so many times.
    pub fn once_in(&mut self, times: usize) -> bool {
        self.below(times) == 0
    }

    /// One of some texts, or none where there aren't any.
    pub fn pick<'a>(&mut self, texts: &'a [&'a [u8]]) -> &'a [u8] {
        let index = self.below(texts.len());
        texts.get(index).copied().unwrap_or(b"")
    }
}

/// A number that looks random, another one for each number.
fn scattered(number: u64) -> u64 {
    let mut number = number.wrapping_add(0x9e37_79b9_7f4a_7c15);
    number = (number ^ (number >> 30)).wrapping_mul(0xbf58_476d_1ce4_e5b9);
    number = (number ^ (number >> 27)).wrapping_mul(0x94d0_49bb_1331_11eb);
    number ^ (number >> 31)
}
