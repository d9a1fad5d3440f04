//! When bytes are scanned again of which no token came.

/// For each byte that comes, so many may be scanned again.
const TIMES: u64 = 256;

/// So many may be at first, and at most.
const MOST: u64 = 1 << 26;

/// From so many bytes on that wait, they have to grow by a quarter.
const LONG: u64 = 1 << 20;

/// When bytes are scanned again. They wait while no token comes of them, from the end of the last token on. So that the
/// time grows with the length of the input alone, not each byte of a long scalar has all of it scanned again.
#[derive(Drop)]
pub(crate) struct pace_t {
    /// How many bytes may be scanned again.
    credit: u64,
    /// Where the last token ends.
    settled: u64,
    /// How many bytes had come when they were scanned last.
    scanned: u64,
}

impl pace_t {
    /// No byte came yet.
    pub fn new() -> pace_t {
        pace_t {
            credit: MOST,
            settled: 0,
            scanned: 0,
        }
    }

    /// Whether the bytes that wait are to be scanned, once so many bytes came.
    pub fn is_due(&self, came: u64) -> bool {
        let waiting = came.saturating_sub(self.settled);
        let waited = self.scanned.saturating_sub(self.settled);
        let allowed = came.saturating_sub(self.scanned).saturating_mul(TIMES);
        if waiting < LONG {
            waiting <= self.credit.saturating_add(allowed)
        } else {
            waiting.saturating_sub(waited) >= waited / 4
        }
    }

    /// Counts a scan of what came, so many bytes, after which the last token ends here.
    pub fn scan(&mut self, came: u64, settled: u64) {
        let allowed = came.saturating_sub(self.scanned).saturating_mul(TIMES);
        self.settled = settled;
        self.scanned = came;
        let waiting = came.saturating_sub(settled);
        self.credit = self
            .credit
            .saturating_add(allowed)
            .saturating_sub(waiting)
            .min(MOST);
    }
}
