//! The numbers of a run.

/// Numbers of a run.
#[derive(Clone, Copy, Default)]
pub struct Tally {
    pub inputs: u64,
    pub turns: u64,
    pub printed: usize,
    pub sent: u64,
    pub lost: u64,
    pub refused: u64,
    /// Timers whose events were received after they were due, and the largest delay in ticks.
    pub late: u64,
    pub latest: u64,
}

impl Tally {
    /// Counts the bytes of a print.
    pub(crate) fn count_printed(&mut self, digits: &str) {
        self.printed = self.printed.saturating_add(digits.len() / 2);
    }

    /// A timer's event is received `late` ticks after it was due.
    pub(crate) fn count_late(&mut self, late: u64) {
        if late > 0 {
            self.late = self.late.saturating_add(1);
            self.latest = self.latest.max(late);
        }
    }
}
