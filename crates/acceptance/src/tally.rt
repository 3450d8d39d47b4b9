//! How many runs agree.

/// How many runs agree with what is wanted, and how many don't.
#[derive(Clone, Copy)]
pub(crate) struct Tally {
    pub(crate) agree: u64,
    pub(crate) differ: u64,
}

impl Tally {
    pub(crate) const NONE: Tally = Tally {
        agree: 0,
        differ: 0,
    };

    /// Counts a run.
    pub(crate) fn count(&mut self, agrees: bool) {
        if agrees {
            self.agree = self.agree.saturating_add(1);
        } else {
            self.differ = self.differ.saturating_add(1);
        }
    }

    /// These runs and others.
    pub(crate) fn and(self, others: Tally) -> Tally {
        Tally {
            agree: self.agree.saturating_add(others.agree),
            differ: self.differ.saturating_add(others.differ),
        }
    }
}
