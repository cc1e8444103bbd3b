ghost use Rattle.std.specs.Prelude.{◌≡◌};
ghost use Rattle.ilk_io.specs.Faults.{saturating_inc};
ghost use Rattle.ilk_io.specs.Plan.{fails_next, after_success, after_fault};

use std::marker::Model;

/// The numbers of the calls that a source or sink in memory has to fail, and its counts of calls
/// and of faults so far.
#[derive(Drop)]
pub(crate) struct FaultPlanWithCounts {
    fails: Vec<u64>,
    calls: u64,
    faults: u64,
}

impl Model for FaultPlanWithCounts {
    ghost use Rattle.ilk_io.specs.Plan.{FaultScheduleWithCounts};

    ghost Value = { FaultScheduleWithCounts };

    ghost view = { λ a. record { fails = a.fails.items; calls = a.calls; faults = a.faults } };
}

/// Returns `n + 1`, or `n` if it is the greatest `u64`.
pub(crate) fn saturating_inc(n: u64) -> u64
    ensures { result ≡ saturating_inc n }
{
    n.saturating_add(1)
}

impl FaultPlanWithCounts {
    /// Creates a plan in which the calls with the numbers in `fails`, from 1, have to fail.
    pub fn new(fails: Vec<u64>) -> FaultPlanWithCounts
        ensures { result ≡ record { fails = fails.items; calls = 0; faults = 0 } }
    {
        FaultPlanWithCounts {
            fails,
            calls: 0,
            faults: 0,
        }
    }

    /// Returns whether the next call has to fail.
    pub fn fails_next(&self) -> bool
        ensures { result ≡ fails_next self.now }
    {
        let number = saturating_inc(self.calls);
        self.fails.iter().any(|k| *k == number)
    }

    /// Counts a call that succeeded.
    pub fn count_success(&mut self)
        ensures { self.new ≡ after_success self.old }
    {
        self.calls = saturating_inc(self.calls);
    }

    /// Counts a call that failed.
    pub fn count_fault(&mut self)
        ensures { self.new ≡ after_fault self.old }
    {
        self.calls = saturating_inc(self.calls);
        self.faults = saturating_inc(self.faults);
    }
}
