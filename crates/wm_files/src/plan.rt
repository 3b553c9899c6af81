// The calls of an object in memory: which of them fail, how many were made, and how many failed.
ghost use Rattle.std.specs.Prelude.{◌≡◌, ◌≤◌};
ghost use Rattle.std.specs.Bool.{OnTrue};
ghost use Rattle.wm_files.specs.Outside.{Rose};
ghost use Rattle.wm_files.specs.Plan.{fresh, next_fails, after_call, one_more as count_raised};

use std::marker::Model;

#[derive(Drop)]
pub(crate) struct FaultPlan {
    failing: Vec<u64>,
    made: u64,
    failed: u64,
}

impl Model for FaultPlan {
    ghost use Rattle.wm_files.specs.Plan.{Plan, plan_code};

    ghost Value = { Plan };

    ghost coded = { plan_code };

    ghost view = { λ p. record { failing = p.failing.items; made = p.made; failed = p.failed } };
}

impl FaultPlan {
    /// No call was made yet; call number k, from 1, will fail where k is in the list.
    pub(crate) fn new(failing: Vec<u64>) -> FaultPlan
        ensures { result ≡ fresh failing.items }
    {
        FaultPlan {
            failing,
            made: 0,
            failed: 0,
        }
    }

    /// Counts the next call, and tells whether it fails.
    pub(crate) fn next_call_fails(&mut self) -> bool
        ensures fails { result ≡ next_fails self.old }
        ensures counted { self.new ≡ after_call self.old }
        ensures rose { OnTrue result (Rose self.old.failed self.new.failed) }
        ensures count { self.old.failed ≤ self.new.failed }
    {
        self.made = one_more(self.made);
        let number = self.made;
        let fails = self.failing.contains(&number);
        if fails {
            self.failed = one_more(self.failed);
        }
        fails
    }
}

/// A count raised by one. It stays at its greatest number once it is there.
pub(crate) fn one_more(count: u64) -> u64
    ensures raised { result ≡ count_raised count }
{
    count.saturating_add(1)
}
