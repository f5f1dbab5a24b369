//! Which calls of an object in memory fail.
ghost use Rattle.std.specs.Prelude.{◌≡◌, ◌↔◌, ◌≤◌, IsTrue, if◌then◌else◌};
ghost use Rattle.io_face.specs.Fault.{next_count};
ghost use Rattle.io_face.specs.Plan.{FaultPlan, IsFailing, after_success, after_failure};

use crate::Calls;
use std::marker::Model;

#[derive(Drop)]
pub struct Schedule {
    fails: Calls,
    made: u64,
    faults: u64,
}

impl Model for Schedule {
    ghost Value = { FaultPlan };

    ghost view = { λ s. record { fails = s.fails; made = s.made; faults = s.faults } };
}

impl Schedule {
    pub fn new(fails: Calls) -> Schedule
        ensures { result ≡ record { fails = fails; made = 0; faults = 0 } }
    {
        Schedule {
            fails,
            made: 0,
            faults: 0,
        }
    }

    /// Counts a call, and a fault where the call is to fail. True if it is.
    pub fn count_call(&mut self) -> bool
        ensures failing { IsTrue result ↔ IsFailing self.old }
        ensures after { self.new ≡ (if result then after_failure self.old else after_success
            self.old) }
        ensures never_falls { self.old.faults ≤ self.new.faults }
    {
        self.made = self.made.saturating_add(1);
        let fails = self.fails.as_slice().contains(&self.made);
        if fails {
            self.faults = self.faults.saturating_add(1);
        }
        fails
    }

    /// Counts a fault of a call that was counted and wasn't to fail.
    pub fn count_fault(&mut self)
        ensures after { self.new ≡ record self.old { faults = next_count self.old.faults } }
        ensures count { self.old.faults ≤ self.new.faults }
    {
        self.faults = self.faults.saturating_add(1);
    }

    pub fn faults(&self) -> u64
        ensures { result ≡ self.now.faults }
    {
        self.faults
    }
}
