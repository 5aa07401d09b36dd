//! The calls that an object in memory saw, and which of them are to fail.
#![tactic(auto)]

ghost use Rattle.std.specs.Prelude.{◌≡◌, ◌≤◌, ◌↔◌, [], IsTrue, IfOk, if◌then◌else◌};
ghost use Rattle.call_log.specs.Calls.{no_calls, FailsNext, passed, failed};

use item_list::NoMemory;
use std::alloc::Global;
use std::marker::Model;

/// The calls so far, counted from 1, and those that are to fail. The object that has the log asks it at each of its
/// calls, and tells it how the call went.
#[derive(Debug, Drop)]
pub struct CallLog {
    fails: Vec<u64>,
    made: u64,
    faults: u64,
}

impl Model for CallLog {
    ghost use Rattle.call_log.specs.Calls.{Calls};

    ghost Value = { Calls };

    ghost view = { λ log. record { fails = log.fails.items; made = log.made; faults = log.faults } };
}

impl CallLog {
    /// No call was made yet, and those that `fails` lists are to fail.
    ///
    /// # Errors
    ///
    /// Memory was refused.
    pub fn new(alloc: Global, fails: &[u64]) -> Result<CallLog, NoMemory>
        ensures { IfOk result (λ log. log ≡ no_calls fails.now) }
    {
        Ok(CallLog {
            fails: Vec::from_slice(alloc, fails)?,
            made: 0,
            faults: 0,
        })
    }

    /// Whether the next call is one that is to fail.
    pub fn fails_next(&self) -> bool
        ensures { IsTrue result ↔ FailsNext self.now }
    {
        self.fails.contains(&self.made.saturating_add(1))
    }

    /// Counts a call that did what it could.
    pub fn pass(&mut self)
        ensures { self.new ≡ passed self.old }
    {
        self.made = self.made.saturating_add(1);
    }

    /// Counts a call that failed.
    pub fn fail(&mut self)
        ensures after { self.new ≡ failed self.old }
        ensures counts { self.old.faults ≤ self.new.faults }
    {
        self.made = self.made.saturating_add(1);
        self.faults = self.faults.saturating_add(1);
    }

    /// Counts a call, which fails where it is to, and says whether it does.
    pub fn is_failing(&mut self) -> bool
        ensures fails { IsTrue result ↔ FailsNext self.old }
        ensures after { self.new ≡ (if result then failed self.old else passed self.old) }
        ensures counts { self.old.faults ≤ self.new.faults }
    {
        let is_failing = self.fails_next();
        if is_failing {
            self.fail();
        } else {
            self.pass();
        }
        is_failing
    }

    /// No call was made, and none is to fail.
    pub fn start_again(&mut self)
        ensures { self.new ≡ no_calls [] }
    {
        self.fails.clear();
        self.made = 0;
        self.faults = 0;
    }
}
