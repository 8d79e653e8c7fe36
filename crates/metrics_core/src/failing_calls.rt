//! The calls of a device in memory that is to fail at chosen calls, for tests of what stands on the device.
//!
//! A device whose second call fails:
//!
//!     let mut calls = FailingCalls::new(vec![in alloc; 1]?);
//!     let first = calls.next_fails();
//!     let second = calls.next_fails();

ghost use Rattle.std.specs.Prelude.{◌≡◌, ◌≤◌};
ghost use Rattle.metrics_core.specs.Devices.{one_more, is_listed};

use std::marker::Model;

/// The calls of a device: which of them are to fail, how many there were, and how many failed.
#[derive(Drop)]
pub struct FailingCalls {
    failing: Vec<u64>,
    number: u64,
    faults: u64,
}

impl Model for FailingCalls {
    ghost use Rattle.metrics_core.specs.Devices.{CallsText};

    ghost Value = { CallsText };

    ghost view = { λ calls. record { failing = calls.failing.items; number = calls.number; faults = calls.faults } };
}

impl FailingCalls {
    /// No call yet; those with the numbers in `failing`, counted from 0, are to fail.
    pub fn new(failing: Vec<u64>) -> FailingCalls
        ensures { result ≡ record { failing = failing.items; number = 0; faults = 0 } }
    {
        FailingCalls {
            failing,
            number: 0,
            faults: 0,
        }
    }

    /// How many calls failed.
    pub fn faults(&self) -> u64
        ensures { result ≡ self.now.faults }
    {
        self.faults
    }

    /// Counts a fault.
    pub fn fault(&mut self)
        ensures after { self.new ≡ record self.old { faults = one_more self.old.faults } }
        ensures never_falls { self.old.faults ≤ self.new.faults }
    {
        self.faults = self.faults.saturating_add(1);
    }

    /// Counts a call, and answers whether it is to fail.
    pub fn next_fails(&mut self) -> bool
        ensures fails { result ≡ is_listed self.old.failing self.old.number }
        ensures after { self.new ≡ record self.old { number = one_more self.old.number } }
    {
        let number = self.number;
        self.number = number.saturating_add(1);
        self.failing.iter().any(|failing| *failing == number)
    }
}
