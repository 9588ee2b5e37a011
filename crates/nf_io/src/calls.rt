//! Calls that are numbered, some of which are to fail.
ghost use Rattle.std.specs.Prelude.{true, false, ◌≡◌, ◌≤◌, IfOk};
ghost use Rattle.nf_io.specs.Calls.{CallCount, after_call, next_fails, none_fails, untouched};
ghost use Rattle.nf_io.specs.Causes.{Rose};

use std::alloc::{AllocError, Global};
use std::marker::Model;

/// How many calls were made, how many of them failed, and the numbers of those that are to fail.
#[derive(Debug, Drop)]
pub(crate) struct Calls {
    made: u64,
    faults: u64,
    failing: Vec<u64>,
}

impl Model for Calls {
    ghost Value = { CallCount };

    ghost view = { λ c. record { made = c.made; faults = c.faults; failing = c.failing.items } };
}

impl Calls {
    /// No call yet, and the numbers from 1 of the calls that are to fail.
    pub(crate) fn new(alloc: Global, failing: &[u64]) -> Result<Calls, AllocError>
        ensures { IfOk result (λ c. c ≡ untouched failing.now) }
    {
        Ok(Calls {
            made: 0,
            faults: 0,
            failing: Vec::from_slice(alloc, failing)?,
        })
    }

    /// Counts the next call, and its fault where it is to fail; says whether it is.
    pub(crate) fn next_is_fault(&mut self) -> bool
        ensures fails { result ≡ next_fails self.old }
        ensures counted { self.new ≡ after_call self.old }
        ensures later { self.old.faults ≤ self.new.faults }
        ensures rose { result ≡ true → Rose self.old.faults self.new.faults }
        ensures sound { result ≡ false → self.new.faults ≡ self.old.faults }
        ensures calm { none_fails self.old ≡ true → self.new.faults ≡ self.old.faults }
    {
        self.made = self.made.saturating_add(1);
        let fails = self.failing.contains(&self.made);
        if fails {
            self.faults = self.faults.saturating_add(1);
        }
        fails
    }
}
