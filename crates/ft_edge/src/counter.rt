//! Calls numbered from 0, some of which must fail.
ghost use Rattle.std.specs.Prelude.{◌≡◌, ◌≤◌, OnOk, OnErr};

use ft_isa::NoMemory;
use std::alloc::Global;
use std::marker::Model;

/// The calls on an object in memory: which of them must fail, how many were made, and how many of these failed. Both
/// counts saturate at 2^64 - 1.
#[derive(Drop)]
pub(crate) struct Counter {
    failing: Vec<u64>,
    next: u64,
    failures: u64,
}

impl Model for Counter {
    ghost use Rattle.ft_edge.specs.Calls.{Calls};

    ghost Value = { Calls };

    ghost view = { λ s. record { failing = s.failing.items; next = s.next; failures = s.failures } };
}

impl Counter {
    ghost use Rattle.ft_edge.specs.Calls.{no_calls, is_to_fail, with_failing, after_call, after_failure};

    /// No calls yet, and none that must fail.
    pub(crate) fn new(alloc: Global) -> Counter
        ensures { result ≡ no_calls }
    {
        Counter {
            failing: Vec::new(alloc),
            next: 0,
            failures: 0,
        }
    }

    /// Adds a call that must fail.
    pub(crate) fn fail_at(&mut self, call: u64) -> Result<(), NoMemory>
        ensures ok { OnOk result (self.new ≡ with_failing self.old call) }
        ensures err { OnErr result (self.new ≡ self.old) }
    {
        self.failing.push(call).map_err(|_| NoMemory)?;
        Ok(())
    }

    /// Numbers the next call, and returns whether it must fail.
    pub(crate) fn begin(&mut self) -> bool
        ensures fails { result ≡ is_to_fail self.old }
        ensures after { self.new ≡ after_call self.old }
    {
        let call = self.next;
        self.next = call.saturating_add(1);
        self.failing.contains(&call)
    }

    /// Counts a call that failed.
    pub(crate) fn count_failure(&mut self)
        ensures after { self.new ≡ after_failure self.old }
        ensures count { self.old.failures ≤ self.new.failures }
    {
        self.failures = self.failures.saturating_add(1);
    }
}
