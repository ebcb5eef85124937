//! Which calls of a source or a sink in memory fail.

ghost use Rattle.std.specs.Prelude.{◌≡◌, ◌+◌, ◌^◌, ◌<◌, ◌↔◌, Contains, IfOk, IsTrue};
ghost use Rattle.std.specs.Bool.{OnTrue, OnFalse};
ghost use Rattle.jsx_base.specs.Calls.{NextFails};
ghost use Rattle.jsx_base.specs.Faults.{next_count};

use std::alloc::{AllocError, Global};
use std::marker::Model;

/// The calls that were made, and those that fail.
#[derive(Debug, Drop)]
pub struct Calls {
    /// The numbers, from 0, of the calls that fail.
    fail: Vec<u32>,
    /// The number of the next call. It stays at the greatest `u64`.
    next: u64,
    /// How many calls have failed.
    faults: u64,
}

impl Model for Calls {
    ghost use Rattle.std.specs.Prelude.{◌≤◌};
    ghost use Rattle.jsx_base.specs.Calls.{Calls};

    ghost Value = { Calls };

    ghost view = { λ c. record { fail = c.fail.items; next = c.next; faults = c.faults } };

    ghost invariant = { λ c. c.faults ≤ c.next };
}

impl Calls {
    /// No call was made yet.
    pub fn new(alloc: Global, fail: &[u32]) -> Result<Calls, AllocError>
        ensures fail { IfOk result (λ calls. calls.fail ≡ fail.now) }
        ensures next { IfOk result (λ calls. calls.next ≡ 0) }
        ensures faults { IfOk result (λ calls. calls.faults ≡ 0) }
    {
        Ok(Calls {
            fail: fail.to_vec(alloc)?,
            next: 0,
            faults: 0,
        })
    }

    /// Makes the next call, and answers whether it fails.
    pub fn next_fails(&mut self) -> bool
        ensures listed { IsTrue result ↔ NextFails self.old }
        ensures same_list { self.new.fail ≡ self.old.fail }
        ensures next { self.new.next ≡ next_count self.old.next }
        ensures fault { OnTrue result (self.new.faults ≡ self.old.faults + 1) }
        ensures no_fault { OnFalse result (self.new.faults ≡ self.old.faults) }
    {
        let fails = is_listed(&self.fail, self.next);
        self.next = self.next.saturating_add(1);
        if fails {
            self.faults += 1;
        }
        fails
    }
}

// Whether a list has this number.
fn is_listed(list: &[u32], number: u64) -> bool
    ensures listed { IsTrue result ↔ Contains list.now number }
    ensures small { OnTrue result (number < 2 ^ 32) }
{
    match u32::try_from(number) {
        Ok(number) => list.contains(&number),
        Err(_) => false,
    }
}
