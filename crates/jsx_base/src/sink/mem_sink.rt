//! A sink in memory.

ghost use Rattle.std.specs.Prelude.{◌≡◌, ◌+◌, ◌≤◌, ◌↔◌, [], ◌++◌, length, Some, IfOk, IsErr, OnOk, OnErr};
ghost use Rattle.jsx_base.specs.Calls.{NextFails};
ghost use Rattle.jsx_base.specs.Faults.{next_count};

use crate::calls::Calls;
use crate::{Failed, Sink};
use std::alloc::{AllocError, Global};
use std::marker::Model;

/// A sink in memory, of which chosen writes fail.
#[derive(Debug, Drop)]
pub struct MemSink {
    bytes: Vec<u8>,
    writes: Calls,
}

impl Model for MemSink {
    ghost use Rattle.std.specs.Prelude.{◌-◌, vec_len, vec_capacity};
    ghost use Rattle.jsx_base.specs.Sink.{MemorySink};

    ghost Value = { MemorySink };

    ghost view = { λ s. record { holds = s.bytes.items; room = vec_capacity s.bytes - vec_len s.bytes; writes = s.writes } };
}

impl MemSink {
    /// An empty sink without room. The writes with the numbers in `fail`, from 0, fail.
    pub fn new(alloc: Global, fail: &[u32]) -> Result<MemSink, AllocError>
        ensures holds { IfOk result (λ sink. sink.holds ≡ []) }
        ensures room { IfOk result (λ sink. sink.room ≡ 0) }
        ensures fail { IfOk result (λ sink. sink.writes.fail ≡ fail.now) }
        ensures next { IfOk result (λ sink. sink.writes.next ≡ 0) }
        ensures faults { IfOk result (λ sink. sink.writes.faults ≡ 0) }
    {
        Ok(MemSink {
            bytes: Vec::new(alloc),
            writes: Calls::new(alloc, fail)?,
        })
    }

    /// What it holds.
    pub fn bytes(&self) -> &[u8]
        ensures { result.now ≡ self.now.holds }
    {
        &self.bytes
    }
}

impl Sink for MemSink {
    ghost holds = { λ sink. Some sink.holds };

    ghost faults = { λ sink. sink.writes.faults };

    ghost room = { λ sink. sink.room };

    fn reserve(&mut self, n: usize) -> Result<(), AllocError>
        ensures enough { OnOk result (n ≤ self.new.room) }
        ensures never_less { self.old.room ≤ self.new.room }
        ensures no_room_gained { OnErr result (self.new.room ≡ self.old.room) }
        ensures same_bytes { self.new.holds ≡ self.old.holds }
        ensures same_writes { self.new.writes ≡ self.old.writes }
    {
        self.bytes.try_reserve(n)
    }

    /// A write that fails adds nothing.
    fn write(&mut self, bytes: &[u8]) -> Result<(), Failed>
        requires { length bytes.now ≤ self.old.room }
        ensures listed { IsErr result ↔ NextFails self.old.writes }
        ensures all { OnOk result (self.new.holds ≡ self.old.holds ++ bytes.now) }
        ensures nothing { OnErr result (self.new.holds ≡ self.old.holds) }
        ensures room { self.old.room ≤ self.new.room + length bytes.now }
        ensures room_kept { OnErr result (self.new.room ≡ self.old.room) }

        ensures same_list { self.new.writes.fail ≡ self.old.writes.fail }
        ensures next { self.new.writes.next ≡ next_count self.old.writes.next }
        ensures fault { OnErr result (self.new.writes.faults ≡ self.old.writes.faults + 1) }
        ensures no_fault { OnOk result (self.new.writes.faults ≡ self.old.writes.faults) }
    {
        if self.writes.next_fails() {
            return Err(Failed);
        }
        self.bytes.extend_from_slice(bytes).unwrap();
        Ok(())
    }
}
