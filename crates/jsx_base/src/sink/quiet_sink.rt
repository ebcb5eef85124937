//! A sink in memory that never fails.

ghost use Rattle.std.specs.Prelude.{◌≡◌, ◌+◌, ◌≤◌, [], ◌++◌, length, Some, IsOk, OnOk, OnErr};

use crate::{Failed, Sink};
use std::alloc::{AllocError, Global};
use std::marker::Model;

/// A sink in memory that never fails.
#[derive(Debug, Drop)]
pub struct QuietSink {
    bytes: Vec<u8>,
}

impl Model for QuietSink {
    ghost use Rattle.std.specs.Prelude.{◌-◌, vec_len, vec_capacity};
    ghost use Rattle.jsx_base.specs.Sink.{QuietMemorySink};

    ghost Value = { QuietMemorySink };

    ghost view = { λ s. record { holds = s.bytes.items; room = vec_capacity s.bytes - vec_len s.bytes } };
}

impl QuietSink {
    /// An empty sink without room. It takes no memory.
    pub fn new(alloc: Global) -> QuietSink
        ensures holds { result.holds ≡ [] }
        ensures room { result.room ≡ 0 }
    {
        QuietSink {
            bytes: Vec::new(alloc),
        }
    }

    /// What it holds.
    pub fn bytes(&self) -> &[u8]
        ensures { result.now ≡ self.now.holds }
    {
        &self.bytes
    }
}

impl Sink for QuietSink {
    ghost holds = { λ sink. Some sink.holds };

    ghost faults = { λ _. 0 };

    ghost room = { λ sink. sink.room };

    fn reserve(&mut self, n: usize) -> Result<(), AllocError>
        ensures enough { OnOk result (n ≤ self.new.room) }
        ensures never_less { self.old.room ≤ self.new.room }
        ensures no_room_gained { OnErr result (self.new.room ≡ self.old.room) }
        ensures same_bytes { self.new.holds ≡ self.old.holds }
    {
        self.bytes.try_reserve(n)
    }

    /// It answers Ok.
    fn write(&mut self, bytes: &[u8]) -> Result<(), Failed>
        requires { length bytes.now ≤ self.old.room }
        ensures ok { IsOk result }
        ensures all { self.new.holds ≡ self.old.holds ++ bytes.now }
        ensures room { self.old.room ≤ self.new.room + length bytes.now }
    {
        self.bytes.extend_from_slice(bytes).unwrap();
        Ok(())
    }
}
