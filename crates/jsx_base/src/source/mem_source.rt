//! A source in memory.

ghost use Rattle.std.specs.Prelude.{◌≡◌, ◌+◌, ◌↔◌, ◌++◌, length, take, drop, min, Some, IfOk, IsErr, OnOk, OnErr};
ghost use Rattle.jsx_base.specs.Calls.{NextFails};
ghost use Rattle.jsx_base.specs.Faults.{next_count};

use crate::calls::Calls;
use crate::{Failed, Source};
use std::alloc::{AllocError, Global};
use std::marker::Model;

/// A source in memory, of which chosen reads fail.
#[derive(Debug, Drop)]
pub struct MemSource {
    bytes: Vec<u8>,
    // How many of the bytes have been given.
    given: usize,
    reads: Calls,
}

impl Model for MemSource {
    ghost use Rattle.std.specs.Prelude.{◌≤◌, drop, length};
    ghost use Rattle.jsx_base.specs.Source.{MemorySource};

    ghost Value = { MemorySource };

    ghost view = { λ s. record { left = drop s.given s.bytes.items; reads = s.reads } };

    ghost invariant = { λ s. s.given ≤ length s.bytes.items };
}

impl MemSource {
    /// A source of these bytes. The reads with the numbers in `fail`, from 0, fail.
    pub fn new(alloc: Global, bytes: &[u8], fail: &[u32]) -> Result<MemSource, AllocError>
        ensures left { IfOk result (λ source. source.left ≡ bytes.now) }
        ensures fail { IfOk result (λ source. source.reads.fail ≡ fail.now) }
        ensures next { IfOk result (λ source. source.reads.next ≡ 0) }
        ensures faults { IfOk result (λ source. source.reads.faults ≡ 0) }
    {
        Ok(MemSource {
            bytes: bytes.to_vec(alloc)?,
            given: 0,
            reads: Calls::new(alloc, fail)?,
        })
    }

    // Fills a buffer, as far as there are bytes, and answers with how many.
    fn give(&mut self, buf: &mut [u8]) -> usize
        ensures count { result ≡ min (length self.old.left) (length buf.old) }
        ensures bytes { buf.new ≡ take result self.old.left ++ drop result buf.old }
        ensures left { self.new ≡ record self.old { left = drop result self.old.left } }
    {
        let rest = &self.bytes[self.given..];
        let n = copy_front(rest, buf);
        self.given += n;
        n
    }
}

impl Source for MemSource {
    ghost left = { λ source. Some source.left };

    ghost faults = { λ source. source.reads.faults };

    /// A read that doesn't fail fills the buffer, as far as there are bytes, and no more.
    fn read(&mut self, buf: &mut [u8]) -> Result<usize, Failed>
        ensures listed { IsErr result ↔ NextFails self.old.reads }
        ensures count { IfOk result (λ n. n ≡ min (length self.old.left) (length buf.old)) }
        ensures bytes { IfOk result (λ n. buf.new ≡ take n self.old.left ++ drop n buf.old) }
        ensures left { IfOk result (λ n. self.new.left ≡ drop n self.old.left) }
        ensures kept { OnErr result (self.new.left ≡ self.old.left) }
        ensures buffer_kept { OnErr result (buf.new ≡ buf.old) }

        ensures same_list { self.new.reads.fail ≡ self.old.reads.fail }
        ensures next { self.new.reads.next ≡ next_count self.old.reads.next }
        ensures fault { OnErr result (self.new.reads.faults ≡ self.old.reads.faults + 1) }
        ensures no_fault { OnOk result (self.new.reads.faults ≡ self.old.reads.faults) }
    {
        if self.reads.next_fails() {
            return Err(Failed);
        }
        Ok(self.give(buf))
    }
}

// Copies as many bytes as fit from one front to the other, and answers how many.
fn copy_front(from: &[u8], to: &mut [u8]) -> usize
    ensures count { result ≡ min (length from.now) (length to.old) }
    ensures bytes { to.new ≡ take result from.now ++ drop result to.old }
{
    let n = from.len().min(to.len());
    to[..n].copy_from_slice(&from[..n]);
    n
}
