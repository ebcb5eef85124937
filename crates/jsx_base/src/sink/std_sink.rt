//! A sink over a writer of std.

ghost use Rattle.std.specs.Prelude.{◌≡◌, ◌≤◌, ◌-◌, ◌^◌, ℕ, length, take, None, IsOk, OnOk, OnErr};
ghost use Rattle.std.specs.Io.KnownBytes.{Appends};
ghost use Rattle.jsx_base.specs.Faults.{next_count};

use crate::{Failed, Sink};
use std::alloc::AllocError;
use std::io::Write;

/// A sink over a writer of std, which is trusted to take the bytes to the outside. It tells none,
/// and its room never ends.
#[derive(Debug, Drop)]
pub struct StdSink<W: Write> {
    inner: W,
    // It stays at the greatest `u64`.
    faults: u64,
}

impl<W: Write> StdSink<W> {
    ghost use Rattle.jsx_base.specs.StdSink.{writer, failed_writes};

    /// A sink over this writer.
    pub fn new(inner: W) -> StdSink<W>
        ensures writer { writer result ≡ inner }
        ensures faults { failed_writes result ≡ 0 }
    {
        StdSink { inner, faults: 0 }
    }
}

impl<W: Write> Sink for StdSink<W> {
    ghost use Rattle.jsx_base.specs.StdSink.{writer, failed_writes};

    ghost holds = { λ _. None };

    ghost faults = { failed_writes };

    ghost room = { λ _. 2 ^ 64 - 1 };

    /// It takes no memory and answers Ok.
    fn reserve(&mut self, n: usize) -> Result<(), AllocError>
        ensures ok { IsOk result }
        ensures enough { n ≤ 2 ^ 64 - 1 }
        ensures same { self.new ≡ self.old }
    {
        Ok(())
    }

    /// Writes until all is written. Any error of the writer is a fault, and so is a write that
    /// takes nothing.
    fn write(&mut self, bytes: &[u8]) -> Result<(), Failed>
        ensures all { OnOk result (Appends (W.contents (writer self.old)) (W.contents (writer self.new)) bytes.now) }
        ensures prefix { OnErr result ((n : ℕ) ×
            Appends (W.contents (writer self.old)) (W.contents (writer self.new)) (take n bytes.now)) }
        ensures fault { OnErr result (failed_writes self.new ≡ next_count (failed_writes self.old)) }
        ensures never_falls { failed_writes self.old ≤ failed_writes self.new }
        ensures no_fault { OnOk result (failed_writes self.new ≡ failed_writes self.old) }
    {
        let mut written = 0;
        while written < bytes.len() {
            match self.inner.write(&bytes[written..]) {
                Ok(n) if n > 0 => written += n,
                _ => {
                    self.faults = self.faults.saturating_add(1);
                    return Err(Failed);
                }
            }
        }
        Ok(())
    }
}
