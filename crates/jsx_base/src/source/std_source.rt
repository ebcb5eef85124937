//! A source over a reader of std.

ghost use Rattle.std.specs.Prelude.{◌≡◌, ◌≤◌, length, None, IfOk, OnOk, OnErr};
ghost use Rattle.std.specs.Io.KnownBytes.{ReadConsumes};
ghost use Rattle.jsx_base.specs.Faults.{next_count};

use crate::{Failed, Source};
use std::io::Read;

/// A source over a reader of std, which is trusted to give the bytes of the outside. It tells none.
#[derive(Debug, Drop)]
pub struct StdSource<R: Read> {
    inner: R,
    // It stays at the greatest `u64`.
    faults: u64,
}

impl<R: Read> StdSource<R> {
    ghost use Rattle.jsx_base.specs.StdSource.{reader, failed_reads};

    /// A source over this reader.
    pub fn new(inner: R) -> StdSource<R>
        ensures reader { reader result ≡ inner }
        ensures faults { failed_reads result ≡ 0 }
    {
        StdSource { inner, faults: 0 }
    }
}

impl<R: Read> Source for StdSource<R> {
    ghost use Rattle.jsx_base.specs.StdSource.{reader, failed_reads};

    ghost left = { λ _. None };

    ghost faults = { failed_reads };

    /// One read of the reader. Any error of it is a fault.
    fn read(&mut self, buf: &mut [u8]) -> Result<usize, Failed>
        ensures fits { IfOk result (λ n. n ≤ length buf.old) }
        ensures bytes { ReadConsumes (R.remaining (reader self.old)) (R.remaining (reader self.new)) result buf.new }
        ensures fault { OnErr result (failed_reads self.new ≡ next_count (failed_reads self.old)) }
        ensures never_falls { failed_reads self.old ≤ failed_reads self.new }
        ensures no_fault { OnOk result (failed_reads self.new ≡ failed_reads self.old) }
    {
        match self.inner.read(buf) {
            Ok(n) => Ok(n),
            Err(_) => {
                self.faults = self.faults.saturating_add(1);
                Err(Failed)
            }
        }
    }
}
