//! Bytes that come in.

ghost use Rattle.std.specs.Prelude.{◌≡◌, ◌<◌, ◌≤◌, ◌↔◌, List, ℕ, Option, [], length, take, IfOk, IfSome, OnErr};
ghost use Rattle.jsx_base.specs.Faults.{Rose};
ghost use Rattle.jsx_base.specs.Source.{Gives};

mod mem_source;
mod std_source;

pub use mem_source::MemSource;
pub use std_source::StdSource;

/// A read or a write failed.
#[derive(Clone, Copy, Debug, PartialEq, Eq, Hash)]
pub struct Failed;

/// Where bytes come from.
pub trait Source {
    /// The bytes still to come, where the source tells them.
    ghost left: { Self → Option (List ℕ) };

    /// How often a read has failed.
    ghost faults: { Self → ℕ };

    /// Reads into the front of `buf`, and answers the number of bytes read. A read of 0 bytes into
    /// a buffer that isn't empty is the end of the input. What is behind the bytes read is open.
    ///
    /// # Errors
    ///
    /// `Failed` where the outside failed. No byte is lost, so the read may be tried again.
    fn read(&mut self, buf: &mut [u8]) -> Result<usize, Failed>
        ensures fits { IfOk result (λ n. n ≤ length buf.old) }
        ensures bytes { IfOk result (λ n. Gives (left self.old) (left self.new) (take n buf.new)) }

        // Of bytes that are told, none are given exactly at the end.
        ensures end { IfOk result (λ n. 0 < length buf.old →
            IfSome (left self.old) (λ bytes. (n ≡ 0) ↔ (bytes ≡ []))) }

        ensures cause { OnErr result (Rose (faults self.old) (faults self.new)) }
        ensures kept { OnErr result (left self.new ≡ left self.old) }
        ensures never_falls { faults self.old ≤ faults self.new };
}

#[cfg(test)]
mod tests {
    use super::*;
    use std::alloc::{AllocError, Global};
    use std::io;
    use std::io::{ErrorKind, Read};

    /// Gives one byte, fails, and then ends.
    #[derive(Drop)]
    struct Broken {
        reads: u8,
    }

    impl Read for Broken {
        fn read(&mut self, buf: &mut [u8]) -> io::Result<usize> {
            self.reads = self.reads.saturating_add(1);
            match self.reads {
                1 if !buf.is_empty() => {
                    buf[0] = b'x';
                    Ok(1)
                }
                2 => Err(io::Error::from(ErrorKind::BrokenPipe)),
                _ => Ok(0),
            }
        }
    }

    // What is wanted of a read that fails.
    const FAULT: &str = "!";

    fn gives<S: Source>(source: &mut S, want: &str) -> bool {
        let mut buf = [0; 4];
        match source.read(&mut buf) {
            Ok(n) => &buf[..n] == want.as_bytes(),
            Err(Failed) => want == FAULT,
        }
    }

    // Whether one read after another gives these bytes.
    fn reads<S: Source>(source: &mut S, wanted: &[&str]) -> bool {
        for want in wanted {
            if !gives(source, want) {
                return false;
            }
        }
        true
    }

    fn listed_reads_lose_nothing(alloc: Global) -> Result<bool, AllocError> {
        let mut source = MemSource::new(alloc, b"abcdef", &[1, 4])?;
        Ok(reads(&mut source, &["abcd", FAULT, "ef", "", FAULT, ""]))
    }

    #[test]
    fn listed_reads_fail_and_lose_nothing(rt: HostRuntime) {
        assert!(rt; listed_reads_lose_nothing(rt.alloc()) == Ok(true));
    }

    #[test]
    fn std_readers_give_their_bytes_and_faults(rt: HostRuntime) {
        let text: &[u8] = b"abcdef";
        assert!(rt; reads(&mut StdSource::new(text), &["abcd", "ef", ""]));
        let broken = Broken { reads: 0 };
        assert!(rt; reads(&mut StdSource::new(broken), &["x", FAULT, ""]));
    }
}
