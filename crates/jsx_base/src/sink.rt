//! Bytes that go out.

ghost use Rattle.std.specs.Prelude.{◌≡◌, ◌+◌, ◌≤◌, List, ℕ, Option, length, OnOk, OnErr};
ghost use Rattle.jsx_base.specs.Faults.{Rose};
ghost use Rattle.jsx_base.specs.Sink.{Gains, GainsPrefix};

mod mem_sink;
mod quiet_sink;
mod std_sink;

use crate::Failed;
pub use mem_sink::MemSink;
pub use quiet_sink::QuietSink;
use std::alloc::AllocError;
pub use std_sink::StdSink;

/// Where bytes go.
pub trait Sink {
    /// The bytes that the sink holds, where it tells them.
    ghost holds: { Self → Option (List ℕ) };

    /// How often a write has failed.
    ghost faults: { Self → ℕ };

    /// How many bytes may be written before the next `reserve`.
    ghost room: { Self → ℕ };

    /// Makes room for `n` bytes, if there isn't as much already. Nothing else changes.
    ///
    /// # Errors
    ///
    /// `AllocError` for want of memory. Then nothing has changed.
    fn reserve(&mut self, n: usize) -> Result<(), AllocError>
        ensures enough { OnOk result (n ≤ room self.new) }
        ensures never_less { room self.old ≤ room self.new }
        ensures no_room_gained { OnErr result (room self.new ≡ room self.old) }
        ensures same_bytes { holds self.new ≡ holds self.old }
        ensures no_fault { faults self.new ≡ faults self.old };

    /// Writes all of these bytes, of which there are at most `room`. It takes no memory.
    ///
    /// # Errors
    ///
    /// `Failed` where the outside failed. Then some prefix of the bytes was written.
    fn write(&mut self, bytes: &[u8]) -> Result<(), Failed>
        requires { length bytes.now ≤ room self.old }
        ensures all { OnOk result (Gains (holds self.old) (holds self.new) bytes.now) }
        ensures prefix { OnErr result (GainsPrefix (holds self.old) (holds self.new) bytes.now) }
        ensures cause { OnErr result (Rose (faults self.old) (faults self.new)) }
        ensures never_falls { faults self.old ≤ faults self.new }
        ensures room { room self.old ≤ room self.new + length bytes.now };
}

#[cfg(test)]
mod tests {
    use super::*;
    use std::alloc::Global;
    use std::io;
    use std::io::Write;

    /// Takes two bytes in each call, and none when it is full.
    #[derive(Drop)]
    struct Narrow {
        taken: Vec<u8>,
        most: usize,
    }

    impl Write for Narrow {
        fn write(&mut self, buf: &[u8]) -> io::Result<usize> {
            if self.taken.len() >= self.most {
                return Ok(0);
            }
            let n = buf.len().min(2);
            self.taken.extend_from_slice(&buf[..n])?;
            Ok(n)
        }

        fn flush(&mut self) -> io::Result<()> {
            Ok(())
        }
    }

    // Whether a write answers this, and the sink holds so many bytes then.
    fn writes(
        sink: &mut MemSink,
        bytes: &[u8; 2],
        want: Result<(), Failed>,
        held: usize,
    ) -> Result<bool, AllocError> {
        sink.reserve(2)?;
        Ok(sink.write(bytes) == want && sink.bytes().len() == held)
    }

    fn second_write_fails(sink: &mut MemSink) -> Result<bool, AllocError> {
        Ok(
            writes(sink, b"ab", Ok(()), 2)?
                && writes(sink, b"cd", Err(Failed), 2)?
                && writes(sink, b"ef", Ok(()), 4)?,
        )
    }

    fn failed_write_adds_nothing(alloc: Global) -> Result<bool, AllocError> {
        let mut sink = MemSink::new(alloc, &[1])?;
        Ok(second_write_fails(&mut sink)? && sink.bytes() == b"abef".as_slice())
    }

    #[test]
    fn listed_writes_fail_and_add_nothing(rt: HostRuntime) {
        assert!(rt; failed_write_adds_nothing(rt.alloc()) == Ok(true));
    }

    fn quiet_sink_holds_all(alloc: Global) -> Result<bool, AllocError> {
        let mut sink = QuietSink::new(alloc);
        sink.reserve(4)?;
        Ok(
            sink.write(b"ab") == Ok(())
                && sink.write(b"cd") == Ok(())
                && sink.bytes() == b"abcd".as_slice(),
        )
    }

    #[test]
    fn a_quiet_sink_holds_what_was_written(rt: HostRuntime) {
        assert!(rt; quiet_sink_holds_all(rt.alloc()) == Ok(true));
    }

    fn takes_all<W: Write>(sink: &mut StdSink<W>) -> Result<bool, AllocError> {
        sink.reserve(6)?;
        Ok(
            sink.write(b"abc") == Ok(())
                && sink.write(b"") == Ok(())
                && sink.write(b"def") == Ok(()),
        )
    }

    fn std_writer_takes_all(alloc: Global) -> Result<bool, AllocError> {
        let mut taken = Vec::new(alloc);
        Ok(takes_all(&mut StdSink::new(&mut taken))? && taken.as_slice() == b"abcdef".as_slice())
    }

    #[test]
    fn std_writers_take_all(rt: HostRuntime) {
        assert!(rt; std_writer_takes_all(rt.alloc()) == Ok(true));
    }

    fn full_writer_is_a_fault(mut writer: Narrow) -> bool {
        StdSink::new(&mut writer).write(b"abc") == Ok(())
            && StdSink::new(&mut writer).write(b"defg") == Err(Failed)
            && writer.taken.as_slice() == b"abcde".as_slice()
    }

    #[test]
    fn a_std_write_that_takes_nothing_is_a_fault(rt: HostRuntime) {
        let writer = Narrow {
            taken: Vec::new(rt.alloc()),
            most: 4,
        };
        assert!(rt; full_writer_is_a_fault(writer));
    }
}
