//! The program's input and output as a source and a sink.
ghost use Rattle.std.specs.Prelude.{◌≡◌, ◌+◌, ◌<◌, ◌≤◌, length, None, IfSome, IfOk};
ghost use Rattle.ir_core.specs.Streams.{Counts, Rose, Reads, Writes, HoldsFront};

use ir_core::{Failed, Sink, Source};
use std::io::{Read, Write};

/// A source over a reader. It tells nothing of what is left.
#[derive(Drop)]
pub struct StdinSource<T> {
    reader: T,
    faults: u64,
}

impl<T: Read> StdinSource<T> {
    /// A source over the reader, of which no call failed.
    pub fn new(reader: T) -> Self
        ensures { ⟦<StdinSource<T> as Source>⟧.faults result ≡ 0 }
    {
        StdinSource { reader, faults: 0 }
    }
}

impl<T: Read> Source for StdinSource<T> {
    ghost left = { λ _. None };

    ghost faults = { λ s. s.faults };

    ghost empty_reads = { λ _. 0 };

    fn read(&mut self, into: &mut [u8]) -> Result<usize, Failed> {
        let faults = self.faults;
        let Ok(taken) = self.reader.read(into) else {
            self.faults = faults.saturating_add(1);
            return Err(Failed);
        };
        Ok(taken)
    }
}

/// A sink over a writer, which it flushes in each call. It tells nothing of what it holds.
#[derive(Drop)]
pub struct StdoutSink<T> {
    writer: T,
    faults: u64,
}

impl<T: Write> StdoutSink<T> {
    /// A sink over the writer, of which no call failed.
    pub fn new(writer: T) -> Self
        ensures { ⟦<StdoutSink<T> as Sink>⟧.faults result ≡ 0 }
    {
        StdoutSink { writer, faults: 0 }
    }
}

// Writes once, and flushes. It answers `None` where either fails, or none of the bytes is taken.
fn push<T: Write>(writer: &mut T, bytes: &[u8]) -> Option<usize>
    ensures fits { IfSome result (λ n. n ≤ length bytes.now) }
    ensures moves { IfSome result (λ n. 0 < length bytes.now → 0 < n) }
{
    let taken = writer.write(bytes).ok()?;
    writer.flush().ok()?;
    if taken == 0 && !bytes.is_empty() {
        return None;
    }
    Some(taken)
}

impl<T: Write> Sink for StdoutSink<T> {
    ghost held = { λ _. None };

    ghost faults = { λ s. s.faults };

    ghost empty_writes = { λ _. 0 };

    fn write(&mut self, bytes: &[u8]) -> Result<usize, Failed> {
        let faults = self.faults;
        let Some(taken) = push(&mut self.writer, bytes) else {
            self.faults = faults.saturating_add(1);
            return Err(Failed);
        };
        Ok(taken)
    }
}

#[cfg(test)]
mod tests {
    use super::*;
    use crate::reading::{ReadEnd, read_all};
    use crate::writing::write_all;
    use std::io;
    use std::io::ErrorKind;
    use std::test::Fail;

    // A reader of a few bytes at a time, which fails once its turns are over.
    #[derive(Drop)]
    struct Flaky {
        turns: u8,
        // How many bytes it moves in a turn.
        len: usize,
    }

    impl Flaky {
        fn turn(&mut self, room: usize) -> io::Result<usize>
            ensures { IfOk result (λ n. n ≤ room) }
        {
            if self.turns == 0 {
                return Err(io::Error::from(ErrorKind::BrokenPipe));
            }
            self.turns -= 1;
            Ok(room.min(self.len))
        }
    }

    impl Read for Flaky {
        fn read(&mut self, buf: &mut [u8]) -> io::Result<usize> {
            self.turn(buf.len())
        }
    }

    impl Write for Flaky {
        fn write(&mut self, buf: &[u8]) -> io::Result<usize> {
            self.turn(buf.len())
        }

        fn flush(&mut self) -> io::Result<()> {
            Ok(())
        }
    }

    #[test]
    fn a_reader_that_fails_in_between_is_a_fault(rt: HostRuntime) -> Result<(), Fail> {
        let mut source = StdinSource::new(Flaky { turns: 2, len: 3 });
        let end = read_all(rt.alloc(), &mut source).err();
        assert_eq!(rt; end, Some(ReadEnd::Fault));
        assert_eq!(rt; source.faults, 1);
        Ok(())
    }

    #[test]
    fn a_writer_that_fails_in_between_is_a_fault(rt: HostRuntime) {
        let mut sink = StdoutSink::new(Flaky { turns: 2, len: 3 });
        assert_eq!(rt; write_all(&mut sink, b"one, two"), Err(Failed));
        assert_eq!(rt; sink.faults, 1);
    }

    #[test]
    fn a_writer_that_takes_nothing_is_a_fault(rt: HostRuntime) {
        let mut sink = StdoutSink::new(Flaky { turns: 9, len: 0 });
        assert_eq!(rt; write_all(&mut sink, b"one"), Err(Failed));
        assert_eq!(rt; write_all(&mut sink, b""), Ok(()));
        assert_eq!(rt; sink.faults, 1);
    }
}
