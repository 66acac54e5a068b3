//! Sources and sinks of bytes, whose calls may fail.
ghost use Rattle.std.specs.Prelude.{◌≡◌, ℕ, ◌+◌, ◌-◌, ◌<◌, ◌≤◌, min, List, [], ◌++◌, length, take, drop, Option, Some, Ok, Err, IfOk, OnOk, OnErr};
ghost use Rattle.ir_core.specs.Streams.{Counts, Rose, Reads, Writes, HoldsFront, SinkState, rises};

use crate::{R, TermError};
use std::alloc::Global;
use std::marker::Model;

/// A call on a stream failed.
#[derive(Clone, Copy, PartialEq, Eq, Hash, Debug)]
pub struct Failed;

/// What bytes come from.
pub trait Source {
    // The bytes that are left, or `None` where the source tells nothing of them.
    ghost left: { Self → Option (List ℕ) };

    // How many calls failed. It stands still at its last value, 2^64 - 1.
    ghost faults: { Self → ℕ };

    // How many calls gave no byte. A source need not count them.
    ghost empty_reads: { Self → ℕ };

    /// Moves bytes from the front of what is left to the front of the piece, and says how many. What stands behind them in the piece is not specified. It moves none into a piece with room only at the end, and none when it fails.
    fn read(&mut self, into: &mut [u8]) -> Result<usize, Failed>
        ensures counts { Counts (faults self.old) (faults self.new) }
        ensures ok { IfOk result (Reads (left self.old) (left self.new) into.new) }
        ensures failed { OnErr result (Rose (faults self.old) (faults self.new)) }
        ensures kept { OnErr result (left self.new ≡ left self.old) }
        ensures gives { IfOk result (λ n. 0 < n → empty_reads self.new ≡ empty_reads self.old) }
        ensures once { empty_reads self.new ≤ empty_reads self.old + 1 };
}

/// What bytes go to.
pub trait Sink {
    // The bytes that it holds, or `None` where the sink tells nothing of them.
    ghost held: { Self → Option (List ℕ) };

    // How many calls failed. It stands still at its last value, 2^64 - 1.
    ghost faults: { Self → ℕ };

    // How many calls were given an empty piece. A sink need not count them.
    ghost empty_writes: { Self → ℕ };

    /// Takes bytes from the front of the piece, and says how many: at least one, where there is one. A call that fails may have taken some.
    fn write(&mut self, bytes: &[u8]) -> Result<usize, Failed>
        ensures counts { Counts (faults self.old) (faults self.new) }
        ensures ok { IfOk result (Writes (held self.old) (held self.new) bytes.now) }
        ensures failed { OnErr result (Rose (faults self.old) (faults self.new)) }
        ensures front { OnErr result (HoldsFront (held self.old) (held self.new) bytes.now) }
        ensures whole { 0 < length bytes.now → empty_writes self.new ≡ empty_writes self.old };
}

/// A source in memory, which never fails.
#[derive(Drop)]
pub struct SureSource {
    bytes: Vec<u8>,
    at: usize,
}

impl Model for SureSource {
    ghost use Rattle.std.specs.Prelude.{ℕ, ◌≤◌, List, drop, vec_len};

    ghost Value = { List ℕ };

    ghost view = { λ s. drop s.at s.bytes.items };

    ghost invariant = { λ s. s.at ≤ vec_len s.bytes };
}

impl SureSource {
    /// A source with a copy of the bytes. It is refused only for want of memory.
    pub fn new(alloc: Global, bytes: &[u8]) -> R<SureSource>
        ensures ok { IfOk result (λ s. s ≡ bytes.now) }
        ensures err { OnErr result (result ≡ Err TermError.Memory) }
    {
        let bytes = Vec::from_slice(alloc, bytes)?;
        Ok(SureSource { bytes, at: 0 })
    }
}

impl Source for SureSource {
    ghost left = { λ s. Some s };

    ghost faults = { λ _. 0 };

    ghost empty_reads = { λ _. 0 };

    fn read(&mut self, into: &mut [u8]) -> Result<usize, Failed>
        ensures reads { IfOk result (Reads (Some self.old) (Some self.new) into.new) }
        ensures ok { result ≡ Ok (min (length into.old) (length self.old)) }
        ensures left { self.new ≡ drop (length into.old) self.old }
        ensures given { take (length self.old) into.new ≡ take (length into.old) self.old }
    {
        let taken = into.len().min(self.bytes.len() - self.at);
        let end = self.at + taken;
        into[..taken].copy_from_slice(&self.bytes[self.at..end]);
        self.at = end;
        Ok(taken)
    }
}

/// A sink in memory, which fails where it has no room.
#[derive(Drop)]
pub struct SureSink {
    bytes: Vec<u8>,
    room: usize,
    faults: u64,
}

impl Model for SureSink {
    ghost use Rattle.std.specs.Prelude.{◌≤◌, ◌+◌, vec_len, vec_capacity};
    ghost use Rattle.ir_core.specs.Streams.{SinkState};

    ghost Value = { SinkState };

    ghost view = { λ s. record { held = s.bytes.items; room = s.room; faults = s.faults } };

    ghost invariant = { λ s. vec_len s.bytes + s.room ≤ vec_capacity s.bytes };
}

impl SureSink {
    /// A sink with room for so many bytes, for which it takes the memory now. It is refused only for want of memory.
    pub fn new(alloc: Global, room: usize) -> R<SureSink>
        ensures ok { IfOk result (λ s. s ≡ record { held = []; room = room; faults = 0 }) }
        ensures err { OnErr result (result ≡ Err TermError.Memory) }
    {
        let bytes = Vec::with_capacity(alloc, room)?;
        Ok(SureSink {
            bytes,
            room,
            faults: 0,
        })
    }

    /// The bytes that it holds.
    pub fn held(&self) -> &[u8]
        ensures { result.now ≡ self.now.held }
    {
        self.bytes.as_slice()
    }
}

impl Sink for SureSink {
    ghost held = { λ s. Some s.held };

    ghost faults = { λ s. s.faults };

    ghost empty_writes = { λ _. 0 };

    fn write(&mut self, bytes: &[u8]) -> Result<usize, Failed>
        ensures counts { Counts self.old.faults self.new.faults }
        ensures writes { IfOk result (Writes (Some self.old.held) (Some self.new.held) bytes.now) }
        ensures held { self.new.held ≡ self.old.held ++ take self.old.room bytes.now }
        ensures room { self.new.room ≡ self.old.room - length bytes.now }
        ensures ok { IfOk result (λ n. (n ≡ min (length bytes.now) self.old.room) × (self.new.faults ≡ self.old.faults)) }
        ensures full { OnErr result ((self.old.room ≡ 0) × (0 < length bytes.now) × (self.new.faults ≡ rises self.old.faults)) }
    {
        let taken = bytes.len().min(self.room);
        if taken == 0 && !bytes.is_empty() {
            self.faults = self.faults.saturating_add(1);
            return Err(Failed);
        }
        let Ok(()) = self.bytes.extend_from_slice(&bytes[..taken]) else {
            unreachable!()
        };
        self.room -= taken;
        Ok(taken)
    }
}

#[cfg(test)]
mod tests {
    use super::*;
    use std::test::Fail;

    #[test]
    fn sure_source_gives_its_bytes_in_turn(rt: HostRuntime) -> Result<(), Fail> {
        let mut source = SureSource::new(rt.alloc(), b"abcde")?;
        let mut piece = [0; 3];
        assert_eq!(rt; source.read(&mut piece), Ok(3));
        assert_eq!(rt; piece, *b"abc");
        assert_eq!(rt; source.read(&mut piece), Ok(2));
        assert_eq!(rt; piece, *b"dec");
        assert_eq!(rt; source.read(&mut piece), Ok(0));
        Ok(())
    }

    #[test]
    fn sure_sink_fails_without_room(rt: HostRuntime) -> Result<(), Fail> {
        let mut sink = SureSink::new(rt.alloc(), 4)?;
        assert_eq!(rt; sink.write(b"abc"), Ok(3));
        assert_eq!(rt; sink.write(b"def"), Ok(1));
        assert_eq!(rt; sink.write(b"ef"), Err(Failed));
        assert_eq!(rt; sink.write(b""), Ok(0));
        assert_eq!(rt; sink.held(), b"abcd".as_slice());
        Ok(())
    }
}
