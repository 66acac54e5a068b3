//! Sources and sinks in memory that fail at given calls.
ghost use Rattle.std.specs.Prelude.{◌≡◌, ◌-◌, ◌≤◌, ◌⊎◌, ◌↔◌, min, [], ◌++◌, length, take, drop, Some, Err, IfOk, OnErr, IsErr, IsTrue};
ghost use Rattle.ir_core.specs.Streams.{Counts, Reads, Writes, rises, FailsAt, IsFullFor, MemorySourceState, MemorySinkState};

use crate::{Failed, R, Sink, Source, TermError};
use std::alloc::Global;
use std::marker::Model;

/// The calls on a stream: which of them fail, how many there were, and how many failed.
#[derive(Drop)]
struct Calls {
    fails: Vec<u64>,
    count: u64,
    faults: u64,
}

impl Calls {
    /// The count before the first call. It is refused only for want of memory.
    fn new(alloc: Global, fails: &[u64]) -> R<Calls>
        ensures ok { IfOk result (λ c. (c.fails.items ≡ fails.now) × (c.count ≡ 0) × (c.faults ≡ 0)) }
        ensures err { OnErr result (result ≡ Err TermError.Memory) }
    {
        let fails = Vec::from_slice(alloc, fails)?;
        Ok(Calls {
            fails,
            count: 0,
            faults: 0,
        })
    }

    /// Counts a call, and says whether it is to fail.
    fn next_fails(&mut self) -> bool
        ensures counted { self.new ≡ record self.old { count = rises self.old.count } }
        ensures fails { IsTrue result ↔ FailsAt self.old.fails.items self.new.count }
    {
        self.count = self.count.saturating_add(1);
        self.fails.contains(&self.count)
    }

    /// Counts a failure.
    fn fail(&mut self) -> Failed
        ensures { self.new ≡ record self.old { faults = rises self.old.faults } }
    {
        self.faults = self.faults.saturating_add(1);
        Failed
    }
}

/// A source in memory, which gives its bytes in pieces and fails at given calls.
#[derive(Drop)]
pub struct MemorySource {
    bytes: Vec<u8>,
    at: usize,
    piece: usize,
    calls: Calls,
}

impl Model for MemorySource {
    ghost use Rattle.std.specs.Prelude.{◌≤◌, drop, vec_len};
    ghost use Rattle.ir_core.specs.Streams.{MemorySourceState};

    ghost Value = { MemorySourceState };

    ghost view = { λ s. record { left = drop s.at s.bytes.items; piece = s.piece; fails = s.calls.fails.items; calls = s.calls.count; faults = s.calls.faults } };

    ghost invariant = { λ s. (s.at ≤ vec_len s.bytes) × (1 ≤ s.piece) };
}

impl MemorySource {
    /// A source with a copy of the bytes. A call gives at most `piece` of them, and the calls with the numbers `fails` fail, where the first call has the number 1. It is refused only for want of memory.
    pub fn new(alloc: Global, bytes: &[u8], piece: usize, fails: &[u64]) -> R<MemorySource>
        requires { 1 ≤ piece }
        ensures ok { IfOk result (λ s. s ≡ record { left = bytes.now; piece = piece; fails = fails.now; calls = 0; faults = 0 }) }
        ensures err { OnErr result (result ≡ Err TermError.Memory) }
    {
        let bytes = Vec::from_slice(alloc, bytes)?;
        let calls = Calls::new(alloc, fails)?;
        Ok(MemorySource {
            bytes,
            at: 0,
            piece,
            calls,
        })
    }
}

impl Source for MemorySource {
    ghost left = { λ s. Some s.left };

    ghost faults = { λ s. s.faults };

    ghost empty_reads = { λ _. 0 };

    fn read(&mut self, into: &mut [u8]) -> Result<usize, Failed>
        ensures counts { Counts self.old.faults self.new.faults }
        ensures reads { IfOk result (Reads (Some self.old.left) (Some self.new.left) into.new) }
        ensures calls { self.new.calls ≡ rises self.old.calls }
        ensures fails { IsErr result ↔ FailsAt self.old.fails self.new.calls }
        ensures ok { IfOk result (λ n. n ≡ min self.old.piece (min (length into.old) (length self.old.left))) }
        ensures given { IfOk result (λ n. take n into.new ≡ take n self.old.left) }
        ensures left { IfOk result (λ n. self.new ≡ record self.old { left = drop n self.old.left; calls = self.new.calls }) }
        ensures failed { OnErr result (self.new ≡ record self.old { calls = self.new.calls; faults = rises self.old.faults }) }
    {
        if self.calls.next_fails() {
            return Err(self.calls.fail());
        }
        let taken = self.piece.min(into.len().min(self.bytes.len() - self.at));
        let end = self.at + taken;
        into[..taken].copy_from_slice(&self.bytes[self.at..end]);
        self.at = end;
        Ok(taken)
    }
}

/// A sink in memory, which takes bytes in pieces and fails at given calls, and where it has no room.
#[derive(Drop)]
pub struct MemorySink {
    bytes: Vec<u8>,
    room: usize,
    piece: usize,
    calls: Calls,
}

impl Model for MemorySink {
    ghost use Rattle.std.specs.Prelude.{◌≤◌, ◌+◌, vec_len, vec_capacity};
    ghost use Rattle.ir_core.specs.Streams.{MemorySinkState};

    ghost Value = { MemorySinkState };

    ghost view = { λ s. record { held = s.bytes.items; room = s.room; piece = s.piece; fails = s.calls.fails.items; calls = s.calls.count; faults = s.calls.faults } };

    ghost invariant = { λ s. (vec_len s.bytes + s.room ≤ vec_capacity s.bytes) × (1 ≤ s.piece) };
}

impl MemorySink {
    /// A sink with room for so many bytes, for which it takes the memory now. A call takes at most `piece` bytes, and the calls with the numbers `fails` fail, where the first call has the number 1. It is refused only for want of memory.
    pub fn new(alloc: Global, room: usize, piece: usize, fails: &[u64]) -> R<MemorySink>
        requires { 1 ≤ piece }
        ensures ok { IfOk result (λ s. s ≡ record { held = []; room = room; piece = piece; fails = fails.now; calls = 0; faults = 0 }) }
        ensures err { OnErr result (result ≡ Err TermError.Memory) }
    {
        let bytes = Vec::with_capacity(alloc, room)?;
        let calls = Calls::new(alloc, fails)?;
        Ok(MemorySink {
            bytes,
            room,
            piece,
            calls,
        })
    }

    /// The bytes that it holds.
    pub fn held(&self) -> &[u8]
        ensures { result.now ≡ self.now.held }
    {
        self.bytes.as_slice()
    }
}

impl Sink for MemorySink {
    ghost held = { λ s. Some s.held };

    ghost faults = { λ s. s.faults };

    ghost empty_writes = { λ _. 0 };

    fn write(&mut self, bytes: &[u8]) -> Result<usize, Failed>
        ensures counts { Counts self.old.faults self.new.faults }
        ensures writes { IfOk result (Writes (Some self.old.held) (Some self.new.held) bytes.now) }
        ensures calls { self.new.calls ≡ rises self.old.calls }
        ensures fails { IsErr result ↔ (FailsAt self.old.fails self.new.calls ⊎ IsFullFor self.old bytes.now) }
        ensures ok { IfOk result (λ n. n ≡ min self.old.piece (min (length bytes.now) self.old.room)) }
        ensures taken { IfOk result (λ n. self.new ≡ record self.old { held = self.old.held ++ take n bytes.now; room = self.old.room - n; calls = self.new.calls }) }
        ensures failed { OnErr result (self.new ≡ record self.old { calls = self.new.calls; faults = rises self.old.faults }) }
    {
        if self.calls.next_fails() || self.room == 0 && !bytes.is_empty() {
            return Err(self.calls.fail());
        }
        let taken = self.piece.min(bytes.len().min(self.room));
        let Ok(()) = self.bytes.extend_from_slice(&bytes[..taken]) else {
            unreachable!()
        };
        self.room -= taken;
        Ok(taken)
    }
}

#[cfg(test)]
mod tests {
    use super::*;
    use crate::Text;
    use std::test::Fail;

    type Answer = Result<usize, Failed>;

    #[test]
    fn sources_give_pieces_and_go_on_after_a_failure(rt: HostRuntime) -> Result<(), Fail> {
        let rows: [(&[u8], usize, &[u64], &[Answer], &[u8]); 5] = [
            (b"abcde", 1, &[], &[Ok(1), Ok(1)], b"ab"),
            (b"abcde", 2, &[], &[Ok(2), Ok(2)], b"abcd"),
            (b"abcde", 7, &[], &[Ok(5), Ok(0)], b"abcde"),
            (b"abcde", usize::MAX, &[1], &[Err(Failed), Ok(5)], b"abcde"),
            (b"abc", 2, &[2], &[Ok(2), Err(Failed), Ok(1), Ok(0)], b"abc"),
        ];
        for (bytes, piece, fails, answers, given) in rows {
            let mut source = MemorySource::new(rt.alloc(), bytes, piece.max(1), fails)?;
            let mut all = Text::new(rt.alloc());
            for want in answers {
                let mut into = [0; 6];
                let answer = source.read(&mut into);
                assert_eq!(rt; answer, *want);
                all.append(&into[..answer.unwrap_or(0)])?;
            }
            assert_eq!(rt; all.as_bytes(), given);
        }
        Ok(())
    }

    #[test]
    fn sinks_take_pieces_and_go_on_after_a_failure(rt: HostRuntime) -> Result<(), Fail> {
        let rows: [(usize, &[u64], &[(&[u8], Answer)], &[u8]); 6] = [
            (1, &[], &[(b"abc", Ok(1)), (b"def", Ok(1))], b"ad"),
            (2, &[], &[(b"abc", Ok(2)), (b"def", Ok(2))], b"abde"),
            (7, &[], &[(b"abc", Ok(3)), (b"def", Ok(1))], b"abcd"),
            (
                usize::MAX,
                &[1],
                &[(b"abc", Err(Failed)), (b"def", Ok(3))],
                b"def",
            ),
            (7, &[2], &[(b"ab", Ok(2)), (b"cd", Err(Failed))], b"ab"),
            (
                7,
                &[2],
                &[
                    (b"ab", Ok(2)),
                    (b"cd", Err(Failed)),
                    (b"cde", Ok(2)),
                    (b"e", Err(Failed)),
                    (b"", Ok(0)),
                ],
                b"abcd",
            ),
        ];
        for (piece, fails, calls, held) in rows {
            let mut sink = MemorySink::new(rt.alloc(), 4, piece.max(1), fails)?;
            for (bytes, want) in calls {
                assert_eq!(rt; sink.write(bytes), *want);
            }
            assert_eq!(rt; sink.held(), held);
        }
        Ok(())
    }
}
