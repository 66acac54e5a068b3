//! Runs over a source and a sink in memory.
ghost use Rattle.std.specs.Prelude.{◌≤◌};

use super::{Ended, Status, run};
use ir_core::{MemorySink, MemorySource, SureSink, SureSource, Text};
use std::alloc::Global;
use std::test::Fail;

// A run of the script without words, and the sink that it wrote to.
fn ran(alloc: Global, script: &[u8], room: usize) -> Result<(Ended, SureSink), Fail> {
    let mut source = SureSource::new(alloc, script)?;
    let mut sink = SureSink::new(alloc, room)?;
    let ended = run(alloc, &[], &mut source, &mut sink);
    Ok((ended, sink))
}

#[test]
fn scripts_are_answered_or_refused(rt: HostRuntime) -> Result<(), Fail> {
    let rows: [(&[u8], usize, Status, &[u8]); 5] = [
        (b"print u8\nprint static", 64, Status::Done, b"u8\nstatic\n"),
        (
            b"print u8\nprint X",
            64,
            Status::Refused,
            b"error line 2 Unknown\n",
        ),
        (b"print u8\nprint static", 4, Status::WriteFault, b"u8\ns"),
        (
            b"print \xc3\xa9",
            64,
            Status::Refused,
            b"error line 1 Syntax\n",
        ),
        (ONE_PRINT, 4, Status::WriteFault, b"(ref"),
    ];
    for (script, room, status, written) in rows {
        let (ended, sink) = ran(rt.alloc(), script, room)?;
        assert_eq!(rt; ended.status, status);
        assert_eq!(rt; sink.held(), written);
    }
    Ok(())
}

#[test]
fn words_are_refused_unread(rt: HostRuntime) -> Result<(), Fail> {
    let alloc = rt.alloc();
    let mut source = SureSource::new(alloc, b"print u8")?;
    let mut sink = SureSink::new(alloc, 64)?;
    let word = Text::from_bytes(alloc, b"--help")?;
    let ended = run(alloc, &[word], &mut source, &mut sink);
    assert_eq!(rt; ended.status, Status::Words);
    assert_eq!(rt; sink.held(), b"".as_slice());
    assert_eq!(rt; ended.status as u8, 2);
    Ok(())
}

const ONE_PRINT: &[u8] = b"print (ref not static u8)";

// How the one print ends over a source of so many bytes at a time that fails at a call, and how many bytes were written.
fn read_by(alloc: Global, piece: usize, call: u64) -> Result<(Status, usize), Fail>
    requires { 1 ≤ piece }
{
    let mut source = MemorySource::new(alloc, ONE_PRINT, piece, &[call])?;
    let mut sink = SureSink::new(alloc, 64)?;
    let ended = run(alloc, &[], &mut source, &mut sink);
    Ok((ended.status, sink.held().len()))
}

// The same over a sink of so many bytes at a time that fails at a call.
fn written_by(alloc: Global, piece: usize, call: u64) -> Result<(Status, usize), Fail>
    requires { 1 ≤ piece }
{
    let mut source = SureSource::new(alloc, ONE_PRINT)?;
    let mut sink = MemorySink::new(alloc, 20, piece, &[call])?;
    let ended = run(alloc, &[], &mut source, &mut sink);
    Ok((ended.status, sink.held().len()))
}

#[test]
fn each_failed_read_is_a_fault(rt: HostRuntime) -> Result<(), Fail> {
    for call in 1..27 {
        assert_eq!(rt; read_by(rt.alloc(), 1, call)?, (Status::ReadFault, 0));
    }
    assert_eq!(rt; read_by(rt.alloc(), 1, 27)?, (Status::Done, 20));
    assert_eq!(rt; read_by(rt.alloc(), 64, 2)?, (Status::ReadFault, 0));
    Ok(())
}

#[test]
fn each_failed_write_is_a_fault(rt: HostRuntime) -> Result<(), Fail> {
    for taken in 0..20 {
        assert_eq!(rt;
            written_by(rt.alloc(), 1, taken + 1)?,
            (Status::WriteFault, taken as usize)
        );
    }
    assert_eq!(rt; written_by(rt.alloc(), 1, 21)?, (Status::Done, 20));
    Ok(())
}

#[test]
fn pieces_of_any_length_are_read_and_written(rt: HostRuntime) -> Result<(), Fail> {
    for piece in [1, 2, 7, 1_000_000] {
        assert_eq!(rt; read_by(rt.alloc(), piece, 0)?, (Status::Done, 20));
        assert_eq!(rt; written_by(rt.alloc(), piece, 0)?, (Status::Done, 20));
    }
    Ok(())
}

// How a run over so many line ends ends.
fn blank(alloc: Global, len: usize) -> Result<Status, Fail> {
    let script = vec![in alloc; b'\n'; len]?;
    let (ended, _) = ran(alloc, script.as_slice(), 64)?;
    Ok(ended.status)
}

#[test]
fn one_byte_more_is_too_long(rt: HostRuntime) -> Result<(), Fail> {
    assert_eq!(rt; blank(rt.alloc(), 16_777_217)?, Status::TooLong);
    Ok(())
}
