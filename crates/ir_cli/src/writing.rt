//! Writing bytes to a sink.
ghost use Rattle.std.specs.Prelude.{◌≡◌, ◌≤◌, OnOk, OnErr};
ghost use Rattle.std.specs.Io.KnownBytes.{append_known};
ghost use Rattle.ir_core.specs.Streams.{Rose, HoldsFront};

use ir_core::{Failed, Sink};

/// Writes all of the bytes, and never an empty piece. A sink that fails may have taken a front of them.
pub fn write_all<K: Sink>(sink: &mut K, bytes: &[u8]) -> Result<(), Failed>
    ensures counts { K.faults sink.old ≤ K.faults sink.new }
    ensures ok { OnOk result (K.held sink.new ≡ append_known (K.held sink.old) bytes.now) }
    ensures failed { OnErr result (Rose (K.faults sink.old) (K.faults sink.new)) }
    ensures front { OnErr result (HoldsFront (K.held sink.old) (K.held sink.new) bytes.now) }
    ensures whole { K.empty_writes sink.new ≡ K.empty_writes sink.old }
{
    let mut done = 0;
    while done < bytes.len() {
        done += sink.write(&bytes[done..])?;
    }
    Ok(())
}

#[cfg(test)]
mod tests {
    use super::*;
    use ir_core::SureSink;
    use std::test::Fail;

    #[test]
    fn writes_all_where_there_is_room(rt: HostRuntime) -> Result<(), Fail> {
        let mut sink = SureSink::new(rt.alloc(), 8)?;
        write_all(&mut sink, b"one, ")?;
        write_all(&mut sink, b"two")?;
        assert_eq!(rt; sink.held(), b"one, two".as_slice());
        Ok(())
    }

    #[test]
    fn writes_a_front_where_there_is_too_little_room(rt: HostRuntime) -> Result<(), Fail> {
        let mut sink = SureSink::new(rt.alloc(), 3)?;
        assert_eq!(rt; write_all(&mut sink, b"one, two"), Err(Failed));
        assert_eq!(rt; sink.held(), b"one".as_slice());
        Ok(())
    }
}
