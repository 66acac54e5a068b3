//! Bytes that grow.
ghost use Rattle.std.specs.List.{slice_range};
ghost use Rattle.std.specs.Prelude.{◌≡◌, ◌≤◌, ◌++◌, [], length, take, Err, IfOk, OnOk, OnErr};

use crate::{R, TermError};
use std::alloc::Global;
use std::marker::Model;

/// A list of bytes, usually those of a text.
#[derive(Drop)]
pub struct Text {
    bytes: Vec<u8>,
}

impl Model for Text {
    ghost use Rattle.std.specs.Prelude.{ℕ, List};

    ghost Value = { List ℕ };

    ghost view = { λ t. t.bytes.items };
}

impl Text {
    /// A text with no bytes, which takes no memory.
    pub fn new(alloc: Global) -> Self
        ensures { result ≡ [] }
    {
        Text {
            bytes: Vec::new(alloc),
        }
    }

    /// A text with a copy of the bytes. It is refused only for want of memory.
    pub fn from_bytes(alloc: Global, bytes: &[u8]) -> R<Text>
        ensures ok { IfOk result (λ t. t ≡ bytes.now) }
        ensures err { OnErr result (result ≡ Err TermError.Memory) }
    {
        let bytes = Vec::from_slice(alloc, bytes)?;
        Ok(Text { bytes })
    }

    /// Its bytes.
    pub fn as_bytes(&self) -> &[u8]
        ensures { result.now ≡ self.now }
    {
        self.bytes.as_slice()
    }

    /// Puts the bytes behind its own. It is refused only for want of memory, and is then as it was.
    pub fn append(&mut self, bytes: &[u8]) -> R<()>
        ensures ok { OnOk result (self.new ≡ self.old ++ bytes.now) }
        ensures err { OnErr result ((self.new ≡ self.old) × (result ≡ Err TermError.Memory)) }
    {
        self.bytes.extend_from_slice(bytes)?;
        Ok(())
    }

    /// Puts the bytes between two places of its own behind it. It is refused only for want of memory, and is then as it was.
    pub fn append_within(&mut self, start: usize, end: usize) -> R<()>
        requires order { start ≤ end }
        requires within { end ≤ length self.old }
        ensures ok { OnOk result (self.new ≡ self.old ++ slice_range self.old start end) }
        ensures err { OnErr result ((self.new ≡ self.old) × (result ≡ Err TermError.Memory)) }
    {
        let len = self.bytes.len();
        self.bytes.resize(len + (end - start), 0)?;
        let (own, last) = self.bytes.split_at_mut(len);
        last.copy_from_slice(&own[start..end]);
        Ok(())
    }

    /// Keeps the first `len` bytes.
    pub fn truncate(&mut self, len: usize)
        requires { len ≤ length self.old }
        ensures { self.new ≡ take len self.old }
    {
        self.bytes.truncate(len);
    }
}

#[cfg(test)]
mod tests {
    use super::*;
    use std::test::Fail;

    #[test]
    fn texts_grow_by_bytes_of_their_own(rt: HostRuntime) -> Result<(), Fail> {
        let rows: [(usize, usize, &[u8]); 4] = [
            (0, 0, b"abcd"),
            (1, 3, b"abcdbc"),
            (0, 4, b"abcdabcd"),
            (4, 4, b"abcd"),
        ];
        for (start, end, want) in rows {
            let mut text = Text::from_bytes(rt.alloc(), b"abcd")?;
            text.append_within(start, end)?;
            assert_eq!(rt; text.as_bytes(), want);
        }
        Ok(())
    }
}
