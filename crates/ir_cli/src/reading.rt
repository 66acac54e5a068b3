//! Reading a source to its end.
ghost use Rattle.std.specs.Prelude.{◌≡◌, ◌+◌, ◌<◌, ◌≤◌, ◌++◌, length, take, Err, IfOk, OnOk, vec_len};
ghost use Rattle.ir_core.specs.Streams.{Counts, Rose, Reads};
ghost use Rattle.ir_cli.specs.Reading.{GivesAtMost, ReadsAll, IsLonger, IsWithin};
ghost use Rattle.ir_cli.specs.declared.reading.ReadEnd.TheVariants.{Fault, Memory};

use ir_core::{Failed, Source};
use std::alloc::{AllocError, Global};

/// How many bytes are read at most.
const MOST_BYTES: usize = 16_777_216;

/// How many bytes are asked for at once.
const PIECE_LEN: usize = 65_536;

/// Why a source was not read to its end.
#[derive(Clone, Copy, PartialEq, Eq, Debug)]
pub enum ReadEnd {
    /// The source failed.
    Fault,
    /// There is no memory.
    Memory,
    /// There are more bytes than are read.
    TooLong,
}

impl From<Failed> for ReadEnd {
    ghost from_gives = { λ _ e. e ≡ Fault };

    fn from(_failed: Failed) -> ReadEnd {
        ReadEnd::Fault
    }
}

impl From<AllocError> for ReadEnd {
    ghost from_gives = { λ _ e. e ≡ Memory };

    fn from(_error: AllocError) -> ReadEnd {
        ReadEnd::Memory
    }
}

/// Reads the source to its end, a piece at a time. However it ends, it takes no more than 16,777,217 bytes from it, the last of which says that there are too many.
pub fn read_all<S: Source>(alloc: Global, source: &mut S) -> Result<Vec<u8>, ReadEnd>
    ensures counts { S.faults source.old ≤ S.faults source.new }
    ensures ok { IfOk result (λ v. ReadsAll (S.left source.old) (S.left source.new) v.items) }
    ensures within { OnOk result (IsWithin (S.left source.old) 16777216) }
    ensures len { IfOk result (λ v. vec_len v ≤ 16777216) }
    ensures fault { result ≡ Err ReadEnd.Fault → Rose (S.faults source.old) (S.faults source.new) }
    ensures too_long { result ≡ Err ReadEnd.TooLong → IsLonger (S.left source.old) 16777216 }
    ensures given { GivesAtMost 16777217 (S.left source.old) (S.left source.new) }
    ensures turns { S.empty_reads source.new ≤ S.empty_reads source.old + 1 }
    ensures full { result ≡ Err ReadEnd.TooLong → S.empty_reads source.new ≡ S.empty_reads source.old }
{
    let mut piece = zeros(alloc, PIECE_LEN)?;
    read_pieces(alloc, source, piece.as_mut_slice())
}

// So many zeros.
fn zeros(alloc: Global, len: usize) -> Result<Vec<u8>, AllocError>
    ensures { IfOk result (λ v. vec_len v ≡ len) }
{
    vec![in alloc; 0; len]
}

// Reads the source to its end into the piece, time and again.
fn read_pieces<S: Source>(
    alloc: Global,
    source: &mut S,
    piece: &mut [u8],
) -> Result<Vec<u8>, ReadEnd>
    requires { 0 < length piece.old }
    ensures counts { S.faults source.old ≤ S.faults source.new }
    ensures ok { IfOk result (λ v. ReadsAll (S.left source.old) (S.left source.new) v.items) }
    ensures within { OnOk result (IsWithin (S.left source.old) 16777216) }
    ensures len { IfOk result (λ v. vec_len v ≤ 16777216) }
    ensures fault { result ≡ Err ReadEnd.Fault → Rose (S.faults source.old) (S.faults source.new) }
    ensures too_long { result ≡ Err ReadEnd.TooLong → IsLonger (S.left source.old) 16777216 }
    ensures given { GivesAtMost 16777217 (S.left source.old) (S.left source.new) }
    ensures turns { S.empty_reads source.new ≤ S.empty_reads source.old + 1 }
    ensures full { result ≡ Err ReadEnd.TooLong → S.empty_reads source.new ≡ S.empty_reads source.old }
{
    let mut bytes = Vec::new(alloc);
    while bytes.len() <= MOST_BYTES {
        let room = piece.len().min(MOST_BYTES + 1 - bytes.len());
        if append_piece(source, &mut piece[..room], &mut bytes)? == 0 {
            return Ok(bytes);
        }
    }
    Err(ReadEnd::TooLong)
}

// Reads into the piece once, and puts the bytes that came behind those that are there.
fn append_piece<S: Source>(
    source: &mut S,
    piece: &mut [u8],
    bytes: &mut Vec<u8>,
) -> Result<usize, ReadEnd>
    ensures counts { Counts (S.faults source.old) (S.faults source.new) }
    ensures reads { IfOk result (Reads (S.left source.old) (S.left source.new) piece.new) }
    ensures items { IfOk result (λ n. bytes.new.items ≡ bytes.old.items ++ take n piece.new) }
    ensures len { IfOk result (λ n. vec_len bytes.new ≡ vec_len bytes.old + n) }
    ensures fault { result ≡ Err ReadEnd.Fault → Rose (S.faults source.old) (S.faults source.new) }
    ensures given { GivesAtMost (length piece.old) (S.left source.old) (S.left source.new) }
    ensures gives { IfOk result (λ n. 0 < n → S.empty_reads source.new ≡ S.empty_reads source.old) }
    ensures once { S.empty_reads source.new ≤ S.empty_reads source.old + 1 }
    ensures not_long { result ≡ Err ReadEnd.TooLong → ⊥ }
{
    let taken = source.read(piece)?;
    bytes.extend_from_slice(&piece[..taken])?;
    Ok(taken)
}

#[cfg(test)]
mod tests {
    use super::*;
    use ir_core::SureSource;
    use std::test::Fail;

    #[test]
    fn reads_to_the_end(rt: HostRuntime) -> Result<(), Fail> {
        let mut source = SureSource::new(rt.alloc(), b"one, two")?;
        let bytes = read_all(rt.alloc(), &mut source)?;
        assert_eq!(rt; bytes.as_slice(), b"one, two".as_slice());
        let mut source = SureSource::new(rt.alloc(), b"one, two")?;
        let bytes = read_pieces(rt.alloc(), &mut source, &mut [0; 3])?;
        assert_eq!(rt; bytes.as_slice(), b"one, two".as_slice());
        Ok(())
    }

    // How many bytes are read from so many zeros, or why the reading ended.
    fn count_read(alloc: Global, len: usize) -> Result<Result<usize, ReadEnd>, Fail> {
        let bytes = zeros(alloc, len)?;
        let mut source = SureSource::new(alloc, bytes.as_slice())?;
        Ok(read_all(alloc, &mut source).map(|bytes| bytes.len()))
    }

    #[test]
    fn most_bytes_are_read_and_one_more_is_too_long(rt: HostRuntime) -> Result<(), Fail> {
        assert_eq!(rt; count_read(rt.alloc(), MOST_BYTES)?, Ok(MOST_BYTES));
        assert_eq!(rt;
            count_read(rt.alloc(), MOST_BYTES + 1)?,
            Err(ReadEnd::TooLong)
        );
        Ok(())
    }
}
