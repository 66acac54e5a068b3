//! The words of the command line.
ghost use Rattle.std.specs.Prelude.{◌≡◌, Err, OnErr};

use ir_core::{R, TermError, Text};
use std::alloc::Global;
use std::env::{Env, FillError};

// Room for a word: a longer one is read again with more. No system passes one that is longer than the last.
const ROOMS: [usize; 4] = [256, 65_536, 16_777_216, 4_294_967_296];

/// The words after the program's name, as they are. One that is no text is `?`. They are refused only for want of memory. Nothing says what words there are, since the environment tells none.
pub fn words<E: Env>(alloc: Global, env: &E) -> R<Vec<Text>>
    ensures { OnErr result (result ≡ Err TermError.Memory) }
{
    let mut words = Vec::new(alloc);
    for place in 1..usize::MAX {
        let Some(word) = word_at(alloc, env, place)? else {
            break;
        };
        words.push(word)?;
    }
    Ok(words)
}

// The word at the place, where there is one.
fn word_at<E: Env>(alloc: Global, env: &E, place: usize) -> R<Option<Text>>
    ensures { OnErr result (result ≡ Err TermError.Memory) }
{
    for room in ROOMS {
        let mut buffer = vec![in alloc; 0; room]?;
        match env.arg(place, buffer.as_mut_slice()) {
            Ok(len) => {
                let word = &buffer[..len];
                let text = if str::from_utf8(word).is_ok() {
                    word
                } else {
                    b"?"
                };
                return Ok(Some(Text::from_bytes(alloc, text)?));
            }
            Err(FillError::NotPresent) => return Ok(None),
            Err(FillError::TooLong) => (),
        }
    }
    Err(TermError::Memory)
}

#[cfg(test)]
mod tests {
    use super::*;
    use std::test::Fail;

    // A command line of these words, the first of which is the program's name.
    #[derive(Drop)]
    struct CommandLine<'a>(&'a [&'a [u8]]);

    impl Env for CommandLine<'_> {
        fn arg(&self, i: usize, buf: &mut [u8]) -> Result<usize, FillError> {
            if i >= self.0.len() {
                return Err(FillError::NotPresent);
            }
            let word = self.0[i];
            if word.len() > buf.len() {
                return Err(FillError::TooLong);
            }
            buf[..word.len()].copy_from_slice(word);
            Ok(word.len())
        }

        fn var(&self, _name: &str, _buf: &mut [u8]) -> Result<usize, FillError> {
            Err(FillError::NotPresent)
        }

        fn var_at(&self, _i: usize, _buf: &mut [u8]) -> Result<usize, FillError> {
            Err(FillError::NotPresent)
        }
    }

    #[test]
    fn words_are_handed_in_as_they_are(rt: HostRuntime) -> Result<(), Fail> {
        let alloc = rt.alloc();
        let long = vec![in alloc; b'x'; 1_000]?;
        let line = CommandLine(&[
            b"program",
            b"make",
            b"",
            long.as_slice(),
            b"\xff",
            b"\xc3\xa9",
        ]);
        let wanted: [&[u8]; 5] = [b"make", b"", long.as_slice(), b"?", b"\xc3\xa9"];
        let words = words(alloc, &line)?;
        assert_eq!(rt; words.len(), wanted.len());
        for (word, want) in words.as_slice().iter().zip(wanted.iter()) {
            assert_eq!(rt; word.as_bytes(), *want);
        }
        Ok(())
    }
}
