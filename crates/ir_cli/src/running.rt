//! The program, over any source and sink.
ghost use Rattle.ir_cli.specs.Reading.{GivesAtMost, IsLonger, IsWithin};
ghost use Rattle.ir_cli.specs.Run.{HasValid, HoldsTerms, IsAnswered, IsCutShort, IsRefused, fault_text};
ghost use Rattle.ir_core.specs.Streams.{HoldsFront, Rose};
ghost use Rattle.ir_script.specs.Answered.{AllowsFault};
ghost use Rattle.std.specs.Io.KnownBytes.{append_known};
ghost use Rattle.std.specs.Prelude.{◌≡◌, ◌≢◌, ◌↔◌, ◌+◌, ◌<◌, ◌≤◌, ◌⊎◌, Err, IfOk, IfSome, IsSome, OnErr, length};

use crate::reading::{ReadEnd, read_all};
use crate::writing::write_all;
use ir_core::{Limits, R, Sink, Source, TermError, Text};
use ir_script::{Cause, ScriptError, answer};
use ir_table::Interner;
use std::alloc::Global;

#[cfg(test)]
mod tests;

/// The limits of the program.
pub const LIMITS: Limits = Limits {
    index: 65_535,
    number: 65_535,
    height: 512,
    nodes: 1_000_000,
    size: 1_000_000,
};

/// How a run ended. The program ends with its place in this list, from 0 on, as exit code.
#[derive(Clone, Copy, PartialEq, Eq, Debug)]
pub enum Status {
    /// The answer was written.
    Done,
    /// A line is refused, and that was written.
    Refused,
    /// There are words, and the program takes none.
    Words,
    /// The source failed.
    ReadFault,
    /// The sink failed.
    WriteFault,
    /// There was no memory.
    Memory,
    /// The script has more than 16,777,216 bytes.
    TooLong,
}

/// What a run leaves: its status, and where the answer was written the interner in which the script's terms stand.
#[derive(Drop)]
pub struct Ended {
    pub status: Status,
    pub cx: Option<Interner>,
}

// A run that ends without an answer.
fn without_answer(status: Status) -> Ended
    ensures status { result.status ≡ status }
    ensures none { result.cx ≡ None }
{
    Ended { status, cx: None }
}

// The line of the fault.
fn fault_line(alloc: Global, error: ScriptError) -> R<Text>
    ensures ok { IfOk result (λ text. text ≡ fault_text error) }
    ensures err { OnErr result (result ≡ Err TermError.Memory) }
{
    let mut text = Text::from_bytes(alloc, b"error line ")?;
    text.append(error.line.to_string(alloc)?.as_bytes())?;
    text.append(b" ")?;
    text.append(error.cause.name())?;
    text.append(b"\n")?;
    Ok(text)
}

// Writes the line of the fault.
fn refuse<K: Sink>(alloc: Global, sink: &mut K, error: ScriptError) -> Status
    ensures statuses { (result ≡ Status.Refused) ⊎ ((result ≡ Status.WriteFault) ⊎ (result ≡ Status.Memory)) }
    ensures refused { result ≡ Status.Refused → (error.cause ≢ Cause.Memory) × (K.held sink.new ≡ append_known (K.held sink.old) (fault_text error)) }
    ensures fault { result ≡ Status.WriteFault → Rose (K.faults sink.old) (K.faults sink.new) }
    ensures front { result ≡ Status.WriteFault → (error.cause ≢ Cause.Memory) × HoldsFront (K.held sink.old) (K.held sink.new) (fault_text error) }
    ensures kept { result ≡ Status.Memory → K.held sink.new ≡ K.held sink.old }
    ensures whole { K.empty_writes sink.new ≡ K.empty_writes sink.old }
{
    if error.cause == Cause::Memory {
        return Status::Memory;
    }
    let Ok(line) = fault_line(alloc, error) else {
        return Status::Memory;
    };
    match write_all(sink, line.as_bytes()) {
        Ok(()) => Status::Refused,
        Err(_) => Status::WriteFault,
    }
}

/// Reads a script from the source, and writes what it answers to the sink: all that its commands write, or the line of its first fault. There may be no words.
pub fn run<S: Source, K: Sink>(alloc: Global, words: &[Text], source: &mut S, sink: &mut K) -> Ended
    // Done: the whole script was read, and its answer written. Refused: the same with its first fault.
    ensures done { result.status ≡ Status.Done → IsAnswered (S.left source.old) (S.left source.new) (K.held sink.old) (K.held sink.new) }
    ensures refused { result.status ≡ Status.Refused → IsRefused (S.left source.old) (S.left source.new) (K.held sink.old) (K.held sink.new) }

    // Words: exactly where there are some, and then nothing is read or written.
    ensures words { (result.status ≡ Status.Words) ↔ (0 < length words.now) }
    ensures untouched { result.status ≡ Status.Words → (source.new ≡ source.old) × (sink.new ≡ sink.old) }

    // The other ends, each by its cause. A write fault may leave a front of what was to be written. However a run ends, at most 16,777,217 bytes were taken, and no empty piece was written.
    ensures read_fault { result.status ≡ Status.ReadFault → Rose (S.faults source.old) (S.faults source.new) }
    ensures write_fault { result.status ≡ Status.WriteFault → Rose (K.faults sink.old) (K.faults sink.new) }
    ensures cut_short { result.status ≡ Status.WriteFault → IsCutShort (S.left source.old) (S.left source.new) (K.held sink.old) (K.held sink.new) }
    ensures too_long { result.status ≡ Status.TooLong → IsLonger (S.left source.old) 16777216 }
    ensures given { GivesAtMost 16777217 (S.left source.old) (S.left source.new) }
    ensures turns { S.empty_reads source.new ≤ S.empty_reads source.old + 1 }
    ensures full { result.status ≡ Status.TooLong → S.empty_reads source.new ≡ S.empty_reads source.old }
    ensures within { (result.status ≡ Status.Done) ⊎ ((result.status ≡ Status.Refused) ⊎ (result.status ≡ Status.WriteFault)) → IsWithin (S.left source.old) 16777216 }
    ensures whole { K.empty_writes sink.new ≡ K.empty_writes sink.old }
    ensures unwritten { (result.status ≡ Status.ReadFault) ⊎ ((result.status ≡ Status.Memory) ⊎ (result.status ≡ Status.TooLong)) → K.held sink.new ≡ K.held sink.old }

    // A valid script that is not too long is answered, or memory is wanted, where no call on source and sink fails.
    ensures complete { length words.now ≡ 0 → HasValid 16777216 (S.left source.old) → (Rose (S.faults source.old) (S.faults source.new) → ⊥) → (Rose (K.faults sink.old) (K.faults sink.new) → ⊥) → (result.status ≡ Status.Done) ⊎ (result.status ≡ Status.Memory) }

    // The interner is handed out exactly where the answer was written.
    ensures interner { IsSome result.cx ↔ (result.status ≡ Status.Done) }
    ensures terms { IfSome result.cx (HoldsTerms (S.left source.old)) }
{
    if !words.is_empty() {
        return without_answer(Status::Words);
    }
    let script = match read_all(alloc, source) {
        Ok(script) => script,
        Err(ReadEnd::Fault) => return without_answer(Status::ReadFault),
        Err(ReadEnd::Memory) => return without_answer(Status::Memory),
        Err(ReadEnd::TooLong) => return without_answer(Status::TooLong),
    };
    match answer(alloc, script.as_slice(), &LIMITS) {
        Ok(answered) => match write_all(sink, answered.text.as_bytes()) {
            Ok(()) => Ended {
                status: Status::Done,
                cx: Some(answered.cx),
            },
            Err(_) => without_answer(Status::WriteFault),
        },
        Err(error) => without_answer(refuse(alloc, sink, error)),
    }
}
