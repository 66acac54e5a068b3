//! Why a script is not answered.
ghost use Rattle.std.specs.Prelude.{◌≡◌};
ghost use Rattle.ir_script.specs.Causes.{cause_of, name_seen, read_cause};

use ir_core::TermError;
use ir_syntax::ReadError;

/// The cause for which a line is refused.
#[derive(Clone, Copy, PartialEq, Eq, Debug)]
pub enum Cause {
    /// The line has no form of the grammar.
    Syntax,
    /// A name that no earlier line declares.
    Unknown,
    /// A name that is declared already, or a variable that is replaced twice.
    Duplicate,
    /// A term or an item of another sort or kind than its place wants.
    Sort,
    /// An or-pattern without a member.
    EmptyOr,
    /// A list of another length than its place wants.
    Arity,
    /// An index, a number or a height passes its limit.
    TooDeep,
    /// More parts are to be held than may be.
    TooMany,
    /// A variable whose number or kind its binder does not list.
    Unlisted,
    /// A variable points beyond the binders that it may point to.
    Escapes,
    /// A variable that is used has no replacement.
    MissingVar,
    /// The terms to be spelled are too large together.
    TooLarge,
    /// There is no memory.
    Memory,
}

/// A line that is refused, and why.
#[derive(Clone, Copy, PartialEq, Eq, Debug)]
pub struct ScriptError {
    /// The line's number, from 1 on; 0 is the start, before all lines.
    pub line: u64,
    pub cause: Cause,
}

impl Cause {
    /// The name that a fault's line has.
    pub fn name(self) -> &'static [u8]
        ensures { result.now ≡ name_seen self }
    {
        match self {
            Cause::Syntax => b"Syntax",
            Cause::Unknown => b"Unknown",
            Cause::Duplicate => b"Duplicate",
            Cause::Sort => b"Sort",
            Cause::EmptyOr => b"EmptyOr",
            Cause::Arity => b"Arity",
            Cause::TooDeep => b"TooDeep",
            Cause::TooMany => b"TooMany",
            Cause::Unlisted => b"Unlisted",
            Cause::Escapes => b"Escapes",
            Cause::MissingVar => b"MissingVar",
            Cause::TooLarge => b"TooLarge",
            Cause::Memory => b"Memory",
        }
    }
}

impl From<TermError> for Cause {
    ghost from_gives = { λ error cause. cause ≡ cause_of error };

    fn from(error: TermError) -> Cause {
        match error {
            TermError::TooDeep => Cause::TooDeep,
            TermError::TooMany => Cause::TooMany,
            TermError::Escapes => Cause::Escapes,
            TermError::MissingVar => Cause::MissingVar,
            TermError::Memory => Cause::Memory,
        }
    }
}

impl From<ReadError> for Cause {
    ghost from_gives = { λ error cause. cause ≡ read_cause error };

    fn from(error: ReadError) -> Cause {
        match error {
            ReadError::Syntax => Cause::Syntax,
            ReadError::Memory => Cause::Memory,
        }
    }
}

#[cfg(test)]
mod tests {
    use super::*;

    #[test]
    fn names_are_those_of_faults(rt: HostRuntime) {
        assert_eq!(rt; Cause::Sort.name(), b"Sort".as_slice());
        let cause = Cause::from(TermError::Memory);
        assert_eq!(rt; cause.name(), b"Memory".as_slice());
        let error = ScriptError { line: 1, cause };
        assert_eq!(rt; error.cause, Cause::Memory);
    }
}
