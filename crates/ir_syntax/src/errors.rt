//! Why a line is not read.
ghost use Rattle.ir_syntax.specs.declared.errors.ReadError.TheVariants.{Memory as NoMemory};
ghost use Rattle.std.specs.Prelude.{◌≡◌};

use std::alloc::AllocError;

/// Why a line is not read.
#[derive(Clone, Copy, PartialEq, Eq, Debug)]
pub enum ReadError {
    /// The line has no form of the grammar, or its brackets don't match.
    Syntax,
    /// There is no memory.
    Memory,
}

impl From<AllocError> for ReadError {
    ghost from_gives = { λ _ e. e ≡ NoMemory };

    fn from(_error: AllocError) -> ReadError {
        ReadError::Memory
    }
}
