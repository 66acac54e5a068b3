//! Why a call on terms is refused.
ghost use Rattle.ir_core.specs.declared.errors.TermError.TheVariants.{Memory};
ghost use Rattle.std.specs.Prelude.{◌≡◌};

use std::alloc::{AllocError, AllocFailed};
use thiserror::Error;

/// Why a term is not made.
#[derive(Clone, Copy, PartialEq, Eq, Debug, Error)]
pub enum TermError {
    /// An index, a number or a height passes its limit.
    #[error("a term is too deep")]
    TooDeep,
    /// The tables hold as many parts as they may.
    #[error("there are too many parts")]
    TooMany,
    /// A variable is bound outside of what is opened.
    #[error("a variable escapes its binder")]
    Escapes,
    /// A variable has no replacement.
    #[error("a variable has no replacement")]
    MissingVar,
    /// There is no memory.
    #[error("out of memory")]
    Memory,
}

/// The answer of a call that may be refused.
pub type R<T> = Result<T, TermError>;

impl From<AllocError> for TermError {
    ghost from_gives = { λ _ e. e ≡ Memory };

    fn from(_error: AllocError) -> TermError {
        TermError::Memory
    }
}

impl<T: Drop> From<AllocFailed<T>> for TermError {
    ghost from_gives = { λ _ e. e ≡ Memory };

    fn from(_error: AllocFailed<T>) -> TermError {
        TermError::Memory
    }
}
