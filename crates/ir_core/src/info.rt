//! What is kept of a term beside its kind.
use crate::{DebruijnIndex, TypeFlags};

/// A kind with what is kept beside it.
#[derive(Clone, Copy, PartialEq, Eq, Debug)]
pub struct WithCachedTypeInfo<K> {
    pub internee: K,
    /// What the term holds.
    pub flags: TypeFlags,
    /// How many binders outside of it the term speaks of: each of its variables that is bound outside is bound by one of these.
    pub outer_exclusive_binder: DebruijnIndex,
}
