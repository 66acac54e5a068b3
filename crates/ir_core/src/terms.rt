//! Terms of any sort.
use crate::{Const, Region, Ty};

/// A term that stands by itself, of any sort that has handles of its own.
#[derive(Clone, Copy, PartialEq, Eq, Hash, Debug)]
pub enum AnyTerm {
    Ty(Ty),
    Region(Region),
    Const(Const),
}
