//! What is kept beside a node.
ghost use Rattle.ir_table.specs.Info.{size_in};
ghost use Rattle.std.specs.Prelude.{◌≡◌};

use ir_core::{DebruijnIndex, TypeFlags};

/// The size of a tree. It is kept in two halves, so that four bytes align what stands beside a node, and no entry of a table has bytes of padding.
#[derive(Clone, Copy, PartialEq, Eq, Debug)]
pub struct CachedSize {
    high: u32,
    low: u32,
}

impl CachedSize {
    /// The size as it is kept.
    pub(crate) fn new(size: u64) -> CachedSize
        ensures { size_in result ≡ size }
    {
        CachedSize {
            high: (size >> 32) as u32,
            low: (size & 0xffff_ffff) as u32,
        }
    }

    /// The size as a number.
    pub fn get(self) -> u64
        ensures { result ≡ size_in self }
    {
        (self.high as u64) * (1 << 32) + self.low as u64
    }
}

/// The cached info of a node: what the tables keep beside it.
#[derive(Clone, Copy, PartialEq, Eq, Debug)]
pub struct CachedInfo {
    /// A leaf has height 1, another node one more than its highest kid.
    pub height: u32,
    /// The size of the tree, which ends at 2^48 + 1.
    pub size: CachedSize,
    /// What the tree holds.
    pub flags: TypeFlags,
    /// How many binders outside of it the tree speaks of.
    pub outer_exclusive_binder: DebruijnIndex,
}
