//! Which parts are live: whether an interner has a node for them.
ghost use Rattle.ir_laws.specs.Heap.{IsLive};
ghost use Rattle.ir_table.specs.Interner.{heap};
ghost use Rattle.std.specs.Prelude.{◌↔◌, IsTrue};

use crate::Interner;
use ir_core::{Handle, Part};

impl Interner {
    /// Whether the part, of any sort, is one of this interner's.
    pub fn holds(&self, part: Part) -> bool
        ensures { IsTrue result ↔ IsLive (heap self.now) part }
    {
        self.store.holds(part)
    }
}

/// A handle whose liveness can be tested.
pub trait Live: Handle {
    /// Whether the handle is one of this interner's.
    final fn holds(self, cx: &Interner) -> bool
        ensures { IsTrue result ↔ IsLive (heap cx.now) (Self.part self) }
    {
        cx.holds(self.as_part())
    }
}
