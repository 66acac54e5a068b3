//! Names of items.
ghost use Rattle.ir_core.specs.declared.ids.SolverDefId.{SolverDefId};
ghost use Rattle.std.specs.Prelude.{◌≡◌, ℕ, List, Option, None};
ghost use Rattle.std.specs.Option.{option_copied};

use ir_core::{SolverDefId, Text};

/// The names of items, for spelling.
pub trait Names {
    // the name of an id, if it has one
    ghost named: { Self → SolverDefId → Option (List ℕ) };

    /// The name of the item, if it has one.
    fn name(&self, id: SolverDefId) -> Option<&Text>
        ensures { option_copied result ≡ named self.now id };
}

/// No item has a name.
#[derive(Clone, Copy, PartialEq, Eq, Debug)]
pub struct NoNames;

impl Names for NoNames {
    ghost named = { λ _ _. None };

    fn name(&self, id: SolverDefId) -> Option<&Text> {
        let _ = id;
        None
    }
}
