//! The names that earlier lines declare.
ghost use Rattle.ir_core.specs.declared.errors.TermError.TheVariants.{Memory};
ghost use Rattle.ir_script.specs.Scope.{scope_names, part_named};
ghost use Rattle.std.specs.Prelude.{◌≡◌, ◌++◌, ◌∷◌, [], None, Err, OnErr, OnOk};

use indexmap::IndexMap;
use ir_core::{Part, R, TermError};
use std::alloc::Global;

/// Names in the order in which they were declared, each with the part of its term. A name is a slice of the script.
#[derive(Drop)]
pub(crate) struct Scope<'a> {
    parts: IndexMap<&'a [u8], Part>,
}

impl<'a> Scope<'a> {
    /// No names, which takes no memory.
    pub(crate) fn new(alloc: Global) -> Self
        ensures { scope_names result ≡ [] }
    {
        Scope {
            parts: IndexMap::new(alloc),
        }
    }

    /// The part that the name stands for.
    pub(crate) fn find(&self, name: &[u8]) -> Option<Part>
        ensures { result ≡ part_named (scope_names self.now) name.now }
    {
        self.parts.get(name).copied()
    }

    /// Lets a new name stand for the part. It is refused only for want of memory, and the names are then as they were.
    pub(crate) fn declare(&mut self, name: &'a [u8], part: Part) -> R<()>
        requires { part_named (scope_names self.old) name.now ≡ None }
        ensures ok { OnOk result (scope_names self.new ≡ scope_names self.old ++ (name.now, part) ∷ []) }
        ensures err { OnErr result ((scope_names self.new ≡ scope_names self.old) × (result ≡ Err Memory)) }
    {
        let Ok(_) = self.parts.insert(name, part) else {
            return Err(TermError::Memory);
        };
        Ok(())
    }
}
