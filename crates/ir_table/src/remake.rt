//! Parts made anew: the label and the binder of a part over other kids.
ghost use Rattle.ir_core.specs.declared.handles.Part.TheVariants as part;
ghost use Rattle.ir_core.specs.declared.handles.PartSort.TheVariants as handle;
ghost use Rattle.ir_laws.specs.Heap.{Each, IsLive};
ghost use Rattle.ir_laws.specs.declared.words.Word.TheVariants.{TypeList};
ghost use Rattle.ir_core.specs.Parts.{sort_in};
ghost use Rattle.ir_nodes.specs.Fits.{are_types};
ghost use Rattle.ir_table.specs.Heaps.{heap_of};
ghost use Rattle.ir_table.specs.Interner.{Asks, heap, rises, state, stored};
ghost use Rattle.ir_nodes.specs.Layers.{kid_sorts, layer_at, over_kids};
ghost use Rattle.ir_nodes.specs.Nodes.{layer, tys_kids};
ghost use Rattle.ir_table.specs.State.{NewAnswers};
ghost use Rattle.std.specs.Prelude.{◌≡◌, ◌<◌, ◌≤◌, [], IfSome, IfOk, IsOk, OnErr, length, map, true};

use crate::Interner;
use crate::store::Store;
use ir_core::{Part, R, Ty, Tys};
use ir_nodes::Layer;
use smallvec::SmallVec;
use std::alloc::{AllocError, Global};

// The types that the parts are. It takes memory only for more than eight of them.
fn types_in(alloc: Global, parts: &[Part]) -> Result<SmallVec<Ty, 8>, AllocError>
    requires { are_types parts.now ≡ true }
    ensures ok { IfOk result (λ key. tys_kids key.items ≡ parts.now) }
    ensures succeeds { length parts.now ≤ 8 → IsOk result }
{
    let mut types: SmallVec<Ty, 8> = SmallVec::new(alloc);
    types.reserve(parts.len())?;
    for part in parts {
        match *part {
            Part::Ty(ty) => types.push_reserved(ty),
            _ => unreachable!(),
        }
    }
    Ok(types)
}

impl Store {
    // The list of the types that the parts are.
    fn types(&mut self, parts: &[Part]) -> R<Part>
        requires live { Each (IsLive (heap_of self.old.tables)) parts.now }
        requires types { are_types parts.now ≡ true }
        ensures answers { NewAnswers (λ p. p) (stored self.old) (stored self.new) (layer TypeList [] parts.now) result }
        ensures list { IfOk result (λ p. sort_in p ≡ handle.Tys) }
        ensures asked { self.new.asked ≡ rises self.old.asked }
    {
        match types_in(self.alloc, parts) {
            Ok(key) => {
                let index = self.make(key)?;
                Ok(Part::Tys(Tys { index }))
            }
            Err(error) => {
                self.asked = self.asked.saturating_add(1);
                Err(error.into())
            }
        }
    }

    // The part with the label and the binder of this one, over these kids.
    fn with_kids(&mut self, part: Part, kids: &[Part]) -> R<Part>
        requires part { IsLive (heap_of self.old.tables) part }
        requires kids { Each (IsLive (heap_of self.old.tables)) kids.now }
        requires sorts { IfSome (layer_at (heap_of self.old.tables) part) (λ l. map sort_in kids.now ≡ kid_sorts l) }
        ensures answers { IfSome (layer_at (heap_of self.old.tables) part) (λ l. NewAnswers (λ p. p) (stored self.old) (stored self.new) (over_kids l kids.now) result) }
        ensures asked { self.new.asked ≡ rises self.old.asked }
    {
        if kids.is_empty() {
            self.asked = self.asked.saturating_add(1);
            return Ok(part);
        }
        match self.layer(part) {
            Layer::Node(node) => {
                let node = node.with_kids(kids);
                self.node(node)
            }
            Layer::List(_) => self.types(kids),
        }
    }
}

impl Interner {
    /// The list of the types that the parts are. It answers as `Tys::new_from_slice` does.
    pub fn types(&mut self, parts: &[Part]) -> R<Part>
        requires live { Each (IsLive (heap self.old)) parts.now }
        requires types { are_types parts.now ≡ true }
        ensures answers { NewAnswers (λ p. p) (state self.old) (state self.new) (layer TypeList [] parts.now) result }
        ensures list { IfOk result (λ p. sort_in p ≡ handle.Tys) }
        ensures asked { Asks self.old self.new }
    {
        self.store.types(parts)
    }

    /// The part with the label and the binder of this one, over these kids: as many as its own, and of the same sorts. It answers as the making call of the part's sort does.
    pub fn with_kids(&mut self, part: Part, kids: &[Part]) -> R<Part>
        requires part { IsLive (heap self.old) part }
        requires kids { Each (IsLive (heap self.old)) kids.now }
        requires sorts { IfSome (layer_at (heap self.old) part) (λ l. map sort_in kids.now ≡ kid_sorts l) }
        ensures answers { IfSome (layer_at (heap self.old) part) (λ l. NewAnswers (λ p. p) (state self.old) (state self.new) (over_kids l kids.now) result) }
        ensures asked { Asks self.old self.new }
    {
        self.store.with_kids(part, kids)
    }
}
