//! What the sorts of parts have in common.
ghost use Rattle.ir_laws.specs.Counts.{flags, outer};
ghost use Rattle.ir_laws.specs.Heap.{Layer, Each, IsLive, HasNode, names_in, tree_of};
ghost use Rattle.ir_core.specs.Flags.{bits_of};
ghost use Rattle.ir_laws.specs.Counts.{sort_of_label};
ghost use Rattle.ir_nodes.specs.Fits.{fits_row, layer_sort, term_sort};
ghost use Rattle.ir_table.specs.Heaps.{heap_of};
ghost use Rattle.ir_table.specs.Interner.{Asks, heap, rises, state, stored};
ghost use Rattle.ir_nodes.specs.Nodes.{node_layer};
ghost use Rattle.ir_table.specs.Owned.{owns_nodes};
ghost use Rattle.ir_nodes.specs.declared.nodes.Node.{Node as NodeSeen};
ghost use Rattle.ir_table.specs.Iterated.{AnswersItems, AnswersItemsOrErr, GivesLive, GivesLiveOrErr};
ghost use Rattle.ir_table.specs.State.{NewAnswers};
ghost use Rattle.ir_core.specs.declared.handles.Part.{Part};
ghost use Rattle.std.specs.Iterator.{IsFinite};
ghost use Rattle.std.specs.Iterator.Adapters.{copied_source};
ghost use Rattle.std.specs.Prelude.{◌≡◌, ◌↔◌, [], Err, length, List, IsTrue, Some, is_some, true};
ghost use Rattle.std.specs.Slice.Iter.{iter_rest};

use crate::store::Store;
use crate::{Interner, Live};
use ir_core::{Handle, Part, R, TermError, WithCachedTypeInfo};
use ir_nodes::Node;
use std::alloc::Global;
use std::iter::Copied;
use std::slice::Iter;

impl Interner {
    // The refusal of a making call before it comes to its list. It counts as asked, and nothing else changes.
    fn refused<T>(&mut self, error: TermError) -> R<T>
        ensures err { result ≡ Err error }
        ensures same { state self.new ≡ state self.old }
        ensures asked { Asks self.old self.new }
    {
        self.store.asked = self.store.asked.saturating_add(1);
        Err(error)
    }
}

impl Store {
    // The handle of the kind.
    pub(crate) fn term<T: Intern>(&mut self, kind: T::Kind) -> R<T>
        requires { Each (IsLive (heap_of self.old.tables)) (names_in (node_layer (T.view kind))) }
        ensures answers { NewAnswers T.part (stored self.old) (stored self.new) (node_layer (T.view kind)) result }
        ensures asked { self.new.asked ≡ rises self.old.asked }
    {
        let index = self.make(T::to_node(kind))?;
        Ok(T::from_index(index))
    }

    // The part of the node.
    pub(crate) fn node(&mut self, node: Node) -> R<Part>
        requires live { Each (IsLive (heap_of self.old.tables)) (names_in (node_layer node)) }
        requires fits { fits_row (node_layer node) ≡ true }
        requires sort { is_some (term_sort (sort_of_label (node_layer node).label)) ≡ true }
        ensures answers { NewAnswers (λ p. p) (stored self.old) (stored self.new) (node_layer node) result }
        ensures asked { self.new.asked ≡ rises self.old.asked }
    {
        let sort = node.part_sort().unwrap();
        let index = self.make(node)?;
        Ok(Part::at(sort, index))
    }
}

impl Interner {
    /// The part of the node, of the sort that the node has. It answers as `new` of that sort does at the node's kind.
    pub fn node(&mut self, node: Node) -> R<Part>
        requires live { Each (IsLive (heap self.old)) (names_in (node_layer node)) }
        requires fits { fits_row (node_layer node) ≡ true }
        requires sort { is_some (term_sort (sort_of_label (node_layer node).label)) ≡ true }
        ensures answers { NewAnswers (λ p. p) (state self.old) (state self.new) (node_layer node) result }
        ensures asked { Asks self.old self.new }
    {
        self.store.node(node)
    }
}

/// A handle of a node that is kept once. What it stands for is a view of the node: its kind.
pub trait Intern: Live {
    /// What the handle stands for, one layer deep.
    type Kind: Copy;

    // the node of a kind
    ghost view: { Self.Kind → NodeSeen };

    /// The node of the kind.
    fn to_node(kind: Self::Kind) -> Node
        ensures view { result ≡ view kind }
        ensures fits { fits_row (node_layer result) ≡ true }
        ensures sort { layer_sort (node_layer result) ≡ Some Self.sort };

    /// The kind of the node.
    fn to_kind(node: Node) -> Self::Kind
        requires fits { fits_row (node_layer node) ≡ true }
        requires sort { layer_sort (node_layer node) ≡ Some Self.sort }
        ensures { view result ≡ node };

    // the handle's parts stand in the table of nodes
    ghost is_node: { owns_nodes Self.sort ≡ true };

    /// The handle of the kind. It counts as asked. It is the one that the kind had before, if it is held; then no memory is taken.
    final fn new(cx: &mut Interner, kind: Self::Kind) -> R<Self>
        requires { Each (IsLive (heap cx.old)) (names_in (node_layer (view kind))) }
        ensures answers { NewAnswers Self.part (state cx.old) (state cx.new) (node_layer (view kind)) result }
        ensures asked { Asks cx.old cx.new }
    {
        cx.store.term(kind)
    }

    /// The kind that was put in.
    final fn kind(self, cx: &Interner) -> Self::Kind
        requires { IsLive (heap cx.now) (Self.part self) }
        ensures { HasNode (heap cx.now) (Self.part self) (node_layer (view result)) }
    {
        Self::to_kind(*cx.store.tables.nodes.key(self.index() as usize))
    }

    /// The kind, and beside it what the term holds and how many binders outside of it it speaks of.
    final fn inner(self, cx: &Interner) -> WithCachedTypeInfo<Self::Kind>
        requires { IsLive (heap cx.now) (Self.part self) }
        ensures kind { HasNode (heap cx.now) (Self.part self) (node_layer (view result.internee)) }
        ensures flags { bits_of result.flags ≡ flags (tree_of (heap cx.now) (Self.part self)) }
        ensures outer { result.outer_exclusive_binder.0 ≡ outer (tree_of (heap cx.now) (Self.part self)) }
    {
        let info = cx.store.told(self.as_part());
        WithCachedTypeInfo {
            internee: self.kind(cx),
            flags: info.flags,
            outer_exclusive_binder: info.outer_exclusive_binder,
        }
    }
}

/// A handle of a list that is kept once.
pub trait InternList: Live {
    /// What the list has.
    type Item: Copy;

    // what a list of these items is made of
    ghost list_layer: { List Self.Item → Layer Part };

    /// The list without items, which is there from the start.
    fn empty(cx: &Interner) -> Self
        ensures { HasNode (heap cx.now) (Self.part result) (list_layer []) };

    /// The handle of the list. It counts as asked. It is the one that the list had before, if it is held; then no memory is taken for up to eight items.
    fn new_from_slice(cx: &mut Interner, items: &[Self::Item]) -> R<Self>
        requires { Each (IsLive (heap cx.old)) (names_in (list_layer items.now)) }
        ensures answers { NewAnswers Self.part (state cx.old) (state cx.new) (list_layer items.now) result }
        ensures asked { Asks cx.old cx.new };

    /// The items that were put in.
    fn as_slice<'a>(self, cx: &'a Interner) -> &'a [Self::Item]
        requires { IsLive (heap cx.now) (Self.part self) }
        ensures { HasNode (heap cx.now) (Self.part self) (list_layer result.now) };

    /// The handle of the list of the iterator's items, which are read into memory first. It counts as asked, also where memory for the items is wanted; then no list is made.
    final fn new_from_iter<I: Iterator<Item = Self::Item>>(
        alloc: Global,
        cx: &mut Interner,
        items: I,
    ) -> R<Self>
        requires can { I.can_next items }
        requires finite { IsFinite (I.remaining items) }
        requires live { GivesLive list_layer cx.old I.next_gives items }
        ensures answers { AnswersItems Self.part list_layer cx.old cx.new I.next_gives items result }
        ensures asked { Asks cx.old cx.new }
    {
        let Ok(items) = items.collect::<Vec<Self::Item>>(alloc) else {
            return cx.refused(TermError::Memory);
        };
        Self::new_from_slice(cx, items.as_slice())
    }

    /// The same of an iterator whose items may be refusals. The first one is the answer, and then no list is made.
    final fn try_new_from_iter<I: Iterator<Item = R<Self::Item>>>(
        alloc: Global,
        cx: &mut Interner,
        items: I,
    ) -> R<Self>
        requires can { I.can_next items }
        requires finite { IsFinite (I.remaining items) }
        requires live { GivesLiveOrErr list_layer cx.old I.next_gives items }
        ensures answers { AnswersItemsOrErr Self.part list_layer cx.old cx.new I.next_gives items result }
        ensures asked { Asks cx.old cx.new }
    {
        let mut all: Vec<Self::Item> = Vec::new(alloc);
        for item in items {
            let item = match item {
                Ok(item) => item,
                Err(error) => return cx.refused(error),
            };
            let Ok(()) = all.push(item) else {
                return cx.refused(TermError::Memory);
            };
        }
        Self::new_from_slice(cx, all.as_slice())
    }

    /// The items that were put in, in order.
    final fn iter<'a>(self, cx: &'a Interner) -> Copied<Iter<'a, Self::Item>>
        requires { IsLive (heap cx.now) (Self.part self) }
        ensures { let items = iter_rest (copied_source result) in HasNode (heap cx.now) (Self.part self) (list_layer items) }
    {
        self.as_slice(cx).iter().copied()
    }

    /// How many items there are.
    final fn len(self, cx: &Interner) -> usize
        requires { IsLive (heap cx.now) (Self.part self) }
        ensures { (items : List Self.Item) × HasNode (heap cx.now) (Self.part self) (list_layer items) × (result ≡ length items) }
    {
        self.as_slice(cx).len()
    }

    /// Whether there are none.
    final fn is_empty(self, cx: &Interner) -> bool
        requires { IsLive (heap cx.now) (Self.part self) }
        ensures { (items : List Self.Item) × HasNode (heap cx.now) (Self.part self) (list_layer items) × (IsTrue result ↔ (items ≡ [])) }
    {
        self.as_slice(cx).is_empty()
    }
}
