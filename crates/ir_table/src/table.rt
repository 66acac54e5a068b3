//! A table of nodes, in the order in which they came, with a look-up by the key.
ghost use Rattle.std.specs.Prelude.{◌≡◌, ◌<◌, ◌≤◌, ◌++◌, ◌∷◌, [], None, Some, length, slice_get, true, IsOk, IfOk, IfSome, IfNone, OnOk, OnErr, option_map};
ghost use Rattle.ir_core.specs.declared.handles.Part.{Part};
ghost use Rattle.ir_laws.specs.Heap.{Layer};
ghost use Rattle.ir_table.specs.Info.{sketch};
ghost use Rattle.ir_table.specs.Table.{HasNone, StandsAt};
ghost use Rattle.ir_table.specs.declared.info.CachedInfo.{CachedInfo};

use crate::CachedInfo;
use indexmap::IndexMap;
use smallvec::SmallVec;
use std::alloc::{AllocError, Global};
use std::default::MadeWith;
use std::hash::Hash;
use std::marker::Model;

/// A key that is a node one layer deep: to be equal is to have one layer.
pub trait Key: Eq + Hash + Drop {
    // the layer that it is
    ghost layer: { Self → Layer Part };

    // two keys are equal exactly if their layers are the same
    ghost exact: { (x y : Self) → (Self.eq x y ≡ true → layer x ≡ layer y)
        × (layer x ≡ layer y → Self.eq x y ≡ true) };
}

/// What a list may have.
pub trait Member: Copy + Eq + Hash + MadeWith<Global> {
    ghost use Rattle.std.specs.Prelude.{List};

    // the layer of a list of these members
    ghost list_layer: { List Self → Layer Part };

    // two members that are equal are the same
    ghost exact: { (x y : Self) → Self.eq x y ≡ true → x ≡ y };

    // a list is told by its layer
    ghost told: { (xs ys : List Self) → list_layer xs ≡ list_layer ys → xs ≡ ys };
}

/// A key that holds a list, up to eight items of it in the key itself.
pub trait ListKey: Key {
    /// What its list has.
    type Item: Copy;

    ghost use Rattle.std.specs.Prelude.{List};

    // the layer of a list of these items
    ghost items_layer: { List Self.Item → Layer Part };

    /// A key with a copy of the items. It takes memory only for more than eight of them.
    fn from_slice(alloc: Global, items: &[Self::Item]) -> Result<Self, AllocError>
        ensures ok { IfOk result (λ key. Self.layer key ≡ items_layer items.now) }
        ensures succeeds { length items.now ≤ 8 → IsOk result };

    /// The items of its list.
    fn as_slice(&self) -> &[Self::Item]
        ensures { items_layer result.now ≡ Self.layer self.now };
}

impl<T: Member> Key for SmallVec<T, 8> {
    ghost use Rattle.ir_nodes.specs.Exact.{layers_decide};

    ghost layer = { λ v. T.list_layer v.items };

    ghost exact = { λ v w. layers_decide T.eq T.exact T.Eq.laws.refl T.list_layer T.told v.items w.items };
}

impl<T: Member> ListKey for SmallVec<T, 8> {
    type Item = T;

    ghost items_layer = { T.list_layer };

    fn from_slice(alloc: Global, items: &[T]) -> Result<Self, AllocError> {
        SmallVec::from_slice(alloc, items)
    }

    fn as_slice(&self) -> &[T] {
        SmallVec::as_slice(self)
    }
}

/// Nodes in the order in which they came, each with its cached info.
#[derive(Drop)]
pub struct Table<K: Key> {
    map: IndexMap<K, CachedInfo>,
}

impl<K: Key> Model for Table<K> {
    ghost use Rattle.std.specs.Prelude.{List, map as mapped};
    ghost use Rattle.ir_core.specs.declared.handles.Part.{Part};
    ghost use Rattle.ir_laws.specs.Heap.{Sketch};
    ghost use Rattle.ir_table.specs.Info.{sketch};
    ghost use Rattle.ir_table.specs.Coding.{kids_code};
    ghost use Rattle.std.specs.Coded.{codes};

    ghost Value = { List (Sketch Part) };

    ghost coded = { Prim.hlevel (codes, kids_code (Prim.hlevel codes) (Prim.hlevel codes)) };

    ghost view = { λ t. mapped (λ e. sketch (K.layer e.0) e.1) t.map.entries };
}

impl<K: Key> Table<K> {
    /// A table with no nodes.
    pub fn new(alloc: Global) -> Self
        ensures { result ≡ [] }
    {
        Table {
            map: IndexMap::new(alloc),
        }
    }

    /// How many nodes there are.
    pub fn len(&self) -> usize
        ensures { result ≡ length self.now }
    {
        self.map.len()
    }

    /// The key at the index.
    pub fn key(&self, index: usize) -> &K
        requires { index < length self.now }
        ensures { (c : CachedInfo) × (slice_get self.now index ≡ Some (sketch (K.layer result.now) c)) }
    {
        let (key, _) = self.map.get_index(index).unwrap();
        key
    }

    /// The key at the index and its cached info, if there is one.
    pub fn get(&self, index: usize) -> Option<(&K, CachedInfo)>
        ensures { option_map (λ e. sketch (K.layer e.0.now) e.1) result ≡ slice_get self.now index }
    {
        match self.map.get_index(index) {
            Some((key, info)) => Some((key, *info)),
            None => None,
        }
    }

    /// The index of the key, if it is there.
    pub fn find(&self, key: &K) -> Option<usize>
        ensures found { IfSome result (StandsAt self.now (K.layer key.now)) }
        ensures absent { IfNone result (HasNone self.now (K.layer key.now)) }
    {
        self.map.get_index_of(key)
    }

    /// Puts a new key last. It is refused only for want of memory, and the table is then as it was.
    pub fn push(&mut self, key: K, info: CachedInfo) -> Result<(), AllocError>
        requires { HasNone self.old (K.layer key) }
        ensures ok { OnOk result (self.new ≡ self.old ++ sketch (K.layer key) info ∷ []) }
        ensures err { OnErr result (self.new ≡ self.old) }
    {
        self.map.insert(key, info)?;
        Ok(())
    }
}
