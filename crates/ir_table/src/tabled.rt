//! What the tables offer to each sort of keys.
ghost use Rattle.ir_core.specs.declared.handles.Part.{Part};
ghost use Rattle.ir_laws.specs.Heap.{Each, IsLive, Sketch, names_in};
ghost use Rattle.ir_table.specs.Above.{IsAbove};
ghost use Rattle.ir_nodes.specs.Fits.{layer_fits, layer_sort};
ghost use Rattle.ir_table.specs.Heaps.{heap_of};
ghost use Rattle.ir_table.specs.Tabled.{IsTable, is_owned};
ghost use Rattle.ir_table.specs.Table.{HasNone, StandsAt};
ghost use Rattle.ir_core.specs.declared.handles.PartSort.{PartSort};
ghost use Rattle.ir_core.specs.declared.handles.PartSort.TheVariants as sort;
ghost use Rattle.ir_table.specs.declared.store.Tables.{Tables};
ghost use Rattle.std.specs.Prelude.{◌≡◌, ◌++◌, ◌∷◌, [], Bool, List, true, false, length, IfNone, IfSome, OnErr, OnOk};
ghost use Rattle.ir_table.specs.Info.{sketch};
ghost use Rattle.std.proofs.Common.{refl};

use crate::above::{Above, node_own};
use crate::store::{Store, Tables};
use crate::{CachedInfo, Key};
use ir_core::{BoundVarKind, Ty, Variance};
use ir_nodes::{EmptyList, Node};
use smallvec::SmallVec;
use std::alloc::AllocError;

/// A key with a table of its own.
pub(crate) trait Tabled: Key {
    // the sorts of parts that the table has
    ghost owns: { PartSort → Bool };

    // the table, and the tables with another one in its place
    ghost entries: { Tables → List (Sketch Part) };

    ghost put: { Tables → List (Sketch Part) → Tables };

    /// How many nodes the table has.
    fn len(tables: &Tables) -> usize
        ensures { result ≡ length (entries tables.now) };

    /// Where the key stands, if it is there.
    fn find(&self, tables: &Tables) -> Option<usize>
        ensures found { IfSome result (StandsAt (entries tables.now) (Self.layer self.now)) }
        ensures absent { IfNone result (HasNone (entries tables.now) (Self.layer self.now)) };

    /// Puts a new key last, or leaves the tables as they were.
    fn push(self, tables: &mut Tables, info: CachedInfo) -> Result<(), AllocError>
        requires { HasNone (entries tables.old) (Self.layer self) }
        ensures ok { OnOk result (tables.new ≡ put tables.old (entries tables.old ++ sketch (Self.layer self) info ∷ [])) }
        ensures err { OnErr result (tables.new ≡ tables.old) };

    /// What is computed of the key before it is put in.
    fn above(&self, store: &Store) -> Above
        requires live { Each (IsLive (heap_of store.now.tables)) (names_in (Self.layer self.now)) }
        requires fits { layer_fits (Self.layer self.now) ≡ true }
        requires owned { is_owned owns (layer_sort (Self.layer self.now)) ≡ true }
        ensures { IsAbove (heap_of store.now.tables) (Self.layer self.now) result };

    ghost table: { IsTable owns entries put };
}

impl Key for Node {
    ghost use Rattle.ir_nodes.specs.Nodes.{node_layer};
    ghost use Rattle.ir_nodes.specs.ExactNode.{nodes_decide};

    ghost layer = { node_layer };

    ghost exact = { nodes_decide };
}

impl Tabled for Node {
    ghost use Rattle.ir_table.specs.Owned.{owns_nodes, nodes_table};

    ghost owns = { owns_nodes };

    ghost entries = { λ t. t.nodes };

    ghost put = { λ t es. record t { nodes = es } };

    ghost table = { nodes_table };

    fn len(tables: &Tables) -> usize {
        tables.nodes.len()
    }

    fn find(&self, tables: &Tables) -> Option<usize> {
        tables.nodes.find(self)
    }

    fn push(self, tables: &mut Tables, info: CachedInfo) -> Result<(), AllocError> {
        tables.nodes.push(self, info)
    }

    fn above(&self, store: &Store) -> Above {
        store.above_node(node_own(self), self)
    }
}

impl Tabled for SmallVec<Ty, 8> {
    ghost use Rattle.ir_table.specs.Owned.{owns_type_lists, type_lists_table};

    ghost owns = { owns_type_lists };

    ghost entries = { λ t. t.type_lists };

    ghost put = { λ t es. record t { type_lists = es } };

    ghost table = { type_lists_table };

    fn len(tables: &Tables) -> usize {
        tables.type_lists.len()
    }

    fn find(&self, tables: &Tables) -> Option<usize> {
        tables.type_lists.find(self)
    }

    fn push(self, tables: &mut Tables, info: CachedInfo) -> Result<(), AllocError> {
        tables.type_lists.push(self, info)
    }

    fn above(&self, store: &Store) -> Above {
        store.above_tys(self.as_slice())
    }
}

impl Tabled for SmallVec<BoundVarKind, 8> {
    ghost use Rattle.ir_table.specs.Owned.{owns_variable_lists, variable_lists_table};

    ghost owns = { owns_variable_lists };

    ghost entries = { λ t. t.variable_lists };

    ghost put = { λ t es. record t { variable_lists = es } };

    ghost table = { variable_lists_table };

    fn len(tables: &Tables) -> usize {
        tables.variable_lists.len()
    }

    fn find(&self, tables: &Tables) -> Option<usize> {
        tables.variable_lists.find(self)
    }

    fn push(self, tables: &mut Tables, info: CachedInfo) -> Result<(), AllocError> {
        tables.variable_lists.push(self, info)
    }

    fn above(&self, _store: &Store) -> Above {
        Above::leaf()
    }
}

impl Tabled for SmallVec<Variance, 8> {
    ghost use Rattle.ir_table.specs.Owned.{owns_variance_lists, variance_lists_table};

    ghost owns = { owns_variance_lists };

    ghost entries = { λ t. t.variance_lists };

    ghost put = { λ t es. record t { variance_lists = es } };

    ghost table = { variance_lists_table };

    fn len(tables: &Tables) -> usize {
        tables.variance_lists.len()
    }

    fn find(&self, tables: &Tables) -> Option<usize> {
        tables.variance_lists.find(self)
    }

    fn push(self, tables: &mut Tables, info: CachedInfo) -> Result<(), AllocError> {
        tables.variance_lists.push(self, info)
    }

    fn above(&self, _store: &Store) -> Above {
        Above::leaf()
    }
}

impl Key for EmptyList {
    ghost use Rattle.ir_nodes.specs.Nodes.{empty_layer};
    ghost use Rattle.ir_nodes.specs.ExactNode.{empties_decide};

    ghost layer = { empty_layer };

    ghost exact = { empties_decide };
}

impl Tabled for EmptyList {
    ghost use Rattle.ir_table.specs.Owned.{owns_empty_lists, empty_lists_table};

    ghost owns = { owns_empty_lists };

    ghost entries = { λ t. t.empty_lists };

    ghost put = { λ t es. record t { empty_lists = es } };

    ghost table = { empty_lists_table };

    fn len(tables: &Tables) -> usize {
        tables.empty_lists.len()
    }

    fn find(&self, tables: &Tables) -> Option<usize> {
        tables.empty_lists.find(self)
    }

    fn push(self, tables: &mut Tables, info: CachedInfo) -> Result<(), AllocError> {
        tables.empty_lists.push(self, info)
    }

    fn above(&self, _store: &Store) -> Above {
        Above::leaf()
    }
}
