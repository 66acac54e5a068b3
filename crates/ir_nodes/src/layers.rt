//! What a part is, one layer deep: a node or a list.
ghost use Rattle.ir_core.specs.declared.handles.Part.TheVariants as part;
ghost use Rattle.ir_laws.specs.Heap.{kid_names, leaf_of};
ghost use Rattle.ir_nodes.specs.Fits.{is_of, is_term, layer_sort};
ghost use Rattle.ir_nodes.specs.Layers.{is_node, layer_seen, list_kids, list_seen};
ghost use Rattle.ir_nodes.specs.Nodes.{empty_layer, variable_leaf};
ghost use Rattle.std.specs.Option.{option_map};
ghost use Rattle.std.specs.Prelude.{◌≡◌, ◌<◌, [], IsSome, None, Some, length, slice_get};

use crate::Node;
use ir_core::{BoundVar, BoundVarKind, BoundVarKinds, DebruijnIndex, Part, PartSort, Ty, Variance};

/// The lists whose members are not built yet: each sort has its empty list alone.
#[derive(Clone, Copy, PartialEq, Eq, Hash, Debug)]
pub enum EmptyList {
    GenericArgs,
    PatList,
    BoundExistentialPredicates,
    Clauses,
    RegionAssumptions,
}

impl EmptyList {
    /// The sort of the handle that names it.
    fn sort(self) -> PartSort
        ensures { layer_sort (empty_layer self) ≡ Some result }
    {
        match self {
            EmptyList::GenericArgs => PartSort::GenericArgs,
            EmptyList::PatList => PartSort::PatList,
            EmptyList::BoundExistentialPredicates => PartSort::BoundExistentialPredicates,
            EmptyList::Clauses => PartSort::Clauses,
            EmptyList::RegionAssumptions => PartSort::RegionAssumptions,
        }
    }
}

/// What a list has. The items of a list of types are its kids; the others have none.
#[derive(Clone, Copy)]
pub enum List<'a> {
    Types(&'a [Ty]),
    Variables(&'a [BoundVarKind]),
    Variances(&'a [Variance]),
    Empty(EmptyList),
}

impl List<'_> {
    // The sort of the handle that names it.
    fn sort(self) -> PartSort
        ensures { layer_sort (list_seen self.entry) ≡ Some result }
    {
        match self {
            List::Types(_) => PartSort::Tys,
            List::Variables(_) => PartSort::BoundVarKinds,
            List::Variances(_) => PartSort::VariancesOf,
            List::Empty(list) => list.sort(),
        }
    }

    /// How many kids it has.
    pub fn kid_count(self) -> usize
        ensures { result ≡ length (list_kids self.entry) }
    {
        match self {
            List::Types(types) => types.len(),
            List::Variables(_) | List::Variances(_) | List::Empty(_) => 0,
        }
    }

    /// The kid at the index.
    pub fn kid(self, index: usize) -> Part
        requires { index < length (list_kids self) }
        ensures { slice_get (list_kids self.entry) index ≡ Some result }
    {
        match self {
            List::Types(types) => Part::Ty(types[index]),
            List::Variables(_) | List::Variances(_) | List::Empty(_) => unreachable!(),
        }
    }
}

/// What a part is, one layer deep: a node, or a list.
#[derive(Clone, Copy)]
pub enum Layer<'a> {
    Node(&'a Node),
    List(List<'a>),
}

impl Layer<'_> {
    /// Whether a part of this sort may be such a node or list; nodes are asked of sorts of terms alone.
    pub fn is_of(self, sort: PartSort) -> bool
        requires { is_node self ≡ is_term (Some sort) }
        ensures { result ≡ is_of sort (layer_sort (layer_seen self.entry)) }
    {
        let own = match self {
            Layer::Node(node) => node.part_sort(),
            Layer::List(list) => Some(list.sort()),
        };
        match own {
            Some(own) => sort == own,
            None => false,
        }
    }

    /// The list of the variables that it binds; none where it is no binder.
    pub fn binder(self) -> Option<BoundVarKinds>
        ensures { option_map part.BoundVarKinds result ≡ (layer_seen self.entry).binder }
    {
        match self {
            Layer::Node(node) => node.binder(),
            Layer::List(_) => None,
        }
    }

    /// The variable that it is, if it is one that a binder of a term binds.
    pub fn bound_variable(self) -> Option<(DebruijnIndex, BoundVar, BoundVarKind)>
        ensures leaf { leaf_of (layer_seen self.entry).label ≡ option_map variable_leaf result }
        ensures bare { IsSome result → ((layer_seen self.entry).binder ≡ None) × (kid_names (layer_seen self.entry).kids ≡ []) }
    {
        match self {
            Layer::Node(node) => node.bound_variable(),
            Layer::List(_) => None,
        }
    }

    /// How many kids it has.
    pub fn kid_count(self) -> usize
        ensures { result ≡ length (kid_names (layer_seen self.entry).kids) }
    {
        match self {
            Layer::Node(node) => node.kids().len(),
            Layer::List(list) => list.kid_count(),
        }
    }

    /// The kid at the index.
    pub fn kid(self, index: usize) -> Part
        requires { index < length (kid_names (layer_seen self).kids) }
        ensures { slice_get (kid_names (layer_seen self.entry).kids) index ≡ Some result }
    {
        match self {
            Layer::Node(node) => node.kids().get(index).unwrap(),
            Layer::List(list) => list.kid(index),
        }
    }
}
