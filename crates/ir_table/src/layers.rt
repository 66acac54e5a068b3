//! The one way in which parts are read.
ghost use Rattle.ir_laws.specs.Heap.{HasNode, IsLive};
ghost use Rattle.ir_core.specs.Parts.{index_in, sort_in};
ghost use Rattle.ir_table.specs.Above.{KeptOf};
ghost use Rattle.ir_nodes.specs.Fits.{is_term};
ghost use Rattle.ir_table.specs.Heaps.{heap_of, table_of};
ghost use Rattle.ir_table.specs.Interner.{heap};
ghost use Rattle.ir_nodes.specs.Layers.{FitsRow, is_node, layer_at, layer_seen};
ghost use Rattle.ir_table.specs.Info.{sketch};
ghost use Rattle.std.specs.Option.{option_map};
ghost use Rattle.std.specs.Prelude.{◌≡◌, ◌↔◌, IfSome, IsTrue, Some, slice_get, true, false};

use crate::store::Store;
use crate::{CachedInfo, Interner, ListKey};
use ir_core::Part;
use ir_nodes::{Layer, List};

impl Store {
    // What stands at the place of a node, and its cached info.
    fn node_entry(&self, index: u32) -> Option<(Layer<'_>, CachedInfo)>
        ensures entry { option_map (λ e. sketch (layer_seen e.0) e.1) result ≡ slice_get self.now.tables.nodes index }
        ensures node { IfSome result (λ e. is_node e.0 ≡ true) }
    {
        let (node, info) = self.tables.nodes.get(index as usize)?;
        Some((Layer::Node(node), info))
    }

    // What stands at the place of a list without members.
    fn empty_entry(&self, index: u32) -> Option<(Layer<'_>, CachedInfo)>
        ensures entry { option_map (λ e. sketch (layer_seen e.0) e.1) result ≡ slice_get self.now.tables.empty_lists index }
        ensures list { IfSome result (λ e. is_node e.0 ≡ false) }
    {
        let (list, info) = self.tables.empty_lists.get(index as usize)?;
        Some((Layer::List(List::Empty(*list)), info))
    }

    // What stands at the place of a part, and its cached info, whether or not it is of the part's sort. No other function goes by the sorts of parts.
    #[inline(always)]
    fn entry(&self, part: Part) -> Option<(Layer<'_>, CachedInfo)>
        ensures entry { option_map (λ e. sketch (layer_seen e.0) e.1) result ≡ slice_get (table_of self.now.tables (sort_in part)) (index_in part) }
        ensures node { IfSome result (λ e. is_node e.0 ≡ is_term (Some (sort_in part))) }
    {
        match part {
            Part::Ty(ty) => self.node_entry(ty.index),
            Part::Const(konst) => self.node_entry(konst.index),
            Part::Region(region) => self.node_entry(region.index),
            Part::Tys(list) => {
                let (types, info) = self.tables.type_lists.get(list.index as usize)?;
                Some((Layer::List(List::Types(types.as_slice())), info))
            }
            Part::BoundVarKinds(list) => {
                let (variables, info) = self.tables.variable_lists.get(list.index as usize)?;
                Some((Layer::List(List::Variables(variables.as_slice())), info))
            }
            Part::VariancesOf(list) => {
                let (variances, info) = self.tables.variance_lists.get(list.index as usize)?;
                Some((Layer::List(List::Variances(variances.as_slice())), info))
            }
            Part::GenericArgs(list) => self.empty_entry(list.index),
            Part::PatList(list) => self.empty_entry(list.index),
            Part::BoundExistentialPredicates(list) => self.empty_entry(list.index),
            Part::Clauses(list) => self.empty_entry(list.index),
            Part::RegionAssumptions(list) => self.empty_entry(list.index),
        }
    }

    // Whether the part is live.
    pub(crate) fn holds(&self, part: Part) -> bool
        ensures { IsTrue result ↔ IsLive (heap_of self.now.tables) part }
    {
        match self.entry(part) {
            Some((layer, _)) => layer.is_of(part.sort()),
            None => false,
        }
    }

    // The cached info of the part.
    pub(crate) fn cached(&self, part: Part) -> CachedInfo
        requires { IsLive (heap_of self.now.tables) part }
        ensures { KeptOf (heap_of self.now.tables) part result }
    {
        let (_, info) = self.entry(part).unwrap();
        info
    }

    // What the part is.
    pub(crate) fn layer(&self, part: Part) -> Layer<'_>
        requires { IsLive (heap_of self.now.tables) part }
        ensures at { layer_at (heap_of self.now.tables) part ≡ Some (layer_seen result) }
        ensures layer { HasNode (heap_of self.now.tables) part (layer_seen result) }
        ensures row { FitsRow result }
    {
        let (layer, _) = self.entry(part).unwrap();
        layer
    }
}

impl Interner {
    /// What the part is, one layer deep.
    pub fn layer(&self, part: Part) -> Layer<'_>
        requires { IsLive (heap self.now) part }
        ensures at { layer_at (heap self.now) part ≡ Some (layer_seen result) }
        ensures layer { HasNode (heap self.now) part (layer_seen result) }
        ensures row { FitsRow result }
    {
        self.store.layer(part)
    }
}
