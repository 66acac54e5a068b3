//! The tables of all sorts, and what may go into them.
ghost use Rattle.ir_core.specs.declared.handles.Part.{Part as PartSeen};
ghost use Rattle.ir_laws.specs.Heap.{IsLive, IsSound, Sketch, tree_of};
ghost use Rattle.ir_laws.specs.Held.{Counts};
ghost use Rattle.ir_laws.specs.Limits.{capped, is_within};
ghost use Rattle.ir_nodes.specs.Fits.{layer_fits};
ghost use Rattle.ir_table.specs.Heaps.{count_of, heap_of};
ghost use Rattle.ir_table.specs.Limits.{limits_seen};
ghost use Rattle.ir_laws.proofs.HeapLemmas.{sound_prop};
ghost use Rattle.ir_laws.proofs.HeldLemmas.{Counts-prop};
ghost use Rattle.std.specs.Prelude.{◌≡◌, ◌≤◌, Some, true};

use crate::above::Above;
use crate::{CachedInfo, CachedSize, Table};
use ir_core::{BoundVarKind, DebruijnIndex, Limits, R, TermError, Ty, Variance};
use ir_nodes::{EmptyList, Node};
use smallvec::SmallVec;
use std::alloc::Global;

/// One table of nodes, and one for each sort of lists.
pub(crate) struct Tables {
    pub(crate) nodes: Table<Node>,
    pub(crate) type_lists: Table<SmallVec<Ty, 8>>,
    pub(crate) variable_lists: Table<SmallVec<BoundVarKind, 8>>,
    pub(crate) variance_lists: Table<SmallVec<Variance, 8>>,
    pub(crate) empty_lists: Table<EmptyList>,
}

// To drop the tables is one call, so a function that ends in several places isn't proved over each table at each of them.
impl Drop for Tables {
    fn drop(self) {
        let Tables {
            nodes: _nodes,
            type_lists: _type_lists,
            variable_lists: _variable_lists,
            variance_lists: _variance_lists,
            empty_lists: _empty_lists,
        } = self;
    }
}

/// The tables with their limits, before and after the parts of the start are there.
#[derive(Drop)]
pub(crate) struct Store {
    pub(crate) tables: Tables,
    pub(crate) limits: Limits,
    pub(crate) asked: u64,
    pub(crate) alloc: Global,
    pub ghost sound: { IsSound (heap_of tables) } by { sound_prop (heap_of tables) },
    pub ghost fits: { (p : PartSeen) (s : Sketch PartSeen) → heap_of tables p ≡ Some s → layer_fits s.layer ≡ true },
    pub ghost counted: { Counts (heap_of tables) (count_of tables) } by { Counts-prop (heap_of tables) (count_of tables) },
    pub ghost few: { count_of tables ≤ (capped (limits_seen limits)).nodes },
    pub ghost low: { (p : PartSeen) → IsLive (heap_of tables) p → is_within (capped (limits_seen limits)) (tree_of (heap_of tables) p) ≡ true },
}

// The caps of the limits.
const MOST_NODES: u64 = (1 << 32) - 1;

const HIGHEST: u32 = 512;

const LOWEST: u32 = 3;

const MOST_BINDERS: u32 = 65_535;

const MOST_VARIABLES: u32 = 65_535;

impl Store {
    ghost use Rattle.ir_core.specs.declared.errors.TermError.TheVariants as error;
    ghost use Rattle.ir_table.specs.Interner.{stored};
    ghost use Rattle.ir_table.specs.Above.{Forbids, KeptAs, is_low};
    ghost use Rattle.ir_table.specs.State.{capacity};
    ghost use Rattle.std.specs.Prelude.{◌<◌, None, IfErr, IfOk, OnOk};

    /// Tables with no parts.
    pub(crate) fn empty(alloc: Global, limits: Limits) -> Store
        ensures heap { (p : PartSeen) → heap_of result.tables p ≡ None }
        ensures limits { result.limits ≡ limits }
    {
        Store {
            tables: Tables {
                nodes: Table::new(alloc),
                type_lists: Table::new(alloc),
                variable_lists: Table::new(alloc),
                variance_lists: Table::new(alloc),
                empty_lists: Table::new(alloc),
            },
            limits,
            asked: 0,
            alloc,
        }
    }

    /// How many parts are held.
    pub(crate) fn len(&self) -> u64
        ensures { result ≡ (stored self.now).count }
    {
        let tables = &self.tables;
        let lists = tables.type_lists.len()
            + tables.variable_lists.len()
            + tables.variance_lists.len();
        (tables.nodes.len() + lists + tables.empty_lists.len()) as u64
    }

    // Whether the node passes no limit: its height, and the index and the number that it has by itself.
    fn is_low(&self, above: Above) -> bool
        ensures { result ≡ is_low (capped (stored self.now).limits) above }
    {
        let limits = &self.limits;
        above.height <= limits.height.min(HIGHEST).max(LOWEST) as u64
            && above.index <= limits.index.min(MOST_BINDERS) as u64
            && above.number <= limits.number.min(MOST_VARIABLES) as u64
    }

    /// What is kept beside a node that isn't held, where it may be put in: it is too deep where it passes a limit, and else one too many where the tables are full.
    pub(crate) fn admit(&self, above: Above) -> R<CachedInfo>
        ensures ok { IfOk result (λ c. KeptAs c above) }
        ensures low { OnOk result (is_low (capped (stored self.now).limits) above ≡ true) }
        ensures room { OnOk result ((stored self.now).count < capacity (stored self.now)) }
        ensures err { IfErr result (Forbids (stored self.now) above) }
    {
        if !self.is_low(above) {
            return Err(TermError::TooDeep);
        }
        if self.len() >= self.limits.nodes.min(MOST_NODES) {
            return Err(TermError::TooMany);
        }
        Ok(CachedInfo {
            height: above.height as u32,
            size: CachedSize::new(above.size),
            flags: above.flags,
            outer_exclusive_binder: DebruijnIndex(above.outer.min(u32::MAX as u64) as u32),
        })
    }
}
