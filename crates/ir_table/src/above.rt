//! What is computed of a node before it is made: its height, its size, its flags and its outer binder, over those of its kids.
ghost use Rattle.ir_core.specs.Flags.{bits_of};
ghost use Rattle.ir_core.specs.declared.handles.Part.TheVariants as part;
ghost use Rattle.ir_laws.specs.Heap.{Each, IsLive, names_in, size_cap, tree_above, tree_of};
ghost use Rattle.ir_table.specs.Cached.{Tells};
ghost use Rattle.ir_table.specs.Above.{IsAbove, IsLeaf, IsOwn, WithKids, WithVariables, variable_flags, variable_index, variable_outer};
ghost use Rattle.ir_nodes.specs.Plain.{IsBare, IsPlain};
ghost use Rattle.ir_laws.specs.Counts.{bound_flag, placeholder_flags};
ghost use Rattle.ir_nodes.specs.Fits.{fits_row};
ghost use Rattle.ir_table.specs.Heaps.{heap_of};
ghost use Rattle.ir_nodes.specs.Nodes.{node_layer, tys_layer, variable_seen};
ghost use Rattle.std.specs.Prelude.{◌≡◌, ◌+◌, ◌-◌, ◌<◌, ◌≤◌, ◌^◌, ◌∷◌, [], Some, if◌then◌else◌, true};

use crate::store::Store;
use crate::{CachedInfo, CachedSize, ListKey};
use bitflags::Flags;
use ir_core::{BoundVar, BoundVarIndexKind, BoundVarKind, DebruijnIndex, Part, Ty, TypeFlags};
use ir_laws::Word;
use ir_nodes::{Content, Kids, Node};

// A size past this is kept as this.
const SIZE_CAP: u64 = (1 << 48) + 1;

// What is computed of a node that is not made yet.
#[derive(Clone, Copy)]
pub(crate) struct Above {
    pub(crate) height: u64,
    pub(crate) size: u64,
    pub(crate) flags: TypeFlags,
    // How many binders outside of it the node speaks of.
    pub(crate) outer: u64,
    // The index and the number that a bound variable has, which have limits.
    pub(crate) index: u64,
    pub(crate) number: u64,
}

impl Above {
    // That of a label with these flags, before it is counted itself.
    fn begin(flags: TypeFlags) -> Above
        ensures height { result.height ≡ 0 }
        ensures size { result.size ≡ 1 }
        ensures flags { result.flags ≡ flags }
        ensures outer { result.outer ≡ 0 }
        ensures index { result.index ≡ 0 }
        ensures number { result.number ≡ 0 }
    {
        Above {
            height: 0,
            size: 1,
            flags,
            outer: 0,
            index: 0,
            number: 0,
        }
    }

    // That of a variable, by the flag of its sort. A canonical one is bound outside of all binders, and counts none.
    fn variable(index: BoundVarIndexKind, var: BoundVar, flag: TypeFlags) -> Above
        ensures height { result.height ≡ 0 }
        ensures size { result.size ≡ 1 }
        ensures flags { bits_of result.flags ≡ variable_flags index (bits_of flag) }
        ensures outer { result.outer ≡ variable_outer index }
        ensures index { result.index ≡ variable_index index }
        ensures number { result.number ≡ var.0 }
    {
        match index {
            BoundVarIndexKind::Bound(index) => Above {
                outer: index.0 as u64 + 1,
                index: index.0 as u64,
                number: var.0 as u64,
                ..Above::begin(flag)
            },
            BoundVarIndexKind::Canonical => Above {
                number: var.0 as u64,
                ..Above::begin(flag.union(TypeFlags::HAS_CANONICAL_BOUND))
            },
        }
    }

    // That of a leaf without flags.
    pub(crate) fn leaf() -> Above
        ensures { IsLeaf result }
    {
        Above::begin(TypeFlags::empty()).over(false)
    }

    // The node itself is counted. It is one higher than its kids, and its binder is one of those that they speak of.
    fn over(self, binds: bool) -> Above
        requires { self.height < 2 ^ 32 }
        ensures height { result.height ≡ self.height + 1 }
        ensures size { result.size ≡ self.size }
        ensures flags { result.flags ≡ self.flags }
        ensures outer { result.outer ≡ (if binds then self.outer - 1 else self.outer) }
        ensures index { result.index ≡ self.index }
        ensures number { result.number ≡ self.number }
    {
        let outer = if binds {
            self.outer.saturating_sub(1)
        } else {
            self.outer
        };
        Above {
            height: self.height + 1,
            outer,
            ..self
        }
    }
}

// The flag of a bound variable of this kind.
fn bound_flag(kind: BoundVarKind) -> TypeFlags
    ensures { bits_of result ≡ bound_flag (variable_seen kind).sort }
{
    match kind {
        BoundVarKind::Ty(_) => TypeFlags::HAS_TY_BOUND,
        BoundVarKind::Region(_) => TypeFlags::HAS_RE_BOUND,
        BoundVarKind::Const => TypeFlags::HAS_CT_BOUND,
    }
}

// The flags of a placeholder of this kind.
fn placeholder_flags(kind: BoundVarKind) -> TypeFlags
    ensures { bits_of result ≡ placeholder_flags (variable_seen kind).sort }
{
    match kind {
        BoundVarKind::Ty(_) => TypeFlags::HAS_TY_PLACEHOLDER,
        BoundVarKind::Region(_) => TypeFlags::HAS_RE_PLACEHOLDER
            .union(TypeFlags::HAS_FREE_REGIONS)
            .union(TypeFlags::HAS_FREE_LOCAL_REGIONS),
        BoundVarKind::Const => TypeFlags::HAS_CT_PLACEHOLDER,
    }
}

// What a node's label is by itself. It goes by the form of the row.
pub(crate) fn node_own(node: &Node) -> Above
    requires { fits_row (node_layer node.now) ≡ true }
    ensures { IsOwn (node_layer node.now).label result }
{
    match node.content {
        Content::Placed(index, number, kind) => {
            if node.word == Word::BoundVariable {
                let index = BoundVarIndexKind::Bound(DebruijnIndex(index));
                Above::variable(index, BoundVar(number), bound_flag(kind))
            } else {
                Above::begin(placeholder_flags(kind))
            }
        }
        Content::Numbered(number, kind) => Above::variable(
            BoundVarIndexKind::Canonical,
            BoundVar(number),
            bound_flag(kind),
        ),
        Content::Bare
        | Content::Number(_)
        | Content::One(_)
        | Content::Two(_, _)
        | Content::ChosenOne(_, _)
        | Content::ChosenTwo(_, _, _)
        | Content::BoundOne(_, _)
        | Content::Signature(_, _, _, _, _)
        | Content::Opened(_, _, _, _) => Above::begin(node.word.flags()),
    }
}

impl Store {
    // The cached info of the part, as what is counted over its tree.
    pub(crate) fn told(&self, part: Part) -> CachedInfo
        requires { IsLive (heap_of self.now.tables) part }
        ensures { Tells (tree_of (heap_of self.now.tables) part) result }
    {
        self.cached(part)
    }

    // One kid more.
    fn with_kid(&self, above: Above, kid: Part) -> Above
        requires live { IsLive (heap_of self.now.tables) kid }
        requires low { above.height < 2 ^ 32 }
        ensures low { result.height < 2 ^ 32 }
        ensures capped { result.size ≤ size_cap }
        ensures kid { WithKids (heap_of self.now.tables) (kid ∷ []) above result }
    {
        let cached = self.cached(kid);
        Above {
            height: above.height.max(cached.height as u64),
            size: above.size.saturating_add(cached.size.get()).min(SIZE_CAP),
            flags: above.flags.union(cached.flags),
            outer: above.outer.max(cached.outer_exclusive_binder.0 as u64),
            ..above
        }
    }

    // The variables that the node binds more. An empty list binds none, and is no flag.
    fn with_variables(&self, above: Above, node: &Node) -> Above
        requires { Each (IsLive (heap_of self.now.tables)) (names_in (node_layer node.now)) }
        ensures variables { WithVariables (heap_of self.now.tables) (node_layer node.now) above result }
        ensures capped { above.size ≤ size_cap → result.size ≤ size_cap }
    {
        let Some(variables) = node.binder() else {
            return above;
        };
        let count = self
            .tables
            .variable_lists
            .key(variables.index as usize)
            .as_slice()
            .len();
        let flags = if count == 0 {
            above.flags
        } else {
            above.flags.union(TypeFlags::HAS_BINDER_VARS)
        };
        Above {
            size: above.size.saturating_add(count as u64).min(SIZE_CAP),
            flags,
            ..above
        }
    }

    // That of the node, whose label by itself is `own`.
    pub(crate) fn above_node(&self, own: Above, node: &Node) -> Above
        requires live { Each (IsLive (heap_of self.now.tables)) (names_in (node_layer node.now)) }
        requires own { IsOwn (node_layer node.now).label own }
        requires bare { IsBare (node_layer node.now) }
        ensures { IsAbove (heap_of self.now.tables) (node_layer node.now) result }
    {
        let bound = self.with_variables(own, node);
        let above = match node.kids() {
            Kids::None => bound,
            Kids::One(kid) => self.with_kid(bound, kid),
            Kids::Two(first, second) => self.with_kid(self.with_kid(bound, first), second),
        };
        above.over(node.binder().is_some())
    }

    // What is kept beside a node that is no part of its own, whose label is no variable's.
    pub(crate) fn told_node(&self, node: &Node) -> CachedInfo
        requires live { Each (IsLive (heap_of self.now.tables)) (names_in (node_layer node.now)) }
        requires plain { IsPlain (node_layer node.now).label }
        ensures { Tells (tree_above (heap_of self.now.tables) (node_layer node.now)) result }
    {
        let above = self.above_node(Above::begin(node.word.flags()), node);
        CachedInfo {
            height: above.height as u32,
            size: CachedSize::new(above.size),
            flags: above.flags,
            outer_exclusive_binder: DebruijnIndex(above.outer as u32),
        }
    }

    // That of a list of types.
    pub(crate) fn above_tys(&self, tys: &[Ty]) -> Above
        requires { Each (IsLive (heap_of self.now.tables)) (names_in (tys_layer tys.now)) }
        ensures { IsAbove (heap_of self.now.tables) (tys_layer tys.now) result }
    {
        let mut above = Above::begin(TypeFlags::empty());
        for ty in tys {
            above = self.with_kid(above, Part::Ty(*ty));
        }
        above.over(false)
    }
}
