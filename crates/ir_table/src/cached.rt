//! The cached info of a term or a value, and the questions that it answers.
ghost use Rattle.ir_core.specs.Flags.{bits_of};
ghost use Rattle.ir_core.specs.declared.handles.Part.{Part as PartSeen};
ghost use Rattle.ir_core.specs.declared.handles.Part.TheVariants as part;
ghost use Rattle.ir_laws.specs.Counts.{flags, height, outer, size};
ghost use Rattle.ir_laws.specs.Flag.{HAS_ERROR};
ghost use Rattle.ir_laws.specs.Heap.{Each, IsLive, size_cap};
ghost use Rattle.ir_table.specs.Cached.{Tells, has_some_of, not_global};
ghost use Rattle.ir_table.specs.Heaps.{heap_of};
ghost use Rattle.ir_table.specs.Interner.{heap};
ghost use Rattle.ir_nodes.specs.Values.{IsTold, binder_value, signature_value, value_names, value_tree};
ghost use Rattle.ir_nodes.specs.declared.values.Value.{Value as ValueSeen};
ghost use Rattle.ir_nodes.specs.declared.values.Value.TheVariants as value;
ghost use Rattle.std.specs.Prelude.{◌≡◌, ◌↔◌, ◌+◌, ◌<◌, IsTrue, None, Some, min, not};

use crate::store::Store;
use crate::{CachedInfo, Interner, Live};
use bitflags::Flags;
use ir_core::{Binder, DebruijnIndex, FnSig, Handle, Part, TypeFlags};
use ir_nodes::{Value, binder_value, signature_value};

// The flags of what only its surroundings give a meaning: those of parameters, variables to be inferred, placeholders, local regions and aliases.
const LOCAL_FLAGS: u32 = 0x7fff;

impl Store {
    // The cached info of a value.
    pub(crate) fn told_value(&self, value: Value) -> CachedInfo
        requires live { Each (IsLive (heap_of self.now.tables)) (value_names value) }
        requires told { IsTold value }
        ensures { Tells (value_tree (heap_of self.now.tables) value) result }
    {
        match value {
            Value::Part(part) => self.told(part),
            Value::Node(node) => self.told_node(&node),
        }
    }
}

/// A term, or a value made of terms, of which flags, outer binder, height and size are cached with its parts, so that no question walks it. All is said of the value that it is.
pub trait Cached: Copy {
    // the value that it is
    ghost value: { Self → ValueSeen };

    /// The value that it is.
    fn as_value(self) -> Value
        ensures value { result ≡ value self }
        ensures told { IsTold result };

    /// All cached info of it, which is kept with a part, or is computed from that of a node's parts.
    final fn info(self, cx: &Interner) -> CachedInfo
        requires { Each (IsLive (heap cx.now)) (value_names (value self)) }
        ensures { Tells (value_tree (heap cx.now) (value self)) result }
    {
        cx.store.told_value(self.as_value())
    }

    /// The flags of all nodes of its tree together.
    final fn flags(self, cx: &Interner) -> TypeFlags
        requires { Each (IsLive (heap cx.now)) (value_names (value self)) }
        ensures { bits_of result ≡ flags (value_tree (heap cx.now) (value self)) }
    {
        self.info(cx).flags
    }

    /// How many binders outside of it it speaks of: one more than the greatest index of a variable that is bound outside.
    final fn outer_exclusive_binder(self, cx: &Interner) -> DebruijnIndex
        requires { Each (IsLive (heap cx.now)) (value_names (value self)) }
        ensures { result.0 ≡ outer (value_tree (heap cx.now) (value self)) }
    {
        self.info(cx).outer_exclusive_binder
    }

    /// The height of its tree: a leaf has height 1, another node one more than its highest kid.
    final fn height(self, cx: &Interner) -> u32
        requires { Each (IsLive (heap cx.now)) (value_names (value self)) }
        ensures { result ≡ height (value_tree (heap cx.now) (value self)) }
    {
        self.info(cx).height
    }

    /// The size of its tree, which ends at 2^48 + 1.
    final fn size(self, cx: &Interner) -> u64
        requires { Each (IsLive (heap cx.now)) (value_names (value self)) }
        ensures { result ≡ min size_cap (size (value_tree (heap cx.now) (value self))) }
    {
        self.info(cx).size.get()
    }

    /// Whether a variable in it is bound by the binder that so many others stand before, or further out.
    final fn has_vars_bound_at_or_above(self, cx: &Interner, binder: DebruijnIndex) -> bool
        requires { Each (IsLive (heap cx.now)) (value_names (value self)) }
        ensures { IsTrue result ↔ (binder.0 < outer (value_tree (heap cx.now) (value self))) }
    {
        self.outer_exclusive_binder(cx).0 > binder.0
    }

    /// Whether a variable in it is bound further out than the binder that so many others stand before.
    final fn has_vars_bound_above(self, cx: &Interner, binder: DebruijnIndex) -> bool
        requires { Each (IsLive (heap cx.now)) (value_names (value self)) }
        ensures { IsTrue result ↔ (binder.0 + 1 < outer (value_tree (heap cx.now) (value self))) }
    {
        self.outer_exclusive_binder(cx).0 as u64 > binder.0 as u64 + 1
    }

    /// Whether a variable in it is bound outside of it.
    final fn has_escaping_bound_vars(self, cx: &Interner) -> bool
        requires { Each (IsLive (heap cx.now)) (value_names (value self)) }
        ensures { IsTrue result ↔ (0 < outer (value_tree (heap cx.now) (value self))) }
    {
        self.has_vars_bound_at_or_above(cx, DebruijnIndex::ZERO)
    }

    /// Whether it holds an error.
    final fn references_error(self, cx: &Interner) -> bool
        requires { Each (IsLive (heap cx.now)) (value_names (value self)) }
        ensures { result ≡ has_some_of HAS_ERROR (flags (value_tree (heap cx.now) (value self))) }
    {
        self.flags(cx).intersects(TypeFlags::HAS_ERROR)
    }

    /// Whether its meaning is the same everywhere: it holds no parameter, variable to be inferred, placeholder, local region or alias.
    final fn is_global(self, cx: &Interner) -> bool
        requires { Each (IsLive (heap cx.now)) (value_names (value self)) }
        ensures { result ≡ not (has_some_of not_global (flags (value_tree (heap cx.now) (value self)))) }
    {
        !self
            .flags(cx)
            .intersects(TypeFlags::from_bits_retain(LOCAL_FLAGS))
    }
}

// A part of any sort.
impl Cached for Part {
    ghost value = { value.Part };

    fn as_value(self) -> Value {
        Value::Part(self)
    }
}

// A handle is the part that it names.
impl<T: Live> Cached for T {
    ghost value = { λ h. value.Part (T.part h) };

    fn as_value(self) -> Value {
        Value::Part(self.as_part())
    }
}

// An opened signature: the node of a function pointer without its binder.
impl Cached for FnSig {
    ghost value = { λ s. signature_value s None };

    fn as_value(self) -> Value {
        signature_value(self, None)
    }
}

// A signature under its binder: the node of a function pointer.
impl Cached for Binder<FnSig> {
    ghost value = { λ b. signature_value b.value (Some b.bound_vars) };

    fn as_value(self) -> Value {
        signature_value(self.skip_binder(), Some(self.bound_vars()))
    }
}

// A handle under a binder: a node that binds over the handle's term alone.
impl<T: Live> Cached for Binder<T> {
    ghost value = { λ b. binder_value b.bound_vars (T.part b.value) };

    fn as_value(self) -> Value {
        binder_value(self.bound_vars(), self.skip_binder().as_part())
    }
}
