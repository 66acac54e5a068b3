//! The test whether the variables of a term are those that their binders list.
ghost use Rattle.ir_core.specs.declared.errors.TermError.TheVariants.{Memory};
ghost use Rattle.ir_core.specs.declared.handles.Part.{Part as PartSeen};
ghost use Rattle.ir_laws.specs.Causes.{are_listed};
ghost use Rattle.ir_laws.specs.Heap.{Each, Heap, IsLive, forest, kid_names, names_in, tree_above, tree_of};
ghost use Rattle.ir_laws.specs.Listed.{
  all_fit_binder,
  all_listed_within,
  fits_binder,
  listed_within,
};
ghost use Rattle.ir_laws.specs.Tree.{Var};
ghost use Rattle.ir_table.specs.Interner.{heap};
ghost use Rattle.ir_nodes.specs.Layers.{layer_seen};
ghost use Rattle.ir_nodes.specs.Nodes.{variable_seen};
ghost use Rattle.ir_table.specs.Listed.{AreFit, AreListed};
ghost use Rattle.std.specs.Prelude.{◌≡◌, ◌<◌, [], Err, IfOk, None, OnErr, OnOk, map as mapped};

use crate::{Cached, InternList, Interner};
use bitflags::Flags;
use indexmap::IndexSet;
use ir_core::{BoundVar, BoundVarKind, DebruijnIndex, Part, R, TypeFlags};
use ir_nodes::Layer;
use std::alloc::Global;

// The flags of bound variables.
const BOUND_FLAGS: u32 = 0xe_0000;

/// The parts that were found to hold no binder that doesn't list its own variables. A part's tree never changes, so what is known of it stays so while an interner grows.
#[derive(Drop)]
pub struct Listed {
    parts: IndexSet<Part>,
}

impl Listed {
    /// No parts, which takes no memory.
    pub fn new(alloc: Global) -> Listed
        ensures { (h : Heap PartSeen) → AreListed h result }
    {
        Listed {
            parts: IndexSet::new(alloc),
        }
    }
}

// A part, and how many binders stand between it and the one whose variables are looked at.
#[derive(Clone, Copy, PartialEq, Eq, Hash, Debug)]
struct Place {
    part: Part,
    depth: u32,
}

/// Whether each variable in the part's term that is bound there has a number and a kind that its binder lists. A variable that is bound outside of the term is not looked at. Each binder that was not yet known is looked at by itself, and it may be refused for want of memory alone.
pub fn variables_are_listed(
    alloc: Global,
    cx: &Interner,
    part: Part,
    listed: &mut Listed,
) -> R<bool>
    requires live { IsLive (heap cx.now) part }
    requires listed { AreListed (heap cx.now) listed.old }
    ensures ok { IfOk result (λ all. all ≡ are_listed [] (tree_of (heap cx.now) part)) }
    ensures err { OnErr result (result ≡ Err Memory) }
    ensures listed { OnOk result (AreListed (heap cx.now) listed.new) }
{
    part_is_within(alloc, cx, part, listed)
}

// Whether each binder in the part lists its own variables.
#[cycle(within)]
fn part_is_within(alloc: Global, cx: &Interner, part: Part, listed: &mut Listed) -> R<bool>
    requires live { IsLive (heap cx.now) part }
    requires listed { AreListed (heap cx.now) listed.old }
    ensures ok { IfOk result (λ all. all ≡ listed_within (tree_of (heap cx.now) part)) }
    ensures err { OnErr result (result ≡ Err Memory) }
    ensures listed { OnOk result (AreListed (heap cx.now) listed.new) }
{
    if !part
        .flags(cx)
        .intersects(TypeFlags::from_bits_retain(BOUND_FLAGS))
    {
        return Ok(true);
    }
    if listed.parts.contains(&part) {
        return Ok(true);
    }
    if !layer_is_within(alloc, cx, cx.layer(part), listed)? {
        return Ok(false);
    }
    listed.parts.insert(part)?;
    Ok(true)
}

// The same, from what the part is: its own binder, and then those in its kids.
#[cycle(within)]
fn layer_is_within(alloc: Global, cx: &Interner, layer: Layer<'_>, listed: &mut Listed) -> R<bool>
    requires live { Each (IsLive (heap cx.now)) (names_in (layer_seen layer)) }
    requires listed { AreListed (heap cx.now) listed.old }
    ensures ok { IfOk result (λ all. all ≡ listed_within (tree_above (heap cx.now) (layer_seen layer.entry))) }
    ensures err { OnErr result (result ≡ Err Memory) }
    ensures listed { OnOk result (AreListed (heap cx.now) listed.new) }
{
    if let Some(variables) = layer.binder() {
        let own = variables.as_slice(cx);
        if !kids_fit(cx, own, layer, 0, &mut IndexSet::new(alloc))? {
            return Ok(false);
        }
    }
    kids_are_within(alloc, cx, layer, listed)
}

// The same of each of its kids.
#[cycle(within)]
fn kids_are_within(alloc: Global, cx: &Interner, layer: Layer<'_>, listed: &mut Listed) -> R<bool>
    requires live { Each (IsLive (heap cx.now)) (kid_names (layer_seen layer).kids) }
    requires listed { AreListed (heap cx.now) listed.old }
    ensures ok { IfOk result (λ all. all ≡ all_listed_within (forest (tree_of (heap cx.now)) (kid_names (layer_seen layer.entry).kids))) }
    ensures err { OnErr result (result ≡ Err Memory) }
    ensures listed { OnOk result (AreListed (heap cx.now) listed.new) }
{
    for index in 0..layer.kid_count() {
        if !part_is_within(alloc, cx, layer.kid(index), listed)? {
            return Ok(false);
        }
    }
    Ok(true)
}

// Whether the binder that stands so many binders further out lists its variables in the part. It walks the part down to what speaks of no binder so far out; the places of `known` were found to fit.
#[cycle(fit)]
fn part_fits(
    cx: &Interner,
    variables: &[BoundVarKind],
    part: Part,
    depth: u32,
    known: &mut IndexSet<Place>,
) -> R<bool>
    requires live { IsLive (heap cx.now) part }
    requires known { AreFit (heap cx.now) (mapped variable_seen variables.now) known.old }
    ensures ok { IfOk result (λ fits. fits ≡ fits_binder (mapped variable_seen variables.now) depth (tree_of (heap cx.now) part)) }
    ensures err { OnErr result (result ≡ Err Memory) }
    ensures known { OnOk result (AreFit (heap cx.now) (mapped variable_seen variables.now) known.new) }
{
    let outer = part.outer_exclusive_binder(cx).0;
    if outer <= depth {
        return Ok(true);
    }
    let place = Place { part, depth };
    if known.contains(&place) {
        return Ok(true);
    }
    if !layer_fits(cx, variables, cx.layer(part), depth, known)? {
        return Ok(false);
    }
    known.insert(place)?;
    Ok(true)
}

// The same, from what the part is.
#[cycle(fit)]
fn layer_fits(
    cx: &Interner,
    variables: &[BoundVarKind],
    layer: Layer<'_>,
    depth: u32,
    known: &mut IndexSet<Place>,
) -> R<bool>
    requires live { Each (IsLive (heap cx.now)) (names_in (layer_seen layer)) }
    requires room { depth < u32.MAX }
    requires known { AreFit (heap cx.now) (mapped variable_seen variables.now) known.old }
    ensures ok { IfOk result (λ fits. fits ≡ fits_binder (mapped variable_seen variables.now) depth (tree_above (heap cx.now) (layer_seen layer.entry))) }
    ensures err { OnErr result (result ≡ Err Memory) }
    ensures known { OnOk result (AreFit (heap cx.now) (mapped variable_seen variables.now) known.new) }
{
    if let Some((index, var, kind)) = layer.bound_variable() {
        return Ok(variable_fits(variables, depth, index, var, kind));
    }
    if layer.binder().is_some() {
        kids_fit(cx, variables, layer, depth + 1, known)
    } else {
        kids_fit(cx, variables, layer, depth, known)
    }
}

// The same of each of its kids.
#[cycle(fit)]
fn kids_fit(
    cx: &Interner,
    variables: &[BoundVarKind],
    layer: Layer<'_>,
    depth: u32,
    known: &mut IndexSet<Place>,
) -> R<bool>
    requires live { Each (IsLive (heap cx.now)) (kid_names (layer_seen layer).kids) }
    requires known { AreFit (heap cx.now) (mapped variable_seen variables.now) known.old }
    ensures ok { IfOk result (λ fit. fit ≡ all_fit_binder (mapped variable_seen variables.now) depth (forest (tree_of (heap cx.now)) (kid_names (layer_seen layer.entry).kids))) }
    ensures err { OnErr result (result ≡ Err Memory) }
    ensures known { OnOk result (AreFit (heap cx.now) (mapped variable_seen variables.now) known.new) }
{
    for index in 0..layer.kid_count() {
        if !part_fits(cx, variables, layer.kid(index), depth, known)? {
            return Ok(false);
        }
    }
    Ok(true)
}

// The same of a variable: if it is of this binder, its number and its kind are looked up.
fn variable_fits(
    variables: &[BoundVarKind],
    depth: u32,
    index: DebruijnIndex,
    var: BoundVar,
    kind: BoundVarKind,
) -> bool
    ensures { result ≡ fits_binder (mapped variable_seen variables.now) depth (Var index.0 var.0 (variable_seen kind)) }
{
    if index.0 != depth {
        return true;
    }
    match variables.get(var.0 as usize) {
        Some(listed) => *listed == kind,
        None => false,
    }
}
