//! The stages of a line's terms: their names, their sorts, and the limits and the variable lists of what is made of them.
ghost use Rattle.ir_core.specs.declared.errors.TermError.TheVariants.{Memory};
ghost use Rattle.ir_core.specs.declared.handles.Part.{Part as PartSeen};
ghost use Rattle.ir_laws.specs.Causes.{are_listed};
ghost use Rattle.ir_laws.specs.Elaboration.{all_fit};
ghost use Rattle.ir_laws.specs.Heap.{Each, Heap, IsLive, tree_of};
ghost use Rattle.ir_laws.specs.Held.{HoldsJust};
ghost use Rattle.ir_laws.specs.Tree.{Term};
ghost use Rattle.ir_script.specs.Scope.{AreTerms, env_of, scope_names};
ghost use Rattle.ir_script.specs.Kept.{IsKept};
ghost use Rattle.ir_script.specs.Staged.{AreOperands, FitOperands, MakesTerms, StandTerms};
ghost use Rattle.ir_syntax.specs.Steps.{AreAmple, built, only};
ghost use Rattle.ir_table.specs.Interner.{heap, state};
ghost use Rattle.ir_table.specs.Listed.{AreListed};
ghost use Rattle.std.specs.Prelude.{◌≡◌, [], Err, List, IfOk, OnErr, OnOk, map as mapped};

use crate::builder::Builder;
use crate::causes::Cause;
use crate::names::Names;
use crate::scope::Scope;
use crate::sorts::{Pending, misfit};
use ir_core::{Part, R};
use ir_syntax::Step;
use ir_table::{Interner, Listed, variables_are_listed};
use std::alloc::Global;

// More steps than a line of a usual length has.
const MANY_STEPS: usize = 1 << 16;

/// What the stages keep from line to line, so that a line takes no memory of its own.
#[derive(Drop)]
pub(crate) struct Stages {
    names: Names,
    pending: Vec<Pending>,
    builder: Builder,
    listed: Listed,
}

/// Whether the variables of each part's term are those that their binders list.
fn all_are_listed(alloc: Global, cx: &Interner, parts: &[Part], listed: &mut Listed) -> R<bool>
    requires live { Each (IsLive (heap cx.now)) parts.now }
    requires listed { AreListed (heap cx.now) listed.old }
    ensures ok { IfOk result (λ all. all ≡ all_fit (are_listed []) (mapped (tree_of (heap cx.now)) parts.now)) }
    ensures err { OnErr result (result ≡ Err Memory) }
    ensures listed { OnOk result (AreListed (heap cx.now) listed.new) }
{
    for part in parts {
        if !variables_are_listed(alloc, cx, *part, listed)? {
            return Ok(false);
        }
    }
    Ok(true)
}

/// Gives the memory of steps back that are no longer needed, where it is much: the same steps are there resolved, and what is made of them takes as much again.
fn give_back(alloc: Global, steps: &mut Vec<Step<'_>>) {
    if steps.len() > MANY_STEPS {
        *steps = Vec::new(alloc);
    }
}

impl Stages {
    /// Stages that have seen no line, which takes no memory.
    pub(crate) fn new(alloc: Global) -> Stages
        ensures { (h : Heap PartSeen) → IsKept h result }
    {
        Stages {
            names: Names::new(alloc),
            pending: Vec::new(alloc),
            builder: Builder::new(alloc),
            listed: Listed::new(alloc),
        }
    }

    /// The parts of the terms that were made last.
    pub(crate) fn parts(&self) -> &[Part]
        ensures { result.now ≡ self.now.builder.parts.items }
    {
        &self.builder.parts
    }

    /// The stages of names and sorts. Terms that are to be alike are to have one sort.
    fn fit(&mut self, scope: &Scope<'_>, steps: &[Step<'_>], alike: bool) -> Result<(), Cause>
        requires operands { AreOperands (built steps.now) }
        requires ample { AreAmple (only []) steps.now }
        ensures fits { (h : Heap PartSeen) → AreTerms h (scope_names scope.now) → FitOperands (env_of h (scope_names scope.now)) (scope_names scope.now) alike self.new.names.resolved.items (built steps.now).terms result }
        ensures listed { self.new.listed ≡ self.old.listed }
        ensures builder { self.new.builder ≡ self.old.builder }
    {
        self.names.resolve(scope, steps)?;
        let are_alike = misfit(&mut self.pending, &self.names.resolved)?;
        if alike && !are_alike {
            return Err(Cause::Sort);
        }
        Ok(())
    }

    /// Makes the terms that the steps build, unless a stage meets a cause. Their parts are then those of `parts`. The steps are of no use then.
    pub(crate) fn make(
        &mut self,
        alloc: Global,
        cx: &mut Interner,
        scope: &Scope<'_>,
        steps: &mut Vec<Step<'_>>,
        alike: bool,
    ) -> Result<(), Cause>
        requires operands { AreOperands (built steps.old.items) }
        requires ample { AreAmple (only []) steps.old.items }
        requires terms { AreTerms (heap cx.old) (scope_names scope.now) }
        requires kept { IsKept (heap cx.old) self.old }
        ensures makes { (held : List Term) → HoldsJust (heap cx.old) held → MakesTerms alike (built steps.old.items).terms (scope_names scope.now) held (state cx.old) (state cx.new) self.new.builder.parts.items result }
        ensures stand { StandTerms (scope_names scope.now) (built steps.old.items).terms (state cx.old) (state cx.new) self.new.builder.parts.items result }
        ensures kept { OnOk result (IsKept (heap cx.new) self.new) }
    {
        self.fit(scope, steps, alike)?;
        give_back(alloc, steps);
        self.builder.build(cx, &self.names.resolved)?;
        if !all_are_listed(alloc, cx, &self.builder.parts, &mut self.listed)? {
            return Err(Cause::Unlisted);
        }
        Ok(())
    }
}
