//! Lists that are kept once: of types, of the variables that a binder binds, and of variances.
ghost use Rattle.ir_core.specs.declared.handles.Part.TheVariants as part;
ghost use Rattle.ir_core.specs.declared.handles.Ty.{Ty as TySeen};
ghost use Rattle.ir_laws.specs.Counts.{outer};
ghost use Rattle.ir_laws.specs.Heap.{Each, HasNode, IsLive, names_in};
ghost use Rattle.ir_table.specs.Heaps.{heap_of};
ghost use Rattle.ir_table.specs.Interner.{HasTypes, heap, rises, stored};
ghost use Rattle.ir_nodes.specs.Nodes.{tys_layer, variables_layer, variances_layer};
ghost use Rattle.ir_table.specs.State.{NewAnswers};
ghost use Rattle.ir_nodes.specs.Values.{value_names, value_tree};
ghost use Rattle.std.specs.Prelude.{◌≡◌, ◌++◌, ◌<◌, [], ◌∷◌, length, List};

use crate::store::Store;
use crate::{Cached, InternList, Interner, ListKey, Live, Member};
use ir_core::{
    Binder, BoundExistentialPredicates, BoundVarKind, BoundVarKinds, Clauses, GenericArgs, PatList,
    R, RegionAssumptions, Ty, Tys, Variance, VariancesOf,
};
use smallvec::SmallVec;

impl Member for Ty {
    ghost use Rattle.ir_nodes.specs.ExactNode.{types_told};
    ghost use Rattle.ir_nodes.specs.Nodes.{tys_layer};
    ghost use Rattle.std.proofs.Common.{rules};

    ghost list_layer = { tys_layer };

    ghost exact = { Prim.search rules };

    ghost told = { types_told };
}

impl Member for BoundVarKind {
    ghost use Rattle.ir_nodes.specs.ExactNode.{variables_told};
    ghost use Rattle.ir_nodes.specs.Nodes.{variables_layer};
    ghost use Rattle.std.proofs.Common.{rules};

    ghost list_layer = { variables_layer };

    ghost exact = { Prim.search rules };

    ghost told = { variables_told };
}

impl Member for Variance {
    ghost use Rattle.ir_nodes.specs.ExactNode.{variances_told};
    ghost use Rattle.ir_nodes.specs.Nodes.{variances_layer};
    ghost use Rattle.std.proofs.Common.{rules};

    ghost list_layer = { variances_layer };

    ghost exact = { Prim.search rules };

    ghost told = { variances_told };
}

impl Store {
    // The list of the types.
    pub(crate) fn tys(&mut self, items: &[Ty]) -> R<Tys>
        requires { Each (IsLive (heap_of self.old.tables)) (names_in (tys_layer items.now)) }
        ensures answers { NewAnswers part.Tys (stored self.old) (stored self.new) (tys_layer items.now) result }
        ensures asked { self.new.asked ≡ rises self.old.asked }
    {
        let index = self.make_list::<SmallVec<Ty, 8>>(items)?;
        Ok(Tys { index })
    }

    // The list of the variables.
    pub(crate) fn variables(&mut self, items: &[BoundVarKind]) -> R<BoundVarKinds>
        ensures answers { NewAnswers part.BoundVarKinds (stored self.old) (stored self.new) (variables_layer items.now) result }
        ensures asked { self.new.asked ≡ rises self.old.asked }
    {
        let index = self.make_list::<SmallVec<BoundVarKind, 8>>(items)?;
        Ok(BoundVarKinds { index })
    }

    // The list of the variances.
    pub(crate) fn variances(&mut self, items: &[Variance]) -> R<VariancesOf>
        ensures answers { NewAnswers part.VariancesOf (stored self.old) (stored self.new) (variances_layer items.now) result }
        ensures asked { self.new.asked ≡ rises self.old.asked }
    {
        let index = self.make_list::<SmallVec<Variance, 8>>(items)?;
        Ok(VariancesOf { index })
    }
}

impl Live for Tys {}

impl Live for BoundVarKinds {}

impl Live for VariancesOf {}

impl Live for GenericArgs {}

impl Live for PatList {}

impl Live for BoundExistentialPredicates {}

impl Live for Clauses {}

impl Live for RegionAssumptions {}

impl InternList for Tys {
    type Item = Ty;

    ghost list_layer = { tys_layer };

    fn empty(cx: &Interner) -> Tys {
        cx.defaults.empty.tys
    }

    fn new_from_slice(cx: &mut Interner, items: &[Ty]) -> R<Tys> {
        cx.store.tys(items)
    }

    fn as_slice<'a>(self, cx: &'a Interner) -> &'a [Ty] {
        cx.store
            .tables
            .type_lists
            .key(self.index as usize)
            .as_slice()
    }
}

impl InternList for BoundVarKinds {
    type Item = BoundVarKind;

    ghost list_layer = { variables_layer };

    fn empty(cx: &Interner) -> BoundVarKinds {
        cx.defaults.empty.bound_var_kinds
    }

    fn new_from_slice(cx: &mut Interner, items: &[BoundVarKind]) -> R<BoundVarKinds> {
        cx.store.variables(items)
    }

    fn as_slice<'a>(self, cx: &'a Interner) -> &'a [BoundVarKind] {
        cx.store
            .tables
            .variable_lists
            .key(self.index as usize)
            .as_slice()
    }
}

impl InternList for VariancesOf {
    type Item = Variance;

    ghost list_layer = { variances_layer };

    fn empty(cx: &Interner) -> VariancesOf {
        cx.defaults.empty.variances
    }

    fn new_from_slice(cx: &mut Interner, items: &[Variance]) -> R<VariancesOf> {
        cx.store.variances(items)
    }

    fn as_slice<'a>(self, cx: &'a Interner) -> &'a [Variance] {
        cx.store
            .tables
            .variance_lists
            .key(self.index as usize)
            .as_slice()
    }
}

/// The types of the list but for the last: what a function takes, where the list has that and what it gives.
pub fn inputs(cx: &Interner, tys: Tys) -> &[Ty]
    requires live { IsLive (heap cx.now) (part.Tys tys) }
    requires some { (all : List TySeen) × HasTypes cx.now tys all × (0 < length all) }
    ensures { (last : TySeen) × HasTypes cx.now tys (result.now ++ last ∷ []) }
{
    let all = tys.as_slice(cx);
    &all[..all.len() - 1]
}

/// The last type of the list: what a function gives, where the list has what it takes and that.
pub fn output(cx: &Interner, tys: Tys) -> Ty
    requires live { IsLive (heap cx.now) (part.Tys tys) }
    requires some { (all : List TySeen) × HasTypes cx.now tys all × (0 < length all) }
    ensures { (front : List TySeen) × HasTypes cx.now tys (front ++ result ∷ []) }
{
    let all = tys.as_slice(cx);
    all[all.len() - 1]
}

/// The value under a binder of no variables. It must speak of no binder outside of it, since it would then speak of this one.
pub fn dummy<T: Cached>(cx: &Interner, value: T) -> Binder<T>
    requires live { Each (IsLive (heap cx.now)) (value_names (T.value value)) }
    requires closed { outer (value_tree (heap cx.now) (T.value value)) ≡ 0 }
    ensures value { result.value ≡ value }
    ensures variables { HasNode (heap cx.now) (part.BoundVarKinds result.bound_vars) (variables_layer []) }
{
    Binder::bind_with_vars(value, BoundVarKinds::empty(cx))
}
