//! Bound variables: what a binder says of each of its variables, and how a term names one.
ghost use Rattle.std.specs.Prelude.{◌≡◌, ◌↔◌, None, IsSome, IsTrue};
ghost use Rattle.ir_core.specs.Variables.{IsRegionVariable, IsTypeVariable, region_name};
ghost use Rattle.ir_core.specs.declared.variables.BoundRegionKind.TheVariants.{ClosureEnv};
ghost use Rattle.ir_core.specs.declared.variables.BoundVarKind.TheVariants as variable;

use crate::{BoundVar, DebruijnIndex, SolverDefId, UniverseIndex};

/// Which binder binds a variable.
#[derive(Clone, Copy, PartialEq, Eq, Hash, Debug)]
pub enum BoundVarIndexKind {
    /// The binder with this index, counted from the variable outwards.
    Bound(DebruijnIndex),
    /// The binder of a canonical query, which stands outside of the whole term.
    Canonical,
}

/// What a bound type is called.
#[derive(Clone, Copy, PartialEq, Eq, Hash, Debug)]
pub enum BoundTyKind {
    Anon,
    /// Declared by this item.
    Param(SolverDefId),
}

/// What a bound region is called.
#[derive(Clone, Copy, PartialEq, Eq, Hash, Debug)]
pub enum BoundRegionKind {
    Anon,
    /// Declared by this item.
    Named(SolverDefId),
    /// The region of a closure's environment, through which its body reaches what it captured.
    ClosureEnv,
}

impl BoundRegionKind {
    /// Whether an item declares it.
    pub fn is_named(&self) -> bool
        ensures { IsTrue result ↔ IsSome (region_name self.now) }
    {
        matches!(self, BoundRegionKind::Named(_))
    }

    /// None, since no region keeps its name as a text.
    pub fn get_name(&self) -> Option<()>
        ensures { result ≡ None }
    {
        None
    }

    /// The item that declares it.
    pub fn get_id(&self) -> Option<SolverDefId>
        ensures { result ≡ region_name self.now }
    {
        match self {
            BoundRegionKind::Named(id) => Some(*id),
            BoundRegionKind::Anon | BoundRegionKind::ClosureEnv => None,
        }
    }
}

/// What a variable of a binder is. The default fills the unused places of a short list.
#[derive(Clone, Copy, PartialEq, Eq, Hash, Debug)]
pub enum BoundVarKind {
    Ty(BoundTyKind),
    Region(BoundRegionKind),
    Const,
}

impl Default for BoundVarKind {
    ghost is_default = { λ k. k ≡ variable.Region ClosureEnv };

    fn default() -> BoundVarKind {
        BoundVarKind::Region(BoundRegionKind::ClosureEnv)
    }
}

impl BoundVarKind {
    /// What the variable is called, which is a region.
    pub fn expect_region(self) -> BoundRegionKind
        requires { IsRegionVariable self }
        ensures { self ≡ BoundVarKind.Region result }
    {
        match self {
            BoundVarKind::Region(kind) => kind,
            _ => unreachable!(),
        }
    }

    /// What the variable is called, which is a type.
    pub fn expect_ty(self) -> BoundTyKind
        requires { IsTypeVariable self }
        ensures { self ≡ BoundVarKind.Ty result }
    {
        match self {
            BoundVarKind::Ty(kind) => kind,
            _ => unreachable!(),
        }
    }

    /// Says at this place that the variable is a constant, and does nothing.
    pub fn expect_const(self)
        requires { self ≡ BoundVarKind.Const }
    {
        match self {
            BoundVarKind::Const => (),
            _ => unreachable!(),
        }
    }
}

/// A type that a binder binds: its number among the binder's variables, and what it is called.
#[derive(Clone, Copy, PartialEq, Eq, Hash, Debug)]
pub struct BoundTy {
    pub var: BoundVar,
    pub kind: BoundTyKind,
}

impl BoundTy {
    /// Its number among the binder's variables.
    pub fn var(self) -> BoundVar
        ensures { result ≡ self.var }
    {
        self.var
    }

    /// Says at this place that the binder's list has the variable with this kind, and does nothing.
    pub fn assert_eq(self, var: BoundVarKind)
        requires { var ≡ BoundVarKind.Ty self.kind }
    {
        let kind = var.expect_ty();
        prove_eq!(self.kind, kind);
    }
}

/// A region that a binder binds: its number among the binder's variables, and what it is called.
#[derive(Clone, Copy, PartialEq, Eq, Hash, Debug)]
pub struct BoundRegion {
    pub var: BoundVar,
    pub kind: BoundRegionKind,
}

impl BoundRegion {
    /// Its number among the binder's variables.
    pub fn var(self) -> BoundVar
        ensures { result ≡ self.var }
    {
        self.var
    }

    /// Says at this place that the binder's list has the variable with this kind, and does nothing.
    pub fn assert_eq(self, var: BoundVarKind)
        requires { var ≡ BoundVarKind.Region self.kind }
    {
        let kind = var.expect_region();
        prove_eq!(self.kind, kind);
    }
}

/// A constant that a binder binds: its number among the binder's variables.
#[derive(Clone, Copy, PartialEq, Eq, Hash, Debug)]
pub struct BoundConst {
    pub var: BoundVar,
}

impl BoundConst {
    /// Its number among the binder's variables.
    pub fn var(self) -> BoundVar
        ensures { result ≡ self.var }
    {
        self.var
    }

    /// Says at this place that the binder's list has a constant there, and does nothing.
    pub fn assert_eq(self, var: BoundVarKind)
        requires { var ≡ BoundVarKind.Const }
    {
        var.expect_const();
    }
}

/// What stands for a bound variable once its binder was opened for any value: the universe in which that was, and the variable.
#[derive(Clone, Copy, PartialEq, Eq, Hash, Debug)]
pub struct Placeholder<T> {
    pub universe: UniverseIndex,
    pub bound: T,
}

/// A type that stands for any.
pub type PlaceholderTy = Placeholder<BoundTy>;

/// A region that stands for any.
pub type PlaceholderRegion = Placeholder<BoundRegion>;

/// A constant that stands for any.
pub type PlaceholderConst = Placeholder<BoundConst>;

#[cfg(test)]
mod tests {
    use super::*;
    use crate::{AdtId, StructId};

    const ITEM: SolverDefId = SolverDefId::AdtId(AdtId::StructId(StructId(3)));

    #[test]
    fn only_named_regions_have_an_item(rt: HostRuntime) {
        for (kind, item) in [
            (BoundRegionKind::Anon, None),
            (BoundRegionKind::Named(ITEM), Some(ITEM)),
            (BoundRegionKind::ClosureEnv, None),
        ] {
            assert_eq!(rt; kind.is_named(), item.is_some(), "at {kind:?}");
            assert_eq!(rt; kind.get_name(), None, "at {kind:?}");
            assert_eq!(rt; kind.get_id(), item, "at {kind:?}");
        }
    }

    #[test]
    fn variables_are_what_their_binder_says(rt: HostRuntime) {
        let var = BoundVar(2);
        let ty = BoundTy {
            var,
            kind: BoundTyKind::Param(ITEM),
        };
        let region = BoundRegion {
            var,
            kind: BoundRegionKind::Named(ITEM),
        };
        let constant = BoundConst { var };
        assert_eq!(rt; (ty.var(), region.var(), constant.var()), (var, var, var));
        ty.assert_eq(BoundVarKind::Ty(ty.kind));
        region.assert_eq(BoundVarKind::Region(region.kind));
        constant.assert_eq(BoundVarKind::Const);
        assert_eq!(rt; BoundVarKind::Ty(ty.kind).expect_ty(), ty.kind);
        assert_eq!(rt;
            BoundVarKind::Region(region.kind).expect_region(),
            region.kind
        );
        assert_eq!(rt;
            BoundVarKind::default().expect_region(),
            BoundRegionKind::ClosureEnv
        );
    }

    #[test]
    fn placeholders_are_told_by_their_universe(rt: HostRuntime) {
        let bound = BoundConst { var: BoundVar(2) };
        let in_universe = |n: u32| Placeholder {
            universe: UniverseIndex(n),
            bound,
        };
        assert_eq!(rt; in_universe(0).universe, UniverseIndex::ROOT);
        assert_ne!(rt; in_universe(0), in_universe(1));
    }

    #[test]
    fn the_nearest_binder_has_index_zero(rt: HostRuntime) {
        assert_eq!(rt; DebruijnIndex::ZERO, DebruijnIndex(0));
        assert_ne!(rt;
            BoundVarIndexKind::Bound(DebruijnIndex::ZERO),
            BoundVarIndexKind::Canonical
        );
    }
}
