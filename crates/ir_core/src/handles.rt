//! Handles: small typed numbers, each of which stands for a whole term of an interner.
ghost use Rattle.ir_core.specs.declared.handles.Part.TheVariants as part;
ghost use Rattle.ir_core.specs.declared.handles.Part.{Part};
ghost use Rattle.ir_core.specs.declared.handles.PartSort.{PartSort};
ghost use Rattle.ir_core.specs.declared.handles.PartSort.TheVariants as sort;
ghost use Rattle.ir_core.specs.Parts.{index_in, part_at, sort_in};
ghost use Rattle.std.proofs.Common.{refl};
ghost use Rattle.std.specs.Prelude.{◌≡◌, ℕ};

/// A handle, which names a part. It borrows nothing from the interner whose part that is, so it is kept as it is.
pub trait Handle: Copy {
    // the sort of the parts that such handles name
    ghost sort: { PartSort };

    // its number
    ghost number: { Self → ℕ };

    // the part that it names
    ghost part: { Self → Part };

    /// The handle of this number among those of its sort, counted from 0. No interner need have it.
    fn from_index(n: u32) -> Self
        ensures { number result ≡ n };

    /// Its number among the handles of its sort, counted from 0.
    fn index(self) -> u32
        ensures { result ≡ number self };

    /// The part that it names.
    fn as_part(self) -> Part
        ensures { result ≡ part self };

    // two handles of one sort with one number are one handle
    ghost number_injective: { (x y : Self) → number x ≡ number y → x ≡ y };

    // two handles of one part are one handle
    ghost part_injective: { (x y : Self) → part x ≡ part y → x ≡ y };

    // the part is that of its sort and its number
    ghost part_is: { (x : Self) → part x ≡ part_at sort (number x) };

    /// The handle as it is kept: itself.
    final fn store(self) -> Self
        ensures { result ≡ self }
    {
        self
    }

    /// The handle that is kept: itself.
    final fn as_ref(&self) -> Self
        ensures { result ≡ self.now }
    {
        *self
    }
}

/// A type. The default is the first one, and fills the unused places of a short list.
#[derive(Clone, Copy, PartialEq, Eq, Hash, Debug, Default)]
pub struct Ty {
    /// Where its node stands among the interner's nodes, counted from 0.
    pub index: u32,
}

/// A type, as it is kept.
pub type StoredTy = Ty;

impl Handle for Ty {
    ghost sort = { sort.Ty };

    ghost number = { λ h. h.index };

    ghost part = { part.Ty };

    ghost number_injective = { λ x y e i. record { index = e i } };

    ghost part_injective = { λ x y e. Prim.cc e };

    ghost part_is = { λ x. refl };

    fn from_index(n: u32) -> Ty {
        Ty { index: n }
    }

    fn index(self) -> u32 {
        self.index
    }

    fn as_part(self) -> Part {
        Part::Ty(self)
    }
}

/// A constant.
#[derive(Clone, Copy, PartialEq, Eq, Hash, Debug)]
pub struct Const {
    /// Where its node stands among the interner's nodes, counted from 0.
    pub index: u32,
}

/// A constant, as it is kept.
pub type StoredConst = Const;

impl Handle for Const {
    ghost sort = { sort.Const };

    ghost number = { λ h. h.index };

    ghost part = { part.Const };

    ghost number_injective = { λ x y e i. record { index = e i } };

    ghost part_injective = { λ x y e. Prim.cc e };

    ghost part_is = { λ x. refl };

    fn from_index(n: u32) -> Const {
        Const { index: n }
    }

    fn index(self) -> u32 {
        self.index
    }

    fn as_part(self) -> Part {
        Part::Const(self)
    }
}

/// A region, which is a lifetime.
#[derive(Clone, Copy, PartialEq, Eq, Hash, Debug)]
pub struct Region {
    /// Where its node stands among the interner's nodes, counted from 0.
    pub index: u32,
}

/// A region, as it is kept.
pub type StoredRegion = Region;

impl Handle for Region {
    ghost sort = { sort.Region };

    ghost number = { λ h. h.index };

    ghost part = { part.Region };

    ghost number_injective = { λ x y e i. record { index = e i } };

    ghost part_injective = { λ x y e. Prim.cc e };

    ghost part_is = { λ x. refl };

    fn from_index(n: u32) -> Region {
        Region { index: n }
    }

    fn index(self) -> u32 {
        self.index
    }

    fn as_part(self) -> Part {
        Part::Region(self)
    }
}

/// A list of types.
#[derive(Clone, Copy, PartialEq, Eq, Hash, Debug)]
pub struct Tys {
    /// Where its node stands among the interner's lists of types, counted from 0.
    pub index: u32,
}

/// A list of types, as it is kept.
pub type StoredTys = Tys;

impl Handle for Tys {
    ghost sort = { sort.Tys };

    ghost number = { λ h. h.index };

    ghost part = { part.Tys };

    ghost number_injective = { λ x y e i. record { index = e i } };

    ghost part_injective = { λ x y e. Prim.cc e };

    ghost part_is = { λ x. refl };

    fn from_index(n: u32) -> Tys {
        Tys { index: n }
    }

    fn index(self) -> u32 {
        self.index
    }

    fn as_part(self) -> Part {
        Part::Tys(self)
    }
}

/// A list of generic arguments: types, regions and constants.
#[derive(Clone, Copy, PartialEq, Eq, Hash, Debug)]
pub struct GenericArgs {
    /// Where its node stands among the interner's lists of arguments, counted from 0.
    pub index: u32,
}

/// A list of generic arguments, as it is kept.
pub type StoredGenericArgs = GenericArgs;

impl Handle for GenericArgs {
    ghost sort = { sort.GenericArgs };

    ghost number = { λ h. h.index };

    ghost part = { part.GenericArgs };

    ghost number_injective = { λ x y e i. record { index = e i } };

    ghost part_injective = { λ x y e. Prim.cc e };

    ghost part_is = { λ x. refl };

    fn from_index(n: u32) -> GenericArgs {
        GenericArgs { index: n }
    }

    fn index(self) -> u32 {
        self.index
    }

    fn as_part(self) -> Part {
        Part::GenericArgs(self)
    }
}

/// A list of patterns.
#[derive(Clone, Copy, PartialEq, Eq, Hash, Debug)]
pub struct PatList {
    /// Where its node stands among the interner's lists of patterns, counted from 0.
    pub index: u32,
}

/// A list of patterns, as it is kept.
pub type StoredPatList = PatList;

impl Handle for PatList {
    ghost sort = { sort.PatList };

    ghost number = { λ h. h.index };

    ghost part = { part.PatList };

    ghost number_injective = { λ x y e i. record { index = e i } };

    ghost part_injective = { λ x y e. Prim.cc e };

    ghost part_is = { λ x. refl };

    fn from_index(n: u32) -> PatList {
        PatList { index: n }
    }

    fn index(self) -> u32 {
        self.index
    }

    fn as_part(self) -> Part {
        Part::PatList(self)
    }
}

/// A list of existential predicates under binders of their own.
#[derive(Clone, Copy, PartialEq, Eq, Hash, Debug)]
pub struct BoundExistentialPredicates {
    /// Where its node stands among the interner's lists of existential predicates, counted from 0.
    pub index: u32,
}

/// A list of existential predicates under binders of their own, as it is kept.
pub type StoredBoundExistentialPredicates = BoundExistentialPredicates;

impl Handle for BoundExistentialPredicates {
    ghost sort = { sort.BoundExistentialPredicates };

    ghost number = { λ h. h.index };

    ghost part = { part.BoundExistentialPredicates };

    ghost number_injective = { λ x y e i. record { index = e i } };

    ghost part_injective = { λ x y e. Prim.cc e };

    ghost part_is = { λ x. refl };

    fn from_index(n: u32) -> BoundExistentialPredicates {
        BoundExistentialPredicates { index: n }
    }

    fn index(self) -> u32 {
        self.index
    }

    fn as_part(self) -> Part {
        Part::BoundExistentialPredicates(self)
    }
}

/// A list of clauses.
#[derive(Clone, Copy, PartialEq, Eq, Hash, Debug)]
pub struct Clauses {
    /// Where its node stands among the interner's lists of clauses, counted from 0.
    pub index: u32,
}

/// A list of clauses, as it is kept.
pub type StoredClauses = Clauses;

impl Handle for Clauses {
    ghost sort = { sort.Clauses };

    ghost number = { λ h. h.index };

    ghost part = { part.Clauses };

    ghost number_injective = { λ x y e i. record { index = e i } };

    ghost part_injective = { λ x y e. Prim.cc e };

    ghost part_is = { λ x. refl };

    fn from_index(n: u32) -> Clauses {
        Clauses { index: n }
    }

    fn index(self) -> u32 {
        self.index
    }

    fn as_part(self) -> Part {
        Part::Clauses(self)
    }
}

/// A list of outlives predicates that are assumed.
#[derive(Clone, Copy, PartialEq, Eq, Hash, Debug)]
pub struct RegionAssumptions {
    /// Where its node stands among the interner's lists of assumptions, counted from 0.
    pub index: u32,
}

/// A list of outlives predicates that are assumed, as it is kept.
pub type StoredRegionAssumptions = RegionAssumptions;

impl Handle for RegionAssumptions {
    ghost sort = { sort.RegionAssumptions };

    ghost number = { λ h. h.index };

    ghost part = { part.RegionAssumptions };

    ghost number_injective = { λ x y e i. record { index = e i } };

    ghost part_injective = { λ x y e. Prim.cc e };

    ghost part_is = { λ x. refl };

    fn from_index(n: u32) -> RegionAssumptions {
        RegionAssumptions { index: n }
    }

    fn index(self) -> u32 {
        self.index
    }

    fn as_part(self) -> Part {
        Part::RegionAssumptions(self)
    }
}

/// A list of the variables that a binder binds.
#[derive(Clone, Copy, PartialEq, Eq, Hash, Debug)]
pub struct BoundVarKinds {
    /// Where its node stands among the interner's lists of variables, counted from 0.
    pub index: u32,
}

/// A list of the variables that a binder binds, as it is kept.
pub type StoredBoundVarKinds = BoundVarKinds;

impl Handle for BoundVarKinds {
    ghost sort = { sort.BoundVarKinds };

    ghost number = { λ h. h.index };

    ghost part = { part.BoundVarKinds };

    ghost number_injective = { λ x y e i. record { index = e i } };

    ghost part_injective = { λ x y e. Prim.cc e };

    ghost part_is = { λ x. refl };

    fn from_index(n: u32) -> BoundVarKinds {
        BoundVarKinds { index: n }
    }

    fn index(self) -> u32 {
        self.index
    }

    fn as_part(self) -> Part {
        Part::BoundVarKinds(self)
    }
}

/// A list of variances: those of an item's parameters.
#[derive(Clone, Copy, PartialEq, Eq, Hash, Debug)]
pub struct VariancesOf {
    /// Where its node stands among the interner's lists of variances, counted from 0.
    pub index: u32,
}

/// A list of variances, as it is kept.
pub type StoredVariancesOf = VariancesOf;

impl Handle for VariancesOf {
    ghost sort = { sort.VariancesOf };

    ghost number = { λ h. h.index };

    ghost part = { part.VariancesOf };

    ghost number_injective = { λ x y e i. record { index = e i } };

    ghost part_injective = { λ x y e. Prim.cc e };

    ghost part_is = { λ x. refl };

    fn from_index(n: u32) -> VariancesOf {
        VariancesOf { index: n }
    }

    fn index(self) -> u32 {
        self.index
    }

    fn as_part(self) -> Part {
        Part::VariancesOf(self)
    }
}

/// A part of a term, of any sort: what has a node of its own in an interner.
#[derive(Clone, Copy, PartialEq, Eq, Hash, Debug)]
pub enum Part {
    Ty(Ty),
    Const(Const),
    Region(Region),
    Tys(Tys),
    GenericArgs(GenericArgs),
    PatList(PatList),
    BoundExistentialPredicates(BoundExistentialPredicates),
    Clauses(Clauses),
    RegionAssumptions(RegionAssumptions),
    BoundVarKinds(BoundVarKinds),
    VariancesOf(VariancesOf),
}

/// The sort of a part: which handle names it.
#[derive(Clone, Copy, PartialEq, Eq, Hash, Debug)]
pub enum PartSort {
    Ty,
    Const,
    Region,
    Tys,
    GenericArgs,
    PatList,
    BoundExistentialPredicates,
    Clauses,
    RegionAssumptions,
    BoundVarKinds,
    VariancesOf,
}

impl Part {
    /// Its sort.
    pub fn sort(self) -> PartSort
        ensures { result ≡ sort_in self }
    {
        match self {
            Part::Ty(_) => PartSort::Ty,
            Part::Const(_) => PartSort::Const,
            Part::Region(_) => PartSort::Region,
            Part::Tys(_) => PartSort::Tys,
            Part::GenericArgs(_) => PartSort::GenericArgs,
            Part::PatList(_) => PartSort::PatList,
            Part::BoundExistentialPredicates(_) => PartSort::BoundExistentialPredicates,
            Part::Clauses(_) => PartSort::Clauses,
            Part::RegionAssumptions(_) => PartSort::RegionAssumptions,
            Part::BoundVarKinds(_) => PartSort::BoundVarKinds,
            Part::VariancesOf(_) => PartSort::VariancesOf,
        }
    }

    /// Its number among the handles of its sort.
    pub fn index(self) -> u32
        ensures { result ≡ index_in self }
    {
        match self {
            Part::Ty(ty) => ty.index,
            Part::Const(constant) => constant.index,
            Part::Region(region) => region.index,
            Part::Tys(list) => list.index,
            Part::GenericArgs(list) => list.index,
            Part::PatList(list) => list.index,
            Part::BoundExistentialPredicates(list) => list.index,
            Part::Clauses(list) => list.index,
            Part::RegionAssumptions(list) => list.index,
            Part::BoundVarKinds(list) => list.index,
            Part::VariancesOf(list) => list.index,
        }
    }

    /// The part of this sort and number. No interner need have it.
    pub fn at(sort: PartSort, index: u32) -> Part
        ensures { result ≡ part_at sort index }
    {
        match sort {
            PartSort::Ty => Part::Ty(Ty { index }),
            PartSort::Const => Part::Const(Const { index }),
            PartSort::Region => Part::Region(Region { index }),
            PartSort::Tys => Part::Tys(Tys { index }),
            PartSort::GenericArgs => Part::GenericArgs(GenericArgs { index }),
            PartSort::PatList => Part::PatList(PatList { index }),
            PartSort::BoundExistentialPredicates => {
                Part::BoundExistentialPredicates(BoundExistentialPredicates { index })
            }
            PartSort::Clauses => Part::Clauses(Clauses { index }),
            PartSort::RegionAssumptions => Part::RegionAssumptions(RegionAssumptions { index }),
            PartSort::BoundVarKinds => Part::BoundVarKinds(BoundVarKinds { index }),
            PartSort::VariancesOf => Part::VariancesOf(VariancesOf { index }),
        }
    }
}

#[cfg(test)]
mod tests {
    use super::*;

    // The handle, kept and taken again.
    fn kept<H: Handle>(handle: H) -> H {
        handle.store().as_ref()
    }

    #[test]
    fn a_handle_is_kept_with_its_number(rt: HostRuntime) {
        let ty: StoredTy = kept(Ty::from_index(7));
        assert_eq!(rt; ty.index(), 7);
        assert_eq!(rt; ty.as_part(), Part::Ty(Ty { index: 7 }));
        assert_ne!(rt; ty.as_part(), Part::Const(Const::from_index(7)));
    }
}
