//! The handles of the parts that every interner has.
use crate::{
    BoundExistentialPredicates, BoundVarKinds, Clauses, Const, GenericArgs, PatList, Region,
    RegionAssumptions, Ty, Tys, VariancesOf,
};

/// The types that every interner has.
#[derive(Clone, Copy, PartialEq, Eq, Hash, Debug)]
pub struct DefaultTypes {
    pub i8: Ty,
    pub i16: Ty,
    pub i32: Ty,
    pub i64: Ty,
    pub i128: Ty,
    pub isize: Ty,
    pub u8: Ty,
    pub u16: Ty,
    pub u32: Ty,
    pub u64: Ty,
    pub u128: Ty,
    pub usize: Ty,
    pub f16: Ty,
    pub f32: Ty,
    pub f64: Ty,
    pub f128: Ty,
    /// The tuple without members.
    pub unit: Ty,
    pub bool: Ty,
    pub char: Ty,
    pub str: Ty,
    pub never: Ty,
    pub error: Ty,
    /// `&'static str`.
    pub static_str_ref: Ty,
    /// `*mut ()`.
    pub mut_unit_ptr: Ty,
}

/// The constants that every interner has.
#[derive(Clone, Copy, PartialEq, Eq, Hash, Debug)]
pub struct DefaultConsts {
    pub error: Const,
}

/// The regions that every interner has.
#[derive(Clone, Copy, PartialEq, Eq, Hash, Debug)]
pub struct DefaultRegions {
    pub error: Region,
    pub statik: Region,
    pub erased: Region,
}

/// The empty lists.
#[derive(Clone, Copy, PartialEq, Eq, Hash, Debug)]
pub struct DefaultEmpty {
    pub tys: Tys,
    pub generic_args: GenericArgs,
    pub bound_var_kinds: BoundVarKinds,
    pub variances: VariancesOf,
    pub pat_list: PatList,
    pub bound_existential_predicates: BoundExistentialPredicates,
    pub clauses: Clauses,
    pub region_assumptions: RegionAssumptions,
}

/// The parts that every interner has.
#[derive(Clone, Copy, PartialEq, Eq, Hash, Debug)]
pub struct DefaultAny {
    pub types: DefaultTypes,
    pub consts: DefaultConsts,
    pub regions: DefaultRegions,
    pub empty: DefaultEmpty,
    /// `Invariant` alone.
    pub one_invariant: VariancesOf,
    /// `Covariant` alone.
    pub one_covariant: VariancesOf,
    /// The environment's region alone: the binder of a coroutine closure's captures by reference.
    pub coroutine_captures_by_ref_bound_var_kinds: BoundVarKinds,
}
