//! Plain types of the term layer: ids of items, handles, kinds, variables, binders, signatures, limits, errors, texts and streams.
#![tactic(auto)]

mod binder;
mod defaults;
mod errors;
mod faulty;
mod flags;
mod handles;
mod ids;
mod info;
mod kinds;
mod limit;
mod signatures;
mod streams;
mod terms;
mod texts;
mod variables;

// Ids and handles.
pub use handles::{
    BoundExistentialPredicates, BoundVarKinds, Clauses, Const, GenericArgs, Handle, Part, PartSort,
    PatList, Region, RegionAssumptions, StoredBoundExistentialPredicates, StoredBoundVarKinds,
    StoredClauses, StoredConst, StoredGenericArgs, StoredPatList, StoredRegion,
    StoredRegionAssumptions, StoredTy, StoredTys, StoredVariancesOf, Ty, Tys, VariancesOf,
};
pub use ids::{
    AdtId, BoundVar, BuiltinDeriveImplId, ConstId, ConstVid, Ctor, DebruijnIndex, EnumId,
    EnumVariantId, FloatVid, FunctionId, ImplId, IntVid, InternedClosureId, InternedCoroutineId,
    InternedOpaqueTyId, RegionVid, SolverDefId, StaticId, StructId, TraitId, TyVid, TypeAliasId,
    UnionId, UniverseIndex,
};

// Kinds, and what they are made of.
pub use binder::Binder;
pub use defaults::{DefaultAny, DefaultConsts, DefaultEmpty, DefaultRegions, DefaultTypes};
pub use flags::TypeFlags;
pub use info::WithCachedTypeInfo;
pub use kinds::{
    ConstKind, ErrorGuaranteed, ExprConst, FloatTy, InferConst, InferTy, IntTy, Mutability,
    RegionKind, TyKind, UintTy, Variance,
};
pub use signatures::{
    FnAbi, FnHeader, FnSig, FnSigTys, PolyFnSig, Safety, StoredPolyFnSig, split, with_header,
};
pub use terms::AnyTerm;
pub use variables::{
    BoundConst, BoundRegion, BoundRegionKind, BoundTy, BoundTyKind, BoundVarIndexKind,
    BoundVarKind, Placeholder, PlaceholderConst, PlaceholderRegion, PlaceholderTy,
};

// Limits, errors, texts and streams.
pub use errors::{R, TermError};
pub use faulty::{MemorySink, MemorySource};
pub use limit::Limits;
pub use streams::{Failed, Sink, Source, SureSink, SureSource};
pub use texts::Text;
