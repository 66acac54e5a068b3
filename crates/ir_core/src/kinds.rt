//! Kinds: what a handle stands for, one layer deep.
use crate::{
    Binder, BoundConst, BoundExistentialPredicates, BoundRegion, BoundTy, BoundVarIndexKind, Const,
    ConstVid, FloatVid, FnHeader, FnSigTys, IntVid, PlaceholderConst, PlaceholderRegion,
    PlaceholderTy, Region, RegionVid, Ty, TyVid, Tys,
};

/// A signed integer type.
#[derive(Clone, Copy, PartialEq, Eq, Hash, Debug)]
pub enum IntTy {
    I8,
    I16,
    I32,
    I64,
    I128,
    Isize,
}

/// An unsigned integer type.
#[derive(Clone, Copy, PartialEq, Eq, Hash, Debug)]
pub enum UintTy {
    U8,
    U16,
    U32,
    U64,
    U128,
    Usize,
}

/// A floating-point type.
#[derive(Clone, Copy, PartialEq, Eq, Hash, Debug)]
pub enum FloatTy {
    F16,
    F32,
    F64,
    F128,
}

/// Whether what a reference or a pointer leads to may be written.
#[derive(Clone, Copy, PartialEq, Eq, Hash, Debug)]
pub enum Mutability {
    Not,
    Mut,
}

/// Stands for an error that was reported elsewhere.
#[derive(Clone, Copy, PartialEq, Eq, PartialOrd, Ord, Hash, Debug)]
pub struct ErrorGuaranteed;

/// A type that inference has to find, by which types may stand for it. A fresh one is numbered in its term alone.
#[derive(Clone, Copy, PartialEq, Eq, Hash, Debug)]
pub enum InferTy {
    TyVar(TyVid),
    IntVar(IntVid),
    FloatVar(FloatVid),
    FreshTy(u32),
    FreshIntTy(u32),
    FreshFloatTy(u32),
}

/// A constant that inference has to find. A fresh one is numbered in its term alone.
#[derive(Clone, Copy, PartialEq, Eq, Hash, Debug)]
pub enum InferConst {
    Var(ConstVid),
    Fresh(u32),
}

/// Stands for an expression over constants that is not evaluated.
#[derive(Clone, Copy, PartialEq, Eq, PartialOrd, Ord, Hash, Debug)]
pub struct ExprConst;

/// What a type is.
#[derive(Clone, Copy, PartialEq, Eq, Hash, Debug)]
pub enum TyKind {
    Bool,
    Char,
    Int(IntTy),
    Uint(UintTy),
    Float(FloatTy),
    Str,
    Array(Ty, Const),
    Slice(Ty),
    RawPtr(Ty, Mutability),
    Ref(Region, Ty, Mutability),
    FnPtr(Binder<FnSigTys>, FnHeader),
    UnsafeBinder(Binder<Ty>),
    Dynamic(BoundExistentialPredicates, Region),
    Never,
    Tuple(Tys),
    Bound(BoundVarIndexKind, BoundTy),
    Placeholder(PlaceholderTy),
    Infer(InferTy),
    Error(ErrorGuaranteed),
}

/// What a region is.
#[derive(Clone, Copy, PartialEq, Eq, Hash, Debug)]
pub enum RegionKind {
    ReBound(BoundVarIndexKind, BoundRegion),
    ReStatic,
    ReVar(RegionVid),
    RePlaceholder(PlaceholderRegion),
    ReErased,
    ReError(ErrorGuaranteed),
}

/// What a constant is.
#[derive(Clone, Copy, PartialEq, Eq, Hash, Debug)]
pub enum ConstKind {
    Infer(InferConst),
    Bound(BoundVarIndexKind, BoundConst),
    Placeholder(PlaceholderConst),
    Error(ErrorGuaranteed),
    Expr(ExprConst),
}

/// How a term depends on an argument of it. The default fills the unused places of a short list.
#[derive(Clone, Copy, PartialEq, Eq, Hash, Debug)]
pub enum Variance {
    Covariant,
    Invariant,
    Contravariant,
    Bivariant,
}

impl Default for Variance {
    fn default() -> Variance {
        Variance::Invariant
    }
}
