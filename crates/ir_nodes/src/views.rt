//! Kinds as views of nodes.
ghost use Rattle.ir_core.specs.declared.handles.Part.TheVariants as part;
ghost use Rattle.ir_laws.specs.Formed.{is_keyword_among, kid_forms};
ghost use Rattle.ir_laws.specs.Keyword.{choice_words};
ghost use Rattle.ir_laws.specs.Label.{row};
ghost use Rattle.ir_laws.specs.Names.{field_forms};
ghost use Rattle.ir_laws.specs.Parts.{has_for_group};
ghost use Rattle.ir_laws.specs.declared.labels.Choice.TheVariants as choice;
ghost use Rattle.ir_laws.specs.declared.labels.FieldForm.TheVariants.{ANumber, AVariableKind, OneWordOf};
ghost use Rattle.ir_laws.specs.declared.labels.KidForm.TheVariants.{ListOf, OneOf};
ghost use Rattle.ir_laws.specs.declared.labels.Sort.TheVariants.{OfConstant, OfExistential, OfRegion, OfType};
ghost use Rattle.ir_laws.specs.declared.words.Word.TheVariants.{ExistentialList, TypeList};
ghost use Rattle.ir_nodes.specs.Fits.{are_of_forms, fits_row, is_term, kids_fit, layer_sort};
ghost use Rattle.ir_nodes.specs.Nodes.{binder_in, fields_in, kids_in, layer_of, node_layer};
ghost use Rattle.ir_nodes.specs.Views.{abi_word, any_node, any_sort, bound_node, const_node, float_word, infer_const_node, infer_node, int_word, mutability_word, placeholder_node, region_node, safety_word, ty_node, uint_word, variadic_word};
ghost use Rattle.ir_nodes.specs.declared.nodes.Field.TheVariants as field;
ghost use Rattle.ir_core.specs.declared.handles.PartSort.TheVariants as sort;
ghost use Rattle.std.specs.Prelude.{◌≡◌, Some, true, is_some, slice_get};

use crate::{Content, Field, Node};
use ir_core::{
    Binder, BoundConst, BoundExistentialPredicates, BoundRegion, BoundTy, BoundVar,
    BoundVarIndexKind, BoundVarKind, BoundVarKinds, Const, ConstKind, ConstVid, DebruijnIndex,
    ErrorGuaranteed, ExprConst, FloatTy, FloatVid, FnAbi, FnHeader, FnSigTys, InferConst, InferTy,
    IntTy, IntVid, Mutability, Part, Placeholder, Region, RegionKind, RegionVid, Safety, Ty,
    TyKind, TyVid, Tys, UintTy, UniverseIndex,
};
use ir_laws::{Keyword, Word};

// ---- from nodes to kinds

/// A kind of a type, a region or a constant.
#[derive(Clone, Copy, PartialEq, Eq, Debug)]
pub(crate) enum AnyKind {
    Ty(TyKind),
    Region(RegionKind),
    Const(ConstKind),
}

// The type at the place of the row.
fn ty_at(word: Word, kids: &[Part], place: usize) -> Ty
    requires fits { kids_fit (kid_forms (row word).parts) kids.now ≡ true }
    requires form { slice_get (kid_forms (row word).parts) place ≡ Some (OneOf OfType) }
    ensures { slice_get kids.now place ≡ Some (part.Ty result) }
{
    match kids[place] {
        Part::Ty(ty) => ty,
        _ => unreachable!(),
    }
}

// The region at the place of the row.
fn region_at(word: Word, kids: &[Part], place: usize) -> Region
    requires fits { kids_fit (kid_forms (row word).parts) kids.now ≡ true }
    requires form { slice_get (kid_forms (row word).parts) place ≡ Some (OneOf OfRegion) }
    ensures { slice_get kids.now place ≡ Some (part.Region result) }
{
    match kids[place] {
        Part::Region(region) => region,
        _ => unreachable!(),
    }
}

// The constant at the place of the row.
fn const_at(word: Word, kids: &[Part], place: usize) -> Const
    requires fits { kids_fit (kid_forms (row word).parts) kids.now ≡ true }
    requires form { slice_get (kid_forms (row word).parts) place ≡ Some (OneOf OfConstant) }
    ensures { slice_get kids.now place ≡ Some (part.Const result) }
{
    match kids[place] {
        Part::Const(konst) => konst,
        _ => unreachable!(),
    }
}

// The list of types at the place of the row.
fn tys_at(word: Word, kids: &[Part], place: usize) -> Tys
    requires fits { kids_fit (kid_forms (row word).parts) kids.now ≡ true }
    requires form { (e : _) × (slice_get (kid_forms (row word).parts) place ≡ Some (ListOf TypeList OfType e)) }
    ensures { slice_get kids.now place ≡ Some (part.Tys result) }
{
    match kids[place] {
        Part::Tys(tys) => tys,
        _ => unreachable!(),
    }
}

// The number at the place of the row.
fn number_at(word: Word, fields: &[Field], place: usize) -> u32
    requires fits { are_of_forms (field_forms (row word).parts) fields.now ≡ true }
    requires form { slice_get (field_forms (row word).parts) place ≡ Some ANumber }
    ensures { slice_get fields.now place ≡ Some (field.Number result) }
{
    match fields[place] {
        Field::Number(number) => number,
        _ => unreachable!(),
    }
}

// What the variable at the place of the row is.
fn variable_at(word: Word, fields: &[Field], place: usize) -> BoundVarKind
    requires fits { are_of_forms (field_forms (row word).parts) fields.now ≡ true }
    requires form { slice_get (field_forms (row word).parts) place ≡ Some AVariableKind }
    ensures { slice_get fields.now place ≡ Some (field.OfKind result) }
{
    match fields[place] {
        Field::OfKind(kind) => kind,
        _ => unreachable!(),
    }
}

// Whether the keyword at the place of the row says `mut`.
fn mutability_at(word: Word, fields: &[Field], place: usize) -> Mutability
    requires fits { are_of_forms (field_forms (row word).parts) fields.now ≡ true }
    requires form { slice_get (field_forms (row word).parts) place ≡ Some (OneWordOf choice.Mutability) }
    ensures { slice_get fields.now place ≡ Some (field.Chosen (mutability_word result)) }
{
    let Field::Chosen(keyword) = fields[place] else {
        unreachable!()
    };
    match keyword {
        Keyword::Not => Mutability::Not,
        Keyword::Mut => Mutability::Mut,
        _ => unreachable!(),
    }
}

// Whether the keyword at the place of the row says `unsafe`.
fn safety_at(word: Word, fields: &[Field], place: usize) -> Safety
    requires fits { are_of_forms (field_forms (row word).parts) fields.now ≡ true }
    requires form { slice_get (field_forms (row word).parts) place ≡ Some (OneWordOf choice.Safety) }
    ensures { slice_get fields.now place ≡ Some (field.Chosen (safety_word result)) }
{
    let Field::Chosen(keyword) = fields[place] else {
        unreachable!()
    };
    match keyword {
        Keyword::Safe => Safety::Safe,
        Keyword::Unsafe => Safety::Unsafe,
        _ => unreachable!(),
    }
}

// The calling convention that the keyword at the place of the row says.
fn abi_at(word: Word, fields: &[Field], place: usize) -> FnAbi
    requires fits { are_of_forms (field_forms (row word).parts) fields.now ≡ true }
    requires form { slice_get (field_forms (row word).parts) place ≡ Some (OneWordOf choice.Abi) }
    ensures { slice_get fields.now place ≡ Some (field.Chosen (abi_word result)) }
{
    let Field::Chosen(keyword) = fields[place] else {
        unreachable!()
    };
    match keyword {
        Keyword::Rust => FnAbi::Rust,
        Keyword::RustCall => FnAbi::RustCall,
        Keyword::C => FnAbi::C,
        Keyword::System => FnAbi::System,
        _ => unreachable!(),
    }
}

// Whether the keyword at the place of the row says `variadic`.
fn variadic_at(word: Word, fields: &[Field], place: usize) -> bool
    requires fits { are_of_forms (field_forms (row word).parts) fields.now ≡ true }
    requires form { slice_get (field_forms (row word).parts) place ≡ Some (OneWordOf choice.Variadic) }
    ensures { slice_get fields.now place ≡ Some (field.Chosen (variadic_word result)) }
{
    let Field::Chosen(keyword) = fields[place] else {
        unreachable!()
    };
    match keyword {
        Keyword::Fixed => false,
        Keyword::Variadic => true,
        _ => unreachable!(),
    }
}

// The list of existential predicates at the place of the row.
fn existentials_at(word: Word, kids: &[Part], place: usize) -> BoundExistentialPredicates
    requires fits { kids_fit (kid_forms (row word).parts) kids.now ≡ true }
    requires form { (e : _) × (slice_get (kid_forms (row word).parts) place ≡ Some (ListOf ExistentialList OfExistential e)) }
    ensures { slice_get kids.now place ≡ Some (part.BoundExistentialPredicates result) }
{
    match kids[place] {
        Part::BoundExistentialPredicates(list) => list,
        _ => unreachable!(),
    }
}

// The kind of a bound variable.
fn bound_kind(index: BoundVarIndexKind, number: u32, kind: BoundVarKind) -> AnyKind
    ensures node { any_node result ≡ bound_node index number kind }
    ensures sort { layer_sort (node_layer (any_node result)) ≡ Some (any_sort result) }
{
    let var = BoundVar(number);
    match kind {
        BoundVarKind::Ty(kind) => AnyKind::Ty(TyKind::Bound(index, BoundTy { var, kind })),
        BoundVarKind::Region(kind) => {
            AnyKind::Region(RegionKind::ReBound(index, BoundRegion { var, kind }))
        }
        BoundVarKind::Const => AnyKind::Const(ConstKind::Bound(index, BoundConst { var })),
    }
}

// The kind of a variable whose binder was opened.
fn placeholder_kind(universe: u32, number: u32, kind: BoundVarKind) -> AnyKind
    ensures node { any_node result ≡ placeholder_node universe number kind }
    ensures sort { layer_sort (node_layer (any_node result)) ≡ Some (any_sort result) }
{
    let universe = UniverseIndex(universe);
    let var = BoundVar(number);
    match kind {
        BoundVarKind::Ty(kind) => {
            let bound = BoundTy { var, kind };
            AnyKind::Ty(TyKind::Placeholder(Placeholder { universe, bound }))
        }
        BoundVarKind::Region(kind) => {
            let bound = BoundRegion { var, kind };
            AnyKind::Region(RegionKind::RePlaceholder(Placeholder { universe, bound }))
        }
        BoundVarKind::Const => {
            let bound = BoundConst { var };
            AnyKind::Const(ConstKind::Placeholder(Placeholder { universe, bound }))
        }
    }
}

// The kind of the word with these fields, this binder and these kids.
fn any_kind(word: Word, fields: &[Field], binder: Option<BoundVarKinds>, kids: &[Part]) -> AnyKind
    requires fields { are_of_forms (field_forms (row word).parts) fields.now ≡ true }
    requires binder { is_some binder ≡ has_for_group (row word).parts }
    requires kids { kids_fit (kid_forms (row word).parts) kids.now ≡ true }
    requires sort { is_term (layer_sort (layer_of word fields.now binder kids.now)) ≡ true }
    ensures word { (any_node result).word ≡ word }
    ensures fields { fields_in (any_node result).content ≡ fields.now }
    ensures binder { binder_in (any_node result).content ≡ binder }
    ensures kids { kids_in (any_node result).content ≡ kids.now }
    ensures sort { layer_sort (node_layer (any_node result)) ≡ Some (any_sort result) }
{
    match word {
        Word::BoolType => AnyKind::Ty(TyKind::Bool),
        Word::CharType => AnyKind::Ty(TyKind::Char),
        Word::StrType => AnyKind::Ty(TyKind::Str),
        Word::NeverType => AnyKind::Ty(TyKind::Never),
        Word::I8Type => AnyKind::Ty(TyKind::Int(IntTy::I8)),
        Word::I16Type => AnyKind::Ty(TyKind::Int(IntTy::I16)),
        Word::I32Type => AnyKind::Ty(TyKind::Int(IntTy::I32)),
        Word::I64Type => AnyKind::Ty(TyKind::Int(IntTy::I64)),
        Word::I128Type => AnyKind::Ty(TyKind::Int(IntTy::I128)),
        Word::ISizeType => AnyKind::Ty(TyKind::Int(IntTy::Isize)),
        Word::U8Type => AnyKind::Ty(TyKind::Uint(UintTy::U8)),
        Word::U16Type => AnyKind::Ty(TyKind::Uint(UintTy::U16)),
        Word::U32Type => AnyKind::Ty(TyKind::Uint(UintTy::U32)),
        Word::U64Type => AnyKind::Ty(TyKind::Uint(UintTy::U64)),
        Word::U128Type => AnyKind::Ty(TyKind::Uint(UintTy::U128)),
        Word::USizeType => AnyKind::Ty(TyKind::Uint(UintTy::Usize)),
        Word::F16Type => AnyKind::Ty(TyKind::Float(FloatTy::F16)),
        Word::F32Type => AnyKind::Ty(TyKind::Float(FloatTy::F32)),
        Word::F64Type => AnyKind::Ty(TyKind::Float(FloatTy::F64)),
        Word::F128Type => AnyKind::Ty(TyKind::Float(FloatTy::F128)),
        Word::ErrorType => AnyKind::Ty(TyKind::Error(ErrorGuaranteed)),
        Word::ArrayType => AnyKind::Ty(TyKind::Array(
            ty_at(word, kids, 0),
            const_at(word, kids, 1),
        )),
        Word::SliceType => AnyKind::Ty(TyKind::Slice(ty_at(word, kids, 0))),
        Word::PointerType => AnyKind::Ty(TyKind::RawPtr(
            ty_at(word, kids, 0),
            mutability_at(word, fields, 0),
        )),
        Word::ReferenceType => AnyKind::Ty(TyKind::Ref(
            region_at(word, kids, 0),
            ty_at(word, kids, 1),
            mutability_at(word, fields, 0),
        )),
        Word::FnPtrType => {
            let tys = FnSigTys {
                inputs_and_output: tys_at(word, kids, 0),
            };
            let header = FnHeader {
                c_variadic: variadic_at(word, fields, 2),
                safety: safety_at(word, fields, 0),
                abi: abi_at(word, fields, 1),
            };
            AnyKind::Ty(TyKind::FnPtr(Binder::bind_with_vars(tys, binder.unwrap()), header))
        }
        Word::UnsafeBinderType => {
            let ty = Binder::bind_with_vars(ty_at(word, kids, 0), binder.unwrap());
            AnyKind::Ty(TyKind::UnsafeBinder(ty))
        }
        Word::DynType => AnyKind::Ty(TyKind::Dynamic(
            existentials_at(word, kids, 0),
            region_at(word, kids, 1),
        )),
        Word::TupleType => AnyKind::Ty(TyKind::Tuple(tys_at(word, kids, 0))),
        Word::TypeVariable => AnyKind::Ty(TyKind::Infer(InferTy::TyVar(TyVid(number_at(
            word, fields, 0,
        ))))),
        Word::IntegerVariable => AnyKind::Ty(TyKind::Infer(InferTy::IntVar(IntVid(number_at(
            word, fields, 0,
        ))))),
        Word::FloatVariable => AnyKind::Ty(TyKind::Infer(InferTy::FloatVar(FloatVid(number_at(
            word, fields, 0,
        ))))),
        Word::FreshType => AnyKind::Ty(TyKind::Infer(InferTy::FreshTy(number_at(word, fields, 0)))),
        Word::FreshInteger => AnyKind::Ty(TyKind::Infer(InferTy::FreshIntTy(number_at(
            word, fields, 0,
        )))),
        Word::FreshFloat => AnyKind::Ty(TyKind::Infer(InferTy::FreshFloatTy(number_at(
            word, fields, 0,
        )))),
        Word::StaticRegion => AnyKind::Region(RegionKind::ReStatic),
        Word::ErasedRegion => AnyKind::Region(RegionKind::ReErased),
        Word::ErrorRegion => AnyKind::Region(RegionKind::ReError(ErrorGuaranteed)),
        Word::RegionVariable => AnyKind::Region(RegionKind::ReVar(RegionVid(number_at(
            word, fields, 0,
        )))),
        Word::ConstantVariable => AnyKind::Const(ConstKind::Infer(InferConst::Var(ConstVid(
            number_at(word, fields, 0),
        )))),
        Word::FreshConstant => AnyKind::Const(ConstKind::Infer(InferConst::Fresh(number_at(
            word, fields, 0,
        )))),
        Word::ExprConstant => AnyKind::Const(ConstKind::Expr(ExprConst)),
        Word::ErrorConstant => AnyKind::Const(ConstKind::Error(ErrorGuaranteed)),
        Word::BoundVariable => {
            let index = BoundVarIndexKind::Bound(DebruijnIndex(number_at(word, fields, 0)));
            bound_kind(
                index,
                number_at(word, fields, 1),
                variable_at(word, fields, 2),
            )
        }
        Word::CanonicalVariable => {
            let index = BoundVarIndexKind::Canonical;
            bound_kind(
                index,
                number_at(word, fields, 0),
                variable_at(word, fields, 1),
            )
        }
        Word::Placeholder => placeholder_kind(
            number_at(word, fields, 0),
            number_at(word, fields, 1),
            variable_at(word, fields, 2),
        ),
        // No node has an item.
        Word::AdtType
        | Word::ForeignType
        | Word::FnDefType
        | Word::ClosureType
        | Word::CoroutineClosureType
        | Word::CoroutineType
        | Word::WitnessType
        | Word::ProjectionAlias
        | Word::InherentAlias
        | Word::FreeAlias
        | Word::OpaqueAlias
        | Word::TypeParameter
        | Word::RegionParameter
        | Word::LateRegion
        | Word::ConstantParameter
        | Word::UnevaluatedConstant => unreachable!(),
        // No part is a pattern or bytes.
        Word::PatternType | Word::ValueConstant => unreachable!(),
        // These are no types, regions or constants.
        Word::ByteTree
        | Word::RangePattern
        | Word::OrPattern
        | Word::NotNullPattern
        | Word::ExistentialTrait
        | Word::ExistentialProjection
        | Word::ExistentialAuto
        | Word::TraitClause
        | Word::RegionOutlives
        | Word::TypeOutlives
        | Word::ProjectionClause
        | Word::ConstantHasType
        | Word::WellFormed
        | Word::ConstantEvaluatable
        | Word::HostEffect
        | Word::UnstableFeature
        | Word::DynCompatible
        | Word::SubtypePredicate
        | Word::CoercePredicate
        | Word::ConstantEquate
        | Word::AmbiguousPredicate
        | Word::NormalizesTo
        | Word::AliasRelate => unreachable!(),
        // Nor are lists.
        Word::TypeList
        | Word::ArgumentList
        | Word::PatternList
        | Word::ExistentialList
        | Word::ClauseList
        | Word::VariableList
        | Word::VarianceList
        | Word::AssumptionList => unreachable!(),
    }
}

// The kind of the node, whose fields, binder and kids are as its row has them.
fn parts_kind(node: Node) -> AnyKind
    requires fields { are_of_forms (field_forms (row node.word).parts) (fields_in node.content) ≡ true }
    requires binder { is_some (binder_in node.content) ≡ has_for_group (row node.word).parts }
    requires kids { kids_fit (kid_forms (row node.word).parts) (kids_in node.content) ≡ true }
    requires sort { is_term (layer_sort (node_layer node)) ≡ true }
    ensures node { any_node result ≡ node }
    ensures sort { layer_sort (node_layer node) ≡ Some (any_sort result) }
{
    let word = node.word;
    match node.content {
        Content::Bare => any_kind(word, &[], None, &[]),
        Content::Number(n) => any_kind(word, &[Field::Number(n)], None, &[]),
        Content::Numbered(n, v) => any_kind(word, &[Field::Number(n), Field::OfKind(v)], None, &[]),
        Content::Placed(i, n, v) => {
            let fields = [Field::Number(i), Field::Number(n), Field::OfKind(v)];
            any_kind(word, &fields, None, &[])
        }
        Content::One(a) => any_kind(word, &[], None, &[a]),
        Content::Two(a, b) => any_kind(word, &[], None, &[a, b]),
        Content::ChosenOne(k, a) => any_kind(word, &[Field::Chosen(k)], None, &[a]),
        Content::ChosenTwo(k, a, b) => any_kind(word, &[Field::Chosen(k)], None, &[a, b]),
        Content::BoundOne(v, a) => any_kind(word, &[], Some(v), &[a]),
        Content::Signature(s, c, w, v, a) => {
            let fields = [Field::Chosen(s), Field::Chosen(c), Field::Chosen(w)];
            any_kind(word, &fields, Some(v), &[a])
        }
        Content::Opened(s, c, w, a) => {
            let fields = [Field::Chosen(s), Field::Chosen(c), Field::Chosen(w)];
            any_kind(word, &fields, None, &[a])
        }
    }
}

// The kind of the node.
#[tactic(auto, using(crate::proofs::RowLemmas::row_fields, crate::proofs::RowLemmas::row_binder, crate::proofs::RowLemmas::row_kids))]
fn any_of(node: Node) -> AnyKind
    requires fits { fits_row (node_layer node) ≡ true }
    requires sort { is_term (layer_sort (node_layer node)) ≡ true }
    ensures node { any_node result ≡ node }
    ensures sort { layer_sort (node_layer node) ≡ Some (any_sort result) }
{
    parts_kind(node)
}

/// The kind of the node of a type.
pub fn ty_of(node: Node) -> TyKind
    requires fits { fits_row (node_layer node) ≡ true }
    requires sort { layer_sort (node_layer node) ≡ Some sort.Ty }
    ensures { ty_node result ≡ node }
{
    match any_of(node) {
        AnyKind::Ty(kind) => kind,
        AnyKind::Region(_) | AnyKind::Const(_) => unreachable!(),
    }
}

/// The kind of the node of a region.
pub fn region_of(node: Node) -> RegionKind
    requires fits { fits_row (node_layer node) ≡ true }
    requires sort { layer_sort (node_layer node) ≡ Some sort.Region }
    ensures { region_node result ≡ node }
{
    match any_of(node) {
        AnyKind::Region(kind) => kind,
        AnyKind::Ty(_) | AnyKind::Const(_) => unreachable!(),
    }
}

/// The kind of the node of a constant.
pub fn const_of(node: Node) -> ConstKind
    requires fits { fits_row (node_layer node) ≡ true }
    requires sort { layer_sort (node_layer node) ≡ Some sort.Const }
    ensures { const_node result ≡ node }
{
    match any_of(node) {
        AnyKind::Const(kind) => kind,
        AnyKind::Ty(_) | AnyKind::Region(_) => unreachable!(),
    }
}

// ---- from kinds to nodes

fn int(int: IntTy) -> Word
    ensures { result ≡ int_word int }
{
    match int {
        IntTy::I8 => Word::I8Type,
        IntTy::I16 => Word::I16Type,
        IntTy::I32 => Word::I32Type,
        IntTy::I64 => Word::I64Type,
        IntTy::I128 => Word::I128Type,
        IntTy::Isize => Word::ISizeType,
    }
}

fn uint(uint: UintTy) -> Word
    ensures { result ≡ uint_word uint }
{
    match uint {
        UintTy::U8 => Word::U8Type,
        UintTy::U16 => Word::U16Type,
        UintTy::U32 => Word::U32Type,
        UintTy::U64 => Word::U64Type,
        UintTy::U128 => Word::U128Type,
        UintTy::Usize => Word::USizeType,
    }
}

fn float(float: FloatTy) -> Word
    ensures { result ≡ float_word float }
{
    match float {
        FloatTy::F16 => Word::F16Type,
        FloatTy::F32 => Word::F32Type,
        FloatTy::F64 => Word::F64Type,
        FloatTy::F128 => Word::F128Type,
    }
}

fn mutability_keyword(mutability: Mutability) -> Keyword
    ensures word { result ≡ mutability_word mutability }
    ensures among { is_keyword_among (choice_words choice.Mutability) result ≡ true }
{
    match mutability {
        Mutability::Not => Keyword::Not,
        Mutability::Mut => Keyword::Mut,
    }
}

pub(crate) fn safety_keyword(safety: Safety) -> Keyword
    ensures word { result ≡ safety_word safety }
    ensures among { is_keyword_among (choice_words choice.Safety) result ≡ true }
{
    match safety {
        Safety::Safe => Keyword::Safe,
        Safety::Unsafe => Keyword::Unsafe,
    }
}

pub(crate) fn abi_keyword(abi: FnAbi) -> Keyword
    ensures word { result ≡ abi_word abi }
    ensures among { is_keyword_among (choice_words choice.Abi) result ≡ true }
{
    match abi {
        FnAbi::Rust => Keyword::Rust,
        FnAbi::RustCall => Keyword::RustCall,
        FnAbi::C => Keyword::C,
        FnAbi::System => Keyword::System,
    }
}

pub(crate) fn variadic_keyword(c_variadic: bool) -> Keyword
    ensures word { result ≡ variadic_word c_variadic }
    ensures among { is_keyword_among (choice_words choice.Variadic) result ≡ true }
{
    if c_variadic {
        Keyword::Variadic
    } else {
        Keyword::Fixed
    }
}

fn node(word: Word, content: Content) -> Node
    ensures { result ≡ record { word = word; content = content } }
{
    Node { word, content }
}

// The node of a variable that a binder or an opened term binds.
fn bound_node(index: BoundVarIndexKind, var: BoundVar, kind: BoundVarKind) -> Node
    ensures { result ≡ bound_node index var.0 kind }
{
    match index {
        BoundVarIndexKind::Bound(index) => {
            node(Word::BoundVariable, Content::Placed(index.0, var.0, kind))
        }
        BoundVarIndexKind::Canonical => node(
            Word::CanonicalVariable,
            Content::Numbered(var.0, kind),
        ),
    }
}

// The node of a variable whose binder was opened.
fn placeholder_node(universe: UniverseIndex, var: BoundVar, kind: BoundVarKind) -> Node
    ensures { result ≡ placeholder_node universe.0 var.0 kind }
{
    node(Word::Placeholder, Content::Placed(universe.0, var.0, kind))
}

// The node of a type that inference has to find.
fn infer_node(infer: InferTy) -> Node
    ensures node { result ≡ infer_node infer }
    ensures fits { fits_row (node_layer result) ≡ true }
    ensures sort { layer_sort (node_layer result) ≡ Some sort.Ty }
{
    match infer {
        InferTy::TyVar(id) => node(Word::TypeVariable, Content::Number(id.0)),
        InferTy::IntVar(id) => node(Word::IntegerVariable, Content::Number(id.0)),
        InferTy::FloatVar(id) => node(Word::FloatVariable, Content::Number(id.0)),
        InferTy::FreshTy(number) => node(Word::FreshType, Content::Number(number)),
        InferTy::FreshIntTy(number) => node(Word::FreshInteger, Content::Number(number)),
        InferTy::FreshFloatTy(number) => node(Word::FreshFloat, Content::Number(number)),
    }
}

// The node of a constant that inference has to find.
fn infer_const_node(infer: InferConst) -> Node
    ensures node { result ≡ infer_const_node infer }
    ensures fits { fits_row (node_layer result) ≡ true }
    ensures sort { layer_sort (node_layer result) ≡ Some sort.Const }
{
    match infer {
        InferConst::Var(id) => node(Word::ConstantVariable, Content::Number(id.0)),
        InferConst::Fresh(number) => node(Word::FreshConstant, Content::Number(number)),
    }
}

/// The node of a type.
pub fn ty_node(kind: TyKind) -> Node
    ensures node { result ≡ ty_node kind }
    ensures fits { fits_row (node_layer result) ≡ true }
    ensures sort { layer_sort (node_layer result) ≡ Some sort.Ty }
{
    match kind {
        TyKind::Bool => node(Word::BoolType, Content::Bare),
        TyKind::Char => node(Word::CharType, Content::Bare),
        TyKind::Int(i) => node(int(i), Content::Bare),
        TyKind::Uint(u) => node(uint(u), Content::Bare),
        TyKind::Float(f) => node(float(f), Content::Bare),
        TyKind::Str => node(Word::StrType, Content::Bare),
        TyKind::Array(ty, len) => {
            node(
                Word::ArrayType,
                Content::Two(Part::Ty(ty), Part::Const(len)),
            )
        }
        TyKind::Slice(ty) => node(Word::SliceType, Content::One(Part::Ty(ty))),
        TyKind::RawPtr(ty, mutability) => node(
            Word::PointerType,
            Content::ChosenOne(mutability_keyword(mutability), Part::Ty(ty)),
        ),
        TyKind::Ref(region, ty, mutability) => node(
            Word::ReferenceType,
            Content::ChosenTwo(
                mutability_keyword(mutability),
                Part::Region(region),
                Part::Ty(ty),
            ),
        ),
        TyKind::FnPtr(tys, header) => node(
            Word::FnPtrType,
            Content::Signature(
                safety_keyword(header.safety),
                abi_keyword(header.abi),
                variadic_keyword(header.c_variadic),
                tys.bound_vars(),
                Part::Tys(tys.skip_binder().inputs_and_output),
            ),
        ),
        TyKind::UnsafeBinder(ty) => node(
            Word::UnsafeBinderType,
            Content::BoundOne(ty.bound_vars(), Part::Ty(ty.skip_binder())),
        ),
        TyKind::Dynamic(predicates, region) => node(
            Word::DynType,
            Content::Two(
                Part::BoundExistentialPredicates(predicates),
                Part::Region(region),
            ),
        ),
        TyKind::Never => node(Word::NeverType, Content::Bare),
        TyKind::Tuple(tys) => node(Word::TupleType, Content::One(Part::Tys(tys))),
        TyKind::Bound(index, bound) => bound_node(index, bound.var, BoundVarKind::Ty(bound.kind)),
        TyKind::Placeholder(p) => {
            placeholder_node(p.universe, p.bound.var, BoundVarKind::Ty(p.bound.kind))
        }
        TyKind::Infer(infer) => infer_node(infer),
        TyKind::Error(_) => node(Word::ErrorType, Content::Bare),
    }
}

/// The node of a region.
pub fn region_node(kind: RegionKind) -> Node
    ensures node { result ≡ region_node kind }
    ensures fits { fits_row (node_layer result) ≡ true }
    ensures sort { layer_sort (node_layer result) ≡ Some sort.Region }
{
    match kind {
        RegionKind::ReBound(index, bound) => {
            bound_node(index, bound.var, BoundVarKind::Region(bound.kind))
        }
        RegionKind::ReStatic => node(Word::StaticRegion, Content::Bare),
        RegionKind::ReVar(id) => node(Word::RegionVariable, Content::Number(id.0)),
        RegionKind::RePlaceholder(p) => {
            placeholder_node(p.universe, p.bound.var, BoundVarKind::Region(p.bound.kind))
        }
        RegionKind::ReErased => node(Word::ErasedRegion, Content::Bare),
        RegionKind::ReError(_) => node(Word::ErrorRegion, Content::Bare),
    }
}

/// The node of a constant.
pub fn const_node(kind: ConstKind) -> Node
    ensures node { result ≡ const_node kind }
    ensures fits { fits_row (node_layer result) ≡ true }
    ensures sort { layer_sort (node_layer result) ≡ Some sort.Const }
{
    match kind {
        ConstKind::Infer(infer) => infer_const_node(infer),
        ConstKind::Bound(index, bound) => bound_node(index, bound.var, BoundVarKind::Const),
        ConstKind::Placeholder(p) => placeholder_node(p.universe, p.bound.var, BoundVarKind::Const),
        ConstKind::Error(_) => node(Word::ErrorConstant, Content::Bare),
        ConstKind::Expr(_) => node(Word::ExprConstant, Content::Bare),
    }
}
