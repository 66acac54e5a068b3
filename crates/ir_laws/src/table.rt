//! The table of labels, for code.
ghost use Rattle.ir_laws.specs.Label.{row, Always, ByKind};
ghost use Rattle.ir_laws.specs.declared.labels.Sort.TheVariants.{OfList};
ghost use Rattle.ir_laws.specs.Keyword.{choice_words, fixed_text, keyword_text};
ghost use Rattle.ir_core.specs.Flags.{bits_of};
ghost use Rattle.std.specs.Prelude.{◌≡◌, [], None, Some, MatchOption};

use crate::{
    ArgumentCount, Choice, FieldForm, FixedWord, IfEmpty, ItemKind, ItemPlace, Keyword, KidForm,
    Part, Row, Sort, Word,
};
use Sort::{OfBytes, OfConstant, OfExistential, OfList, OfPattern, OfPredicate, OfRegion, OfType};
use bitflags::Flags;
use ir_core::TypeFlags;

// Kids of a sort.
const TYPE: Part = Part::AKid(KidForm::OneOf(Sort::OfType));

const REGION: Part = Part::AKid(KidForm::OneOf(Sort::OfRegion));

const CONSTANT: Part = Part::AKid(KidForm::OneOf(Sort::OfConstant));

const PATTERN: Part = Part::AKid(KidForm::OneOf(Sort::OfPattern));

const BYTES: Part = Part::AKid(KidForm::OneOf(Sort::OfBytes));

const TYPE_OR_CONSTANT: Part = Part::AKid(KidForm::TypeOrConstant);

// Lists of members of a sort; of those whose names begin with SOME an empty one is a fault.
const TYPES: Part = Part::AKid(KidForm::ListOf(Word::TypeList, Sort::OfType, IfEmpty::Fine));

const EXISTENTIALS: Part = Part::AKid(KidForm::ListOf(
    Word::ExistentialList,
    Sort::OfExistential,
    IfEmpty::Fine,
));

const SOME_TYPES: Part = Part::AKid(KidForm::ListOf(
    Word::TypeList,
    Sort::OfType,
    IfEmpty::ArityIfEmpty,
));

const SOME_PATTERNS: Part = Part::AKid(KidForm::ListOf(
    Word::PatternList,
    Sort::OfPattern,
    IfEmpty::EmptyOrIfEmpty,
));

// Lists of arguments, so many as is said.
const ARGUMENTS: Part = Part::AKid(KidForm::ArgumentsOf(ArgumentCount::Whole));

const WITHOUT_SELF: Part = Part::AKid(KidForm::ArgumentsOf(ArgumentCount::WithoutSelf));

const WITH_THREE_TYPES: Part = Part::AKid(KidForm::ArgumentsOf(ArgumentCount::WithTypes(
    ItemKind::ClosureItem,
    3,
)));

const WITH_FOUR_TYPES: Part = Part::AKid(KidForm::ArgumentsOf(ArgumentCount::WithTypes(
    ItemKind::CoroutineItem,
    4,
)));

const WITH_FIVE_TYPES: Part = Part::AKid(KidForm::ArgumentsOf(ArgumentCount::WithTypes(
    ItemKind::CoroutineItem,
    5,
)));

// One of a few keywords.
const MUTABILITY: Part = Part::AField(FieldForm::OneWordOf(Choice::Mutability));

const SAFETY: Part = Part::AField(FieldForm::OneWordOf(Choice::Safety));

const ABI: Part = Part::AField(FieldForm::OneWordOf(Choice::Abi));

const VARIADIC: Part = Part::AField(FieldForm::OneWordOf(Choice::Variadic));

const POLARITY: Part = Part::AField(FieldForm::OneWordOf(Choice::Polarity));

const CONSTNESS: Part = Part::AField(FieldForm::OneWordOf(Choice::Constness));

const EXPECTED: Part = Part::AField(FieldForm::OneWordOf(Choice::Expected));

const DIRECTION: Part = Part::AField(FieldForm::OneWordOf(Choice::Direction));

// An item of the place's kinds.
const ADT: Part = Part::AField(FieldForm::ItemOf(ItemPlace::AdtPlace));

const ALIAS: Part = Part::AField(FieldForm::ItemOf(ItemPlace::AliasPlace));

const CALLABLE: Part = Part::AField(FieldForm::ItemOf(ItemPlace::CallablePlace));

const CLOSURE: Part = Part::AField(FieldForm::ItemOf(ItemPlace::ClosurePlace));

const COROUTINE: Part = Part::AField(FieldForm::ItemOf(ItemPlace::CoroutinePlace));

const OPAQUE_ITEM: Part = Part::AField(FieldForm::ItemOf(ItemPlace::OpaquePlace));

const CONSTANT_ITEM: Part = Part::AField(FieldForm::ItemOf(ItemPlace::ConstantPlace));

const TRAIT: Part = Part::AField(FieldForm::ItemOf(ItemPlace::TraitPlace));

const PROJECTED: Part = Part::AField(FieldForm::ItemOf(ItemPlace::ProjectedPlace));

// An alias whose parent is a trait, the item that a parameter belongs to, and an item of any kind.
const TRAIT_ALIAS: Part = Part::AField(FieldForm::AliasOfTrait);

const PARENT: Part = Part::AField(FieldForm::IdOf(ItemPlace::ParentPlace));

const ANY_ITEM: Part = Part::AField(FieldForm::IdOf(ItemPlace::AnyPlace));

// What is no item: a number, variable kinds, and bytes with mapped addresses.
const NUMBER: Part = Part::AField(FieldForm::ANumber);

const VARIABLE_KIND: Part = Part::AField(FieldForm::AVariableKind);

const REGION_KIND: Part = Part::AField(FieldForm::ARegionKind);

const MEMORY: Part = Part::AField(FieldForm::AMemory);

// The group of variable kinds that the label binds.
const GROUP: Part = Part::ForGroup;

// Words that stand in a place of their own.
const PROJECTION: Part = Part::Fixed(FixedWord::Projection);

const INHERENT: Part = Part::Fixed(FixedWord::Inherent);

const FREE: Part = Part::Fixed(FixedWord::Free);

const OPAQUE: Part = Part::Fixed(FixedWord::Opaque);

const STAR: Part = Part::Fixed(FixedWord::Star);

// A word alone.
fn bare(text: &'static [u8], sort: Sort) -> Row
    ensures text { result.text.now ≡ text.now }
    ensures sort { result.sort ≡ Some sort }
    ensures parts { result.parts.now ≡ [] }
    ensures flags { bits_of result.flags ≡ 0 }
{
    node(text, sort, &[])
}

// A word and its parts in brackets.
fn node(text: &'static [u8], sort: Sort, parts: &'static [Part]) -> Row
    ensures text { result.text.now ≡ text.now }
    ensures sort { result.sort ≡ Some sort }
    ensures parts { result.parts.now ≡ parts.now }
    ensures flags { bits_of result.flags ≡ 0 }
{
    Row {
        text,
        sort: Some(sort),
        parts,
        flags: TypeFlags::empty(),
    }
}

// A label whose sort is that of its variable kind; its flags go by that sort too.
fn by_kind(text: &'static [u8], parts: &'static [Part]) -> Row
    ensures text { result.text.now ≡ text.now }
    ensures sort { result.sort ≡ None }
    ensures parts { result.parts.now ≡ parts.now }
    ensures flags { bits_of result.flags ≡ 0 }
{
    Row {
        text,
        sort: None,
        parts,
        flags: TypeFlags::empty(),
    }
}

// A list: no word stands before its members.
fn list_row() -> Row
    ensures text { result.text.now ≡ [] }
    ensures sort { result.sort ≡ Some OfList }
    ensures parts { result.parts.now ≡ [] }
    ensures flags { bits_of result.flags ≡ 0 }
{
    bare(b"", OfList)
}

impl Row {
    // The row with flags of its own.
    fn with_flags(self, flags: TypeFlags) -> Row
        ensures text { result.text.now ≡ self.text.now }
        ensures sort { result.sort ≡ self.sort }
        ensures parts { result.parts.now ≡ self.parts.now }
        ensures flags { result.flags ≡ flags }
    {
        Row { flags, ..self }
    }
}

impl Word {
    /// The row of the word: its line of the table.
    #[inline(always)]
    pub fn row(self) -> Row
        ensures text { result.text.now ≡ (row self).text }
        ensures sort { MatchOption result.sort ((row self).sort ≡ ByKind) (λ s. (row self).sort ≡ Always s) }
        ensures parts { result.parts.now ≡ (row self).parts }
        ensures flags { bits_of result.flags ≡ (row self).flags }
    {
        match self {
            Word::BoolType => bare(b"bool", OfType),
            Word::CharType => bare(b"char", OfType),
            Word::StrType => bare(b"str", OfType),
            Word::NeverType => bare(b"never", OfType),
            Word::I8Type => bare(b"i8", OfType),
            Word::I16Type => bare(b"i16", OfType),
            Word::I32Type => bare(b"i32", OfType),
            Word::I64Type => bare(b"i64", OfType),
            Word::I128Type => bare(b"i128", OfType),
            Word::ISizeType => bare(b"isize", OfType),
            Word::U8Type => bare(b"u8", OfType),
            Word::U16Type => bare(b"u16", OfType),
            Word::U32Type => bare(b"u32", OfType),
            Word::U64Type => bare(b"u64", OfType),
            Word::U128Type => bare(b"u128", OfType),
            Word::USizeType => bare(b"usize", OfType),
            Word::F16Type => bare(b"f16", OfType),
            Word::F32Type => bare(b"f32", OfType),
            Word::F64Type => bare(b"f64", OfType),
            Word::F128Type => bare(b"f128", OfType),
            Word::ErrorType => bare(b"tyerror", OfType).with_flags(TypeFlags::HAS_ERROR),
            Word::AdtType => node(b"adt", OfType, &[ADT, ARGUMENTS]),
            Word::ForeignType => node(b"foreign", OfType, &[ALIAS]),
            Word::ArrayType => node(b"array", OfType, &[TYPE, CONSTANT]),
            Word::PatternType => node(b"pat", OfType, &[TYPE, PATTERN]),
            Word::SliceType => node(b"slice", OfType, &[TYPE]),
            Word::PointerType => node(b"ptr", OfType, &[MUTABILITY, TYPE]),
            Word::ReferenceType => node(b"ref", OfType, &[MUTABILITY, REGION, TYPE]),
            Word::FnDefType => node(b"fndef", OfType, &[CALLABLE, ARGUMENTS]),
            Word::FnPtrType => node(
                b"fnptr",
                OfType,
                &[GROUP, SAFETY, ABI, VARIADIC, SOME_TYPES],
            ),
            Word::UnsafeBinderType => node(b"unsafe", OfType, &[GROUP, TYPE]),
            Word::DynType => node(b"dyn", OfType, &[EXISTENTIALS, REGION]),
            Word::ClosureType => node(b"closure", OfType, &[CLOSURE, WITH_THREE_TYPES]),
            Word::CoroutineClosureType => node(b"coclosure", OfType, &[COROUTINE, WITH_FOUR_TYPES]),
            Word::CoroutineType => node(
                b"coroutine",
                OfType,
                &[COROUTINE, WITH_FIVE_TYPES],
            ).with_flags(TypeFlags::HAS_TY_COROUTINE),
            Word::WitnessType => node(b"witness", OfType, &[COROUTINE, WITH_FIVE_TYPES]),
            Word::TupleType => node(b"tuple", OfType, &[TYPES]),
            Word::ProjectionAlias => node(
                b"alias",
                OfType,
                &[PROJECTION, ALIAS, ARGUMENTS],
            ).with_flags(TypeFlags::HAS_TY_PROJECTION),
            Word::InherentAlias => node(b"alias", OfType, &[INHERENT, ALIAS, ARGUMENTS]).with_flags(
                TypeFlags::HAS_TY_INHERENT,
            ),
            Word::FreeAlias => node(b"alias", OfType, &[FREE, ALIAS, ARGUMENTS]).with_flags(
                TypeFlags::HAS_TY_FREE_ALIAS,
            ),
            Word::OpaqueAlias => node(
                b"alias",
                OfType,
                &[OPAQUE, OPAQUE_ITEM, ARGUMENTS],
            ).with_flags(TypeFlags::HAS_TY_OPAQUE),
            Word::TypeParameter => node(b"tparam", OfType, &[PARENT, NUMBER, NUMBER]).with_flags(
                TypeFlags::HAS_TY_PARAM,
            ),
            Word::TypeVariable => node(b"tyvar", OfType, &[NUMBER]).with_flags(
                TypeFlags::HAS_TY_INFER,
            ),
            Word::IntegerVariable => node(b"intvar", OfType, &[NUMBER]).with_flags(
                TypeFlags::HAS_TY_INFER,
            ),
            Word::FloatVariable => node(b"floatvar", OfType, &[NUMBER]).with_flags(
                TypeFlags::HAS_TY_INFER,
            ),
            Word::FreshType => node(b"freshty", OfType, &[NUMBER]).with_flags(
                TypeFlags::HAS_TY_FRESH,
            ),
            Word::FreshInteger => node(b"freshint", OfType, &[NUMBER]).with_flags(
                TypeFlags::HAS_TY_FRESH,
            ),
            Word::FreshFloat => node(b"freshfloat", OfType, &[NUMBER]).with_flags(
                TypeFlags::HAS_TY_FRESH,
            ),
            Word::StaticRegion => bare(b"static", OfRegion).with_flags(TypeFlags::HAS_FREE_REGIONS),
            Word::ErasedRegion => bare(b"erased", OfRegion).with_flags(TypeFlags::HAS_RE_ERASED),
            Word::ErrorRegion => bare(b"reerror", OfRegion).with_flags(
                TypeFlags::HAS_FREE_REGIONS.union(TypeFlags::HAS_ERROR),
            ),
            Word::RegionParameter => node(b"early", OfRegion, &[PARENT, NUMBER, NUMBER]).with_flags(
                TypeFlags::HAS_FREE_REGIONS
                    .union(TypeFlags::HAS_FREE_LOCAL_REGIONS)
                    .union(TypeFlags::HAS_RE_PARAM),
            ),
            Word::LateRegion => node(b"late", OfRegion, &[ANY_ITEM, REGION_KIND]).with_flags(
                TypeFlags::HAS_FREE_REGIONS.union(TypeFlags::HAS_FREE_LOCAL_REGIONS),
            ),
            Word::RegionVariable => node(b"revar", OfRegion, &[NUMBER]).with_flags(
                TypeFlags::HAS_FREE_REGIONS
                    .union(TypeFlags::HAS_FREE_LOCAL_REGIONS)
                    .union(TypeFlags::HAS_RE_INFER),
            ),
            Word::ConstantParameter => node(
                b"cparam",
                OfConstant,
                &[PARENT, NUMBER, NUMBER],
            ).with_flags(TypeFlags::HAS_CT_PARAM),
            Word::ConstantVariable => node(b"ctvar", OfConstant, &[NUMBER]).with_flags(
                TypeFlags::HAS_CT_INFER,
            ),
            Word::FreshConstant => node(b"freshct", OfConstant, &[NUMBER]).with_flags(
                TypeFlags::HAS_CT_FRESH,
            ),
            Word::UnevaluatedConstant => node(
                b"uneval",
                OfConstant,
                &[CONSTANT_ITEM, ARGUMENTS],
            ).with_flags(TypeFlags::HAS_CT_PROJECTION),
            Word::ValueConstant => node(b"value", OfConstant, &[TYPE, BYTES]),
            Word::ExprConstant => bare(b"expr", OfConstant).with_flags(
                TypeFlags::HAS_CT_PROJECTION,
            ),
            Word::ErrorConstant => bare(b"cterror", OfConstant).with_flags(TypeFlags::HAS_ERROR),
            Word::CanonicalVariable => by_kind(b"var", &[STAR, NUMBER, VARIABLE_KIND]),
            Word::BoundVariable => by_kind(b"var", &[NUMBER, NUMBER, VARIABLE_KIND]),
            Word::Placeholder => by_kind(b"place", &[NUMBER, NUMBER, VARIABLE_KIND]),
            Word::ByteTree => node(b"bytes", OfBytes, &[MEMORY]),
            Word::RangePattern => node(b"range", OfPattern, &[CONSTANT, CONSTANT]),
            Word::OrPattern => node(b"or", OfPattern, &[SOME_PATTERNS]),
            Word::NotNullPattern => bare(b"notnull", OfPattern),
            Word::ExistentialTrait => node(
                b"extrait",
                OfExistential,
                &[GROUP, TRAIT, WITHOUT_SELF],
            ),
            Word::ExistentialProjection => node(
                b"exproj",
                OfExistential,
                &[GROUP, TRAIT_ALIAS, WITHOUT_SELF, TYPE_OR_CONSTANT],
            ),
            Word::ExistentialAuto => node(b"exauto", OfExistential, &[GROUP, TRAIT]),
            Word::TraitClause => node(b"trait", OfPredicate, &[GROUP, POLARITY, TRAIT, ARGUMENTS]),
            Word::RegionOutlives => node(b"reoutlives", OfPredicate, &[GROUP, REGION, REGION]),
            Word::TypeOutlives => node(b"tyoutlives", OfPredicate, &[GROUP, TYPE, REGION]),
            Word::ProjectionClause => node(
                b"projects",
                OfPredicate,
                &[GROUP, PROJECTED, ARGUMENTS, TYPE_OR_CONSTANT],
            ),
            Word::ConstantHasType => node(b"ctty", OfPredicate, &[GROUP, CONSTANT, TYPE]),
            Word::WellFormed => node(b"wf", OfPredicate, &[GROUP, TYPE_OR_CONSTANT]),
            Word::ConstantEvaluatable => node(b"evaluatable", OfPredicate, &[GROUP, CONSTANT]),
            Word::HostEffect => node(b"host", OfPredicate, &[GROUP, CONSTNESS, TRAIT, ARGUMENTS]),
            Word::UnstableFeature => node(b"unstable", OfPredicate, &[GROUP]),
            Word::DynCompatible => node(b"dyncompat", OfPredicate, &[GROUP, TRAIT]),
            Word::SubtypePredicate => node(b"subtype", OfPredicate, &[GROUP, EXPECTED, TYPE, TYPE]),
            Word::CoercePredicate => node(b"coerce", OfPredicate, &[GROUP, TYPE, TYPE]),
            Word::ConstantEquate => node(b"consteq", OfPredicate, &[GROUP, CONSTANT, CONSTANT]),
            Word::AmbiguousPredicate => node(b"ambiguous", OfPredicate, &[GROUP]),
            Word::NormalizesTo => node(
                b"normalizes",
                OfPredicate,
                &[GROUP, PROJECTED, ARGUMENTS, TYPE_OR_CONSTANT],
            ),
            Word::AliasRelate => node(
                b"aliasrelate",
                OfPredicate,
                &[GROUP, DIRECTION, TYPE_OR_CONSTANT, TYPE_OR_CONSTANT],
            ),
            Word::TypeList => list_row(),
            Word::ArgumentList => list_row(),
            Word::PatternList => list_row(),
            Word::ExistentialList => list_row(),
            Word::ClauseList => list_row(),
            Word::VariableList => list_row(),
            Word::VarianceList => list_row(),
            Word::AssumptionList => list_row(),
        }
    }

    /// The word that begins a label of this word, or is the label. A list has none.
    #[inline(always)]
    pub fn text(self) -> &'static [u8]
        ensures { result.now ≡ (row self).text }
    {
        self.row().text
    }

    /// What is written behind it, in order; nothing for a bare word.
    #[inline(always)]
    pub fn parts(self) -> &'static [Part]
        ensures { result.now ≡ (row self).parts }
    {
        self.row().parts
    }

    /// The sort of a label of this word; none where it is that of the label's variable kind.
    #[inline(always)]
    pub fn sort(self) -> Option<Sort>
        ensures { MatchOption result ((row self).sort ≡ ByKind) (λ s. (row self).sort ≡ Always s) }
    {
        self.row().sort
    }

    /// The flags of a label of this word by itself. For a variable and a placeholder they go by its sort besides.
    pub fn flags(self) -> TypeFlags
        ensures { bits_of result ≡ (row self).flags }
    {
        self.row().flags
    }
}

impl Keyword {
    /// As it is written.
    pub fn text(self) -> &'static [u8]
        ensures { result.now ≡ keyword_text self }
    {
        match self {
            Keyword::Not => b"not",
            Keyword::Mut => b"mut",
            Keyword::Safe => b"safe",
            Keyword::Unsafe => b"unsafe",
            Keyword::Rust => b"Rust",
            Keyword::RustCall => b"RustCall",
            Keyword::C => b"C",
            Keyword::System => b"System",
            Keyword::Fixed => b"fixed",
            Keyword::Variadic => b"variadic",
            Keyword::Pos => b"pos",
            Keyword::Neg => b"neg",
            Keyword::Const => b"const",
            Keyword::Maybe => b"maybe",
            Keyword::True => b"true",
            Keyword::False => b"false",
            Keyword::Equate => b"equate",
            Keyword::Subtype => b"subtype",
            Keyword::Covariant => b"Covariant",
            Keyword::Invariant => b"Invariant",
            Keyword::Contravariant => b"Contravariant",
            Keyword::Bivariant => b"Bivariant",
        }
    }
}

impl FixedWord {
    /// As it is written.
    pub fn text(self) -> &'static [u8]
        ensures { result.now ≡ fixed_text self }
    {
        match self {
            FixedWord::Projection => b"projection",
            FixedWord::Inherent => b"inherent",
            FixedWord::Free => b"free",
            FixedWord::Opaque => b"opaque",
            FixedWord::Star => b"*",
        }
    }
}

impl Choice {
    /// The keywords of which one may stand there.
    pub fn keywords(self) -> &'static [Keyword]
        ensures { result.now ≡ choice_words self }
    {
        match self {
            Choice::Mutability => &[Keyword::Not, Keyword::Mut],
            Choice::Safety => &[Keyword::Safe, Keyword::Unsafe],
            Choice::Abi => &[
                Keyword::Rust,
                Keyword::RustCall,
                Keyword::C,
                Keyword::System,
            ],
            Choice::Variadic => &[Keyword::Fixed, Keyword::Variadic],
            Choice::Polarity => &[Keyword::Pos, Keyword::Neg],
            Choice::Constness => &[Keyword::Const, Keyword::Maybe],
            Choice::Expected => &[Keyword::True, Keyword::False],
            Choice::Direction => &[Keyword::Equate, Keyword::Subtype],
        }
    }
}

/// The words that the grammar knows so far, those with a fixed second word before those of the same first word without it.
pub const LABEL_WORDS: [Word; 10] = [
    Word::BoolType,
    Word::U8Type,
    Word::ReferenceType,
    Word::FnPtrType,
    Word::UnsafeBinderType,
    Word::TupleType,
    Word::StaticRegion,
    Word::ErasedRegion,
    Word::CanonicalVariable,
    Word::BoundVariable,
];
