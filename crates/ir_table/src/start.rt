//! The parts that are there from the start.
ghost use Rattle.ir_core.specs.declared.handles.Part.TheVariants as part;
ghost use Rattle.ir_laws.specs.Heap.{Each};
ghost use Rattle.ir_laws.specs.Limits.{capped};
ghost use Rattle.ir_laws.specs.Start.{leaf, start_parts};
ghost use Rattle.ir_laws.specs.declared.words.Word.TheVariants.{StaticRegion, StrType, TypeList};
ghost use Rattle.ir_table.specs.Interner.{asked, heap, state, stored};
ghost use Rattle.ir_table.specs.Heaps.{heap_of};
ghost use Rattle.ir_table.specs.Limits.{limits_seen};
ghost use Rattle.ir_table.specs.Start.{HoldsStart, IsStartRefusal, Names, compound_types, leaf_fits, leaf_layer, leaf_part, leaf_trees, leaves, name_leaves, named_compounds, named_start};
ghost use Rattle.ir_table.specs.State.{Makes, NewAnswers};
ghost use Rattle.std.specs.Prelude.{◌≡◌, ◌<◌, ◌≤◌, ◌++◌, ◌∷◌, [], Err, IfErr, IfOk, OnOk, drop, take, true};

use crate::Interner;
use crate::store::Store;
use ir_core::{
    BoundExistentialPredicates, BoundRegionKind, BoundVarKind, BoundVarKinds, Clauses, Const,
    DefaultAny, DefaultConsts, DefaultEmpty, DefaultRegions, DefaultTypes, GenericArgs, Limits,
    Mutability, PatList, R, Region, RegionAssumptions, TermError, Ty, TyKind, Tys, Variance,
    VariancesOf,
};
use ir_laws::Word;
use ir_nodes::{Content, EmptyList, Node};
use smallvec::SmallVec;
use std::alloc::Global;

/// A part of the start that has no kids.
#[derive(Clone, Copy)]
enum Leaf {
    /// The node of the word alone.
    Word(Word),
    /// The lists of types, of variables and of variances that have no items.
    Types,
    Variables,
    Variances,
    /// The list of the variable of a closure's environment.
    Environment,
    /// The list of one variance.
    Variance(Variance),
    Empty(EmptyList),
}

// The parts without kids, in the order in which they are made.
const LEAVES: [Leaf; 36] = [
    Leaf::Word(Word::I8Type),
    Leaf::Word(Word::I16Type),
    Leaf::Word(Word::I32Type),
    Leaf::Word(Word::I64Type),
    Leaf::Word(Word::I128Type),
    Leaf::Word(Word::ISizeType),
    Leaf::Word(Word::U8Type),
    Leaf::Word(Word::U16Type),
    Leaf::Word(Word::U32Type),
    Leaf::Word(Word::U64Type),
    Leaf::Word(Word::U128Type),
    Leaf::Word(Word::USizeType),
    Leaf::Word(Word::F16Type),
    Leaf::Word(Word::F32Type),
    Leaf::Word(Word::F64Type),
    Leaf::Word(Word::F128Type),
    Leaf::Word(Word::BoolType),
    Leaf::Word(Word::CharType),
    Leaf::Word(Word::StrType),
    Leaf::Word(Word::NeverType),
    Leaf::Word(Word::ErrorType),
    Leaf::Word(Word::ErrorConstant),
    Leaf::Word(Word::ErrorRegion),
    Leaf::Word(Word::StaticRegion),
    Leaf::Word(Word::ErasedRegion),
    Leaf::Types,
    Leaf::Empty(EmptyList::GenericArgs),
    Leaf::Empty(EmptyList::PatList),
    Leaf::Empty(EmptyList::BoundExistentialPredicates),
    Leaf::Empty(EmptyList::Clauses),
    Leaf::Variables,
    Leaf::Variances,
    Leaf::Empty(EmptyList::RegionAssumptions),
    Leaf::Variance(Variance::Invariant),
    Leaf::Variance(Variance::Covariant),
    Leaf::Environment,
];

// The places of some of them.
const STR_TYPE: usize = 18;

const STATIC_REGION: usize = 23;

const NO_TYPES: usize = 25;

/// The types of the start that have kids: `()`, `&'static str` and `*mut ()`.
#[derive(Clone, Copy)]
struct Compounds {
    unit: Ty,
    static_str_ref: Ty,
    mut_unit_ptr: Ty,
}

impl Store {
    // Where the part without kids stands, among those of its sort.
    fn start_leaf(&mut self, leaf: Leaf) -> R<u32>
        requires { leaf_fits leaf ≡ true }
        ensures answers { NewAnswers (leaf_part leaf) (stored self.old) (stored self.new) (leaf_layer leaf) result }
    {
        match leaf {
            Leaf::Word(word) => self.make(Node {
                word,
                content: Content::Bare,
            }),
            Leaf::Types => self.make_list::<SmallVec<Ty, 8>>(&[]),
            Leaf::Variables => self.make_list::<SmallVec<BoundVarKind, 8>>(&[]),
            Leaf::Variances => self.make_list::<SmallVec<Variance, 8>>(&[]),
            Leaf::Environment => {
                let variable = BoundVarKind::Region(BoundRegionKind::ClosureEnv);
                self.make_list::<SmallVec<BoundVarKind, 8>>(&[variable])
            }
            Leaf::Variance(variance) => self.make_list::<SmallVec<Variance, 8>>(&[variance]),
            Leaf::Empty(list) => self.make(list),
        }
    }

    // Where each of them stands.
    fn start_leaves(&mut self) -> R<[u32; 36]>
        ensures makes { Makes (stored self.old) (stored self.new) leaf_trees result }
        ensures names { IfOk result (λ is. Each (Names (heap_of self.new.tables)) (name_leaves is leaves)) }
    {
        let mut indices = [0; 36];
        for (place, leaf) in LEAVES.iter().enumerate() {
            indices[place] = self.start_leaf(*leaf)?;
        }
        Ok(indices)
    }

    // The types that have kids.
    fn start_compounds(&mut self, members: Tys, statik: Region, str: Ty) -> R<Compounds>
        requires members { Names (heap_of self.old.tables) (part.Tys members, leaf TypeList) }
        requires statik { Names (heap_of self.old.tables) (part.Region statik, leaf StaticRegion) }
        requires str { Names (heap_of self.old.tables) (part.Ty str, leaf StrType) }
        ensures makes { Makes (stored self.old) (stored self.new) compound_types result }
        ensures names { IfOk result (λ d. Each (Names (heap_of self.new.tables)) (named_compounds d.unit d.static_str_ref d.mut_unit_ptr)) }
    {
        let unit = self.term(TyKind::Tuple(members))?;
        let static_str_ref = self.term(TyKind::Ref(statik, str, Mutability::Not))?;
        let mut_unit_ptr = self.term(TyKind::RawPtr(unit, Mutability::Mut))?;
        Ok(Compounds {
            unit,
            static_str_ref,
            mut_unit_ptr,
        })
    }

    // All parts of the start.
    fn start(&mut self) -> R<DefaultAny>
        ensures makes { Makes (stored self.old) (stored self.new) start_parts result }
        ensures names { IfOk result (λ d. Each (Names (heap_of self.new.tables)) (named_start d)) }
    {
        let indices = self.start_leaves()?;
        let members = Tys {
            index: indices[NO_TYPES],
        };
        let statik = Region {
            index: indices[STATIC_REGION],
        };
        let str = Ty {
            index: indices[STR_TYPE],
        };
        let compounds = self.start_compounds(members, statik, str)?;
        Ok(default_any(&indices, compounds))
    }
}

// The handles by their names.
fn default_any(indices: &[u32; 36], compounds: Compounds) -> DefaultAny
    ensures { named_start result ≡ take 21 (name_leaves indices.now leaves) ++ named_compounds compounds.unit compounds.static_str_ref compounds.mut_unit_ptr ++ drop 21 (name_leaves indices.now leaves) }
{
    let types = DefaultTypes {
        i8: Ty { index: indices[0] },
        i16: Ty { index: indices[1] },
        i32: Ty { index: indices[2] },
        i64: Ty { index: indices[3] },
        i128: Ty { index: indices[4] },
        isize: Ty { index: indices[5] },
        u8: Ty { index: indices[6] },
        u16: Ty { index: indices[7] },
        u32: Ty { index: indices[8] },
        u64: Ty { index: indices[9] },
        u128: Ty { index: indices[10] },
        usize: Ty { index: indices[11] },
        f16: Ty { index: indices[12] },
        f32: Ty { index: indices[13] },
        f64: Ty { index: indices[14] },
        f128: Ty { index: indices[15] },
        bool: Ty { index: indices[16] },
        char: Ty { index: indices[17] },
        str: Ty { index: indices[18] },
        never: Ty { index: indices[19] },
        error: Ty { index: indices[20] },
        unit: compounds.unit,
        static_str_ref: compounds.static_str_ref,
        mut_unit_ptr: compounds.mut_unit_ptr,
    };
    let consts = DefaultConsts {
        error: Const { index: indices[21] },
    };
    let regions = DefaultRegions {
        error: Region { index: indices[22] },
        statik: Region { index: indices[23] },
        erased: Region { index: indices[24] },
    };
    let empty = DefaultEmpty {
        tys: Tys { index: indices[25] },
        generic_args: GenericArgs { index: indices[26] },
        pat_list: PatList { index: indices[27] },
        bound_existential_predicates: BoundExistentialPredicates { index: indices[28] },
        clauses: Clauses { index: indices[29] },
        bound_var_kinds: BoundVarKinds { index: indices[30] },
        variances: VariancesOf { index: indices[31] },
        region_assumptions: RegionAssumptions { index: indices[32] },
    };
    DefaultAny {
        types,
        consts,
        regions,
        empty,
        one_invariant: VariancesOf { index: indices[33] },
        one_covariant: VariancesOf { index: indices[34] },
        coroutine_captures_by_ref_bound_var_kinds: BoundVarKinds { index: indices[35] },
    }
}

impl Interner {
    /// An interner that holds the 39 parts of the start, before any call is asked. It is refused with TooMany exactly where these are more than the limit on nodes, want of memory apart.
    pub fn new(alloc: Global, limits: Limits) -> R<Interner>
        ensures start { IfOk result (λ cx. HoldsStart (heap cx)) }
        ensures len { IfOk result (λ cx. (state cx).count ≡ 39) }
        ensures asked { IfOk result (λ cx. asked cx ≡ 0) }
        ensures limits { IfOk result (λ cx. (state cx).limits ≡ limits_seen limits) }
        ensures room { OnOk result (39 ≤ (capped (limits_seen limits)).nodes) }
        ensures refusal { IfErr result IsStartRefusal }
        ensures too_many { result ≡ Err TermError.TooMany → (capped (limits_seen limits)).nodes < 39 }
    {
        let mut store = Store::empty(alloc, limits);
        let defaults = store.start()?;
        store.asked = 0;
        Ok(Interner { store, defaults })
    }
}
