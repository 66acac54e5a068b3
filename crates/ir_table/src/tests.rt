//! Terms of each sort with all that is told of them, the calls of an interner, and the tables at types that they are used with.
ghost use Rattle.ir_core.specs.declared.handles.Part.TheVariants as part;
ghost use Rattle.ir_laws.specs.Heap.{Each, IsLive, names_in};
ghost use Rattle.ir_table.specs.Interner.{heap};
ghost use Rattle.ir_nodes.specs.Nodes.{node_layer};
ghost use Rattle.ir_nodes.specs.Values.{value_names};
ghost use Rattle.ir_nodes.specs.Views.{part_of, ty_node};
ghost use Rattle.std.specs.Prelude.{◌≡◌, IfOk};

use crate::{
    Cached, Intern, InternList, Interner, Listed, Live, Names, NoNames, inputs, output, spell,
    variables_are_listed,
};
use bitflags::Flags;
use ir_core::{
    AnyTerm, Binder, BoundConst, BoundRegion, BoundRegionKind, BoundTy, BoundTyKind, BoundVar,
    BoundVarIndexKind, BoundVarKind, BoundVarKinds, Clauses, Const, ConstId, ConstKind,
    DebruijnIndex, ErrorGuaranteed, FnAbi, FnHeader, FnSigTys, Handle, Limits, Mutability, Part, R,
    Region, RegionKind, Safety, SolverDefId, TermError, Text, Ty, TyKind, Tys, UintTy, Variance,
    VariancesOf,
};
use ir_nodes::{Layer, List, part_of};
use std::alloc::Global;
use std::test::Fail;

const LIMITS: Limits = Limits {
    index: 65_535,
    number: 65_535,
    height: 512,
    nodes: 1_000_000,
    size: 1_000_000,
};

/// The limits that leave room for so many parts.
fn room_for(nodes: u64) -> Limits {
    Limits { nodes, ..LIMITS }
}

/// A step in the making of a type. It takes the types that it is made of from those that earlier steps left, the last first, and leaves its own.
#[derive(Clone, Copy)]
enum Step<'a> {
    Bool,
    Byte,
    Error,
    /// A variable without a name, of this number.
    Variable(BoundVarIndexKind, u32),
    Pointer,
    Reference(RegionKind, Mutability),
    Unit,
    Pair,
    /// An unsafe binder of these variables.
    Under(&'a [BoundVarKind]),
    /// The pointer to functions without inputs that give the type, under a binder without variables.
    Function(FnHeader),
}

// No making call answers Escapes, so here it says that the steps are wrong.
const WRONG_STEPS: TermError = TermError::Escapes;

/// The type that was left last, where the interner holds it.
fn last(cx: &Interner, types: &mut Vec<Ty>) -> R<Ty>
    ensures { IfOk result (λ ty. IsLive (heap cx.now) (part.Ty ty)) }
{
    let ty = types.pop().ok_or(WRONG_STEPS)?;
    if !ty.holds(cx) {
        return Err(WRONG_STEPS);
    }
    Ok(ty)
}

/// The type of the kind, which is given back.
fn of_kind(cx: &mut Interner, kind: TyKind) -> R<Ty>
    requires { Each (IsLive (heap cx.old)) (names_in (node_layer (ty_node kind))) }
{
    let ty = Ty::new(cx, kind)?;
    if ty.kind(cx) != kind || ty.inner(cx).internee != kind {
        return Err(WRONG_STEPS);
    }
    Ok(ty)
}

fn reference(
    cx: &mut Interner,
    region: RegionKind,
    mutability: Mutability,
    types: &mut Vec<Ty>,
) -> R<Ty> {
    let region = Region::new(cx, region)?;
    let inner = last(cx, types)?;
    of_kind(cx, TyKind::Ref(region, inner, mutability))
}

fn pair(cx: &mut Interner, types: &mut Vec<Ty>) -> R<Ty> {
    let second = last(cx, types)?;
    let first = last(cx, types)?;
    let list = Tys::new_from_slice(cx, &[first, second])?;
    of_kind(cx, TyKind::Tuple(list))
}

fn under(cx: &mut Interner, variables: &[BoundVarKind], types: &mut Vec<Ty>) -> R<Ty> {
    let variables = BoundVarKinds::new_from_slice(cx, variables)?;
    let inner = last(cx, types)?;
    of_kind(
        cx,
        TyKind::UnsafeBinder(Binder::bind_with_vars(inner, variables)),
    )
}

fn function(cx: &mut Interner, header: FnHeader, types: &mut Vec<Ty>) -> R<Ty> {
    let output = last(cx, types)?;
    let inputs_and_output = Tys::new_from_slice(cx, &[output])?;
    let variables = BoundVarKinds::empty(cx);
    let binder = Binder::bind_with_vars(FnSigTys { inputs_and_output }, variables);
    of_kind(cx, TyKind::FnPtr(binder, header))
}

/// What the step makes of the types that were left.
fn next_type(cx: &mut Interner, step: Step, types: &mut Vec<Ty>) -> R<Ty> {
    match step {
        Step::Bool => of_kind(cx, TyKind::Bool),
        Step::Byte => of_kind(cx, TyKind::Uint(UintTy::U8)),
        Step::Error => of_kind(cx, TyKind::Error(ErrorGuaranteed)),
        Step::Variable(index, number) => {
            let var = BoundVar(number);
            let kind = BoundTyKind::Anon;
            of_kind(cx, TyKind::Bound(index, BoundTy { var, kind }))
        }
        Step::Pointer => {
            let inner = last(cx, types)?;
            of_kind(cx, TyKind::RawPtr(inner, Mutability::Not))
        }
        Step::Reference(region, mutability) => reference(cx, region, mutability, types),
        Step::Unit => {
            let list = Tys::empty(cx);
            of_kind(cx, TyKind::Tuple(list))
        }
        Step::Pair => pair(cx, types),
        Step::Under(variables) => under(cx, variables, types),
        Step::Function(header) => function(cx, header, types),
    }
}

/// The type that the steps leave last.
fn made(alloc: Global, cx: &mut Interner, steps: &[Step]) -> R<Ty>
    ensures { IfOk result (λ ty. IsLive (heap cx.new) (part.Ty ty)) }
{
    let mut types = Vec::new(alloc);
    for next in steps {
        let ty = next_type(cx, *next, &mut types)?;
        types.push(ty)?;
    }
    last(cx, &mut types)
}

/// Flags, outer binder, height and size.
type Counted = (u32, u32, u32, u64);

/// What is told of a term: its spelling behind another text, what is counted over it, and whether its variables are listed.
#[derive(Drop)]
struct Told {
    text: Text,
    counted: Counted,
    is_listed: bool,
}

fn tell(alloc: Global, cx: &Interner, term: AnyTerm) -> R<Told>
    requires { IsLive (heap cx.now) (part_of term) }
{
    let mut text = Text::from_bytes(alloc, b"> ")?;
    spell(alloc, cx, &NoNames, term, &mut text)?;
    let part = part_of(term);
    Ok(Told {
        text,
        counted: (
            part.flags(cx).bits(),
            part.outer_exclusive_binder(cx).0,
            part.height(cx),
            part.size(cx),
        ),
        is_listed: variables_are_listed(alloc, cx, part, &mut Listed::new(alloc))?,
    })
}

/// What is told of the type that the steps make, once it was made twice.
fn told_of_type(alloc: Global, steps: &[Step]) -> R<Told> {
    let mut cx = Interner::new(alloc, LIMITS)?;
    let first = made(alloc, &mut cx, steps)?;
    let len = cx.len();
    let second = made(alloc, &mut cx, steps)?;
    if second != first || cx.len() != len {
        return Err(WRONG_STEPS);
    }
    tell(alloc, &cx, AnyTerm::Ty(second))
}

const INNERMOST: BoundVarIndexKind = BoundVarIndexKind::Bound(DebruijnIndex(0));

const SECOND: BoundVarIndexKind = BoundVarIndexKind::Bound(DebruijnIndex(1));

const THIRD: BoundVarIndexKind = BoundVarIndexKind::Bound(DebruijnIndex(2));

const REGION: BoundVarKind = BoundVarKind::Region(BoundRegionKind::Anon);

const TYPE: BoundVarKind = BoundVarKind::Ty(BoundTyKind::Anon);

const FIRST_REGION: BoundRegion = BoundRegion {
    var: BoundVar(0),
    kind: BoundRegionKind::Anon,
};

const SAFE: FnHeader = FnHeader {
    c_variadic: false,
    safety: Safety::Safe,
    abi: FnAbi::Rust,
};

const HAS_ERROR: u32 = 0x8000;

const HAS_FREE_REGIONS: u32 = 0x1_0000;

const HAS_RE_BOUND: u32 = 0x2_0000;

const HAS_TY_BOUND: u32 = 0x4_0000;

const HAS_CT_BOUND: u32 = 0x8_0000;

const HAS_CANONICAL_BOUND: u32 = 0x10_0000;

const HAS_RE_ERASED: u32 = 0x20_0000;

const HAS_BINDER_VARS: u32 = 0x200_0000;

#[test]
fn types_are_made_and_told(rt: HostRuntime) -> Result<(), Fail> {
    let named = [
        BoundVarKind::Region(BoundRegionKind::ClosureEnv),
        BoundVarKind::Ty(BoundTyKind::Param(SolverDefId::ConstId(ConstId(0)))),
        BoundVarKind::Const,
    ];
    let rows: [(&[Step], &[u8], Counted); 10] = [
        (&[Step::Unit], b"> (tuple ())", (0, 0, 2, 2)),
        (
            &[
                Step::Byte,
                Step::Reference(RegionKind::ReStatic, Mutability::Not),
            ],
            b"> (ref not static u8)",
            (HAS_FREE_REGIONS, 0, 2, 3),
        ),
        (
            &[
                Step::Byte,
                Step::Bool,
                Step::Reference(RegionKind::ReErased, Mutability::Mut),
                Step::Pair,
            ],
            b"> (tuple (u8 (ref mut erased bool)))",
            (HAS_RE_ERASED, 0, 4, 6),
        ),
        (
            &[
                Step::Byte,
                Step::Reference(
                    RegionKind::ReBound(INNERMOST, FIRST_REGION),
                    Mutability::Not,
                ),
                Step::Under(&[REGION]),
            ],
            b"> (unsafe (for r) (ref not (var 0 0 r) u8))",
            (HAS_RE_BOUND | HAS_BINDER_VARS, 0, 3, 5),
        ),
        (
            &[Step::Bool, Step::Under(&named)],
            b"> (unsafe (for env t:? c) bool)",
            (HAS_BINDER_VARS, 0, 2, 5),
        ),
        (
            &[Step::Variable(BoundVarIndexKind::Canonical, 120)],
            b"> (var * 120 t)",
            (HAS_TY_BOUND | HAS_CANONICAL_BOUND, 0, 1, 1),
        ),
        (
            &[Step::Bool, Step::Function(SAFE)],
            b"> (fnptr (for) safe Rust fixed (bool))",
            (0, 0, 3, 3),
        ),
        (
            &[Step::Error, Step::Pointer],
            b"> (ptr not tyerror)",
            (HAS_ERROR, 0, 2, 2),
        ),
        (
            &[Step::Bool, Step::Pointer],
            b"> (ptr not bool)",
            (0, 0, 2, 2),
        ),
        (
            &[Step::Bool, Step::Bool, Step::Pair],
            b"> (tuple (bool bool))",
            (0, 0, 3, 4),
        ),
    ];
    for (steps, spelling, counted) in rows {
        let told = told_of_type(rt.alloc(), steps)?;
        assert_eq!(rt; told.text.as_bytes(), spelling);
        assert_eq!(rt; told.counted, counted);
        assert!(rt; told.is_listed);
    }
    Ok(())
}

#[test]
fn variables_are_looked_for_in_their_binders(rt: HostRuntime) -> Result<(), Fail> {
    // The number, then the kind, then the binder, which is looked at if it is there.
    let rows: [(BoundVarIndexKind, u32, bool); 5] = [
        (INNERMOST, 1, true),
        (INNERMOST, 2, false),
        (INNERMOST, 0, false),
        (SECOND, 1, false),
        (THIRD, 0, true),
    ];
    for (index, number, is_listed) in rows {
        let steps = [
            Step::Variable(index, number),
            Step::Under(&[REGION, TYPE]),
            Step::Under(&[REGION]),
        ];
        assert_eq!(rt; told_of_type(rt.alloc(), &steps)?.is_listed, is_listed);
    }
    Ok(())
}

fn told_of_region(alloc: Global, kind: RegionKind) -> R<Told> {
    let mut cx = Interner::new(alloc, LIMITS)?;
    let region = Region::new(&mut cx, kind)?;
    tell(alloc, &cx, AnyTerm::Region(region))
}

fn told_of_constant(alloc: Global, kind: ConstKind) -> R<Told> {
    let mut cx = Interner::new(alloc, LIMITS)?;
    let constant = Const::new(&mut cx, kind)?;
    tell(alloc, &cx, AnyTerm::Const(constant))
}

#[test]
fn regions_and_constants_are_told(rt: HostRuntime) -> Result<(), Fail> {
    let rows: [(RegionKind, &[u8], Counted); 3] = [
        (
            RegionKind::ReStatic,
            b"> static",
            (HAS_FREE_REGIONS, 0, 1, 1),
        ),
        (
            RegionKind::ReBound(THIRD, FIRST_REGION),
            b"> (var 2 0 r)",
            (HAS_RE_BOUND, 3, 1, 1),
        ),
        (
            RegionKind::ReBound(BoundVarIndexKind::Canonical, FIRST_REGION),
            b"> (var * 0 r)",
            (HAS_RE_BOUND | HAS_CANONICAL_BOUND, 0, 1, 1),
        ),
    ];
    for (kind, spelling, counted) in rows {
        let told = told_of_region(rt.alloc(), kind)?;
        assert_eq!(rt; told.text.as_bytes(), spelling);
        assert_eq!(rt; told.counted, counted);
    }
    let second = BoundConst { var: BoundVar(1) };
    let told = told_of_constant(rt.alloc(), ConstKind::Bound(INNERMOST, second))?;
    assert_eq!(rt; told.text.as_bytes(), b"> (var 0 1 c)".as_slice());
    assert_eq!(rt; told.counted, (HAS_CT_BOUND, 1, 1, 1));
    Ok(())
}

/// What the questions answer of the region that the third binder binds: whether it speaks of that binder or a further one, of a further one, of any, whether it holds an error, and whether it means the same everywhere.
fn asked_of_a_region<T: Cached>(cx: &Interner, region: T) -> [bool; 5]
    requires { Each (IsLive (heap cx.now)) (value_names (T.value region)) }
{
    let third = DebruijnIndex(2);
    [
        region.has_vars_bound_at_or_above(cx, third),
        region.has_vars_bound_above(cx, third),
        region.has_escaping_bound_vars(cx),
        region.references_error(cx),
        region.is_global(cx),
    ]
}

#[test]
fn questions_are_answered_by_what_is_kept(rt: HostRuntime) -> Result<(), Fail> {
    let mut cx = Interner::new(rt.alloc(), LIMITS)?;
    let region = Region::new(&mut cx, RegionKind::ReBound(THIRD, FIRST_REGION))?;
    assert_eq!(rt;
        asked_of_a_region(&cx, region),
        [true, false, true, false, true]
    );
    Ok(())
}

/// What the start has at the parts that a call of each sort makes again, and whether it held them.
fn start_is_held(alloc: Global) -> R<bool> {
    let mut cx = Interner::new(alloc, room_for(39))?;
    let error = Const::new(&mut cx, ConstKind::Error(ErrorGuaranteed))?;
    let covariant = VariancesOf::new_from_slice(&mut cx, &[Variance::Covariant])?;
    let environment = [BoundVarKind::Region(BoundRegionKind::ClosureEnv)];
    let environment = BoundVarKinds::new_from_slice(&mut cx, &environment)?;
    let start = cx.default_types();
    Ok(
        error == start.consts.error
            && covariant == start.one_covariant
            && environment == start.coroutine_captures_by_ref_bound_var_kinds,
    )
}

#[test]
fn the_start_has_39_parts(rt: HostRuntime) -> Result<(), Fail> {
    let refused = Interner::new(rt.alloc(), room_for(38)).err();
    assert_eq!(rt; refused, Some(TermError::TooMany));
    let cx = Interner::new(rt.alloc(), room_for(39))?;
    assert_eq!(rt; (cx.len(), cx.asked()), (39, 0));
    assert_eq!(rt; cx.limits(), room_for(39));
    assert!(rt; start_is_held(rt.alloc())?);
    Ok(())
}

/// What a list tells that is there from the start: its length, height and size, and whether it and the part behind it are live.
fn told_of_an_empty_list(alloc: Global) -> R<[bool; 6]> {
    let cx = Interner::new(alloc, room_for(39))?;
    let clauses = cx.default_types().empty.clauses;
    Ok([
        Tys::empty(&cx).is_empty(&cx),
        VariancesOf::empty(&cx).len(&cx) == 0,
        BoundVarKinds::empty(&cx).len(&cx) == 0,
        clauses.holds(&cx),
        Clauses::from_index(clauses.index().saturating_add(1)).holds(&cx),
        cx.holds(clauses.as_part()),
    ])
}

#[test]
fn lists_of_the_start_are_empty(rt: HostRuntime) -> Result<(), Fail> {
    assert_eq!(rt;
        told_of_an_empty_list(rt.alloc())?,
        [true, true, true, true, false, true]
    );
    Ok(())
}

/// The list of the type twice, by each call that makes lists.
fn lists_of(alloc: Global, cx: &mut Interner, ty: Ty) -> R<[Tys; 3]>
    requires { IsLive (heap cx.old) (part.Ty ty) }
{
    let slice = Tys::new_from_slice(cx, &[ty, ty])?;
    let iter = Tys::new_from_iter(alloc, cx, [ty, ty].into_iter())?;
    let tried = Tys::try_new_from_iter(alloc, cx, [Ok(ty), Ok(ty)].into_iter())?;
    Ok([slice, iter, tried])
}

/// Whether the list is read as these two types.
fn reads_as(cx: &Interner, list: Tys, first: Ty, second: Ty) -> bool {
    if !list.holds(cx) || list.len(cx) != 2 {
        return false;
    }
    let mut types = list.iter(cx);
    types.next() == Some(first)
        && types.next() == Some(second)
        && types.next().is_none()
        && list.as_slice(cx) == [first, second].as_slice()
        && inputs(cx, list) == [first].as_slice()
        && output(cx, list) == second
        && (list.height(cx), list.size(cx)) == (2, 3)
}

/// Whether the list of a type twice is one list, by whatever call it is made, and how many calls were asked and parts are held then.
fn list_made_in_each_way(alloc: Global) -> R<(bool, u64, u64)> {
    let mut cx = Interner::new(alloc, room_for(40))?;
    let bool = Ty::new(&mut cx, TyKind::Bool)?;
    let [slice, iter, tried] = lists_of(alloc, &mut cx, bool)?;
    let is_one = iter == slice && tried == slice;
    let is_read = reads_as(&cx, slice, bool, bool);
    let is_past = Tys::from_index(slice.index().saturating_add(1)).holds(&cx);
    Ok((is_one && is_read && !is_past, cx.asked(), cx.len()))
}

/// What a call answers where an item is a refusal, and how many calls were asked then.
fn after_a_refused_item(alloc: Global) -> R<(R<VariancesOf>, u64)> {
    let mut cx = Interner::new(alloc, room_for(39))?;
    let items = [
        Ok(Variance::Covariant),
        Err(TermError::TooDeep),
        Err(TermError::Escapes),
    ];
    let refused = VariancesOf::try_new_from_iter(alloc, &mut cx, items.into_iter());
    Ok((refused, cx.asked()))
}

/// What a making call answers where the tables are full.
fn one_too_many(alloc: Global) -> R<Ty> {
    let mut cx = Interner::new(alloc, room_for(39))?;
    let bool = Ty::new(&mut cx, TyKind::Bool)?;
    Ty::new(&mut cx, TyKind::RawPtr(bool, Mutability::Not))
}

#[test]
fn making_calls_are_asked_and_counted(rt: HostRuntime) -> Result<(), Fail> {
    assert_eq!(rt; list_made_in_each_way(rt.alloc())?, (true, 4, 40));
    let refused = Err(TermError::TooDeep);
    assert_eq!(rt; after_a_refused_item(rt.alloc())?, (refused, 1));
    assert_eq!(rt; one_too_many(rt.alloc()), Err(TermError::TooMany));
    Ok(())
}

#[test]
fn no_item_has_a_name(rt: HostRuntime) {
    let id = SolverDefId::ConstId(ConstId(0));
    assert!(rt; NoNames.name(id).is_none());
}

/// Whether lists of so many items are found again where they were put, whichever were put between, and how many parts are held then.
fn lists_of_lengths(alloc: Global, lengths: [usize; 5]) -> R<(bool, u64)> {
    let mut cx = Interner::new(alloc, room_for(41))?;
    let items = [Variance::Bivariant; 9];
    let mut is_read = true;
    for len in lengths {
        let wanted = &items[..len.min(9)];
        let list = VariancesOf::new_from_slice(&mut cx, wanted)?;
        is_read = is_read && list.as_slice(&cx) == wanted;
    }
    Ok((is_read, cx.len()))
}

#[test]
fn long_lists_are_found_where_they_were_put(rt: HostRuntime) -> Result<(), Fail> {
    // A list of more than eight items stands outside of its key.
    assert_eq!(rt; lists_of_lengths(rt.alloc(), [0, 8, 9, 8, 9])?, (true, 41));
    Ok(())
}

/// The part over this one kid, where its own is one of the same sort.
fn over_one(cx: &mut Interner, part: Part, kid: Part) -> R<Part> {
    if !cx.holds(part) {
        return Err(WRONG_STEPS);
    }
    if !cx.holds(kid) {
        return Err(WRONG_STEPS);
    }
    let layer = cx.layer(part);
    if layer.kid_count() != 1 {
        return Err(WRONG_STEPS);
    }
    if layer.kid(0).sort() != kid.sort() {
        return Err(WRONG_STEPS);
    }
    cx.with_kids(part, &[kid])
}

/// The list of none or two types with these the other way round.
fn turned(cx: &mut Interner, list: Tys) -> R<Part> {
    if !list.holds(cx) {
        return Err(WRONG_STEPS);
    }
    match cx.layer(Part::Tys(list)) {
        Layer::List(List::Types(&[])) => cx.with_kids(Part::Tys(list), &[]),
        Layer::List(List::Types(&[a, b])) => {
            cx.with_kids(Part::Tys(list), &[Part::Ty(b), Part::Ty(a)])
        }
        _ => Err(WRONG_STEPS),
    }
}

/// Whether what the step makes of a byte is, over a bool in its place, what the step makes of that.
fn is_made_over(alloc: Global, step: Step) -> R<bool> {
    let mut cx = Interner::new(alloc, LIMITS)?;
    let of_byte = made(alloc, &mut cx, &[Step::Byte, step])?;
    let bool = Ty::new(&mut cx, TyKind::Bool)?;
    let over = over_one(&mut cx, Part::Ty(of_byte), Part::Ty(bool))?;
    let len = cx.len();
    let of_bool = made(alloc, &mut cx, &[Step::Bool, step])?;
    Ok(over == Part::Ty(of_bool) && cx.len() == len)
}

fn two_types(cx: &mut Interner, first: Ty, second: Ty) -> R<Tys> {
    if !first.holds(cx) {
        return Err(WRONG_STEPS);
    }
    if !second.holds(cx) {
        return Err(WRONG_STEPS);
    }
    Tys::new_from_slice(cx, &[first, second])
}

/// Whether the list of two types turns into that of the second and the first, and twice into itself; how many calls were asked then.
fn lists_turn(alloc: Global) -> R<(bool, u64)> {
    let mut cx = Interner::new(alloc, LIMITS)?;
    let bool = Ty::new(&mut cx, TyKind::Bool)?;
    let byte = Ty::new(&mut cx, TyKind::Uint(UintTy::U8))?;
    let none = Tys::empty(&cx);
    let is_same = turned(&mut cx, none)? == Part::Tys(none);
    let list = two_types(&mut cx, bool, byte)?;
    let other = turned(&mut cx, list)?;
    let is_turned = Part::Tys(two_types(&mut cx, byte, bool)?) == other;
    Ok((is_same && is_turned && other != Part::Tys(list), cx.asked()))
}

#[test]
fn parts_are_made_over_other_kids(rt: HostRuntime) -> Result<(), Fail> {
    for step in [Step::Pointer, Step::Under(&[TYPE])] {
        assert!(rt; is_made_over(rt.alloc(), step)?);
    }
    assert_eq!(rt; lists_turn(rt.alloc())?, (true, 6));
    Ok(())
}
