//! Terms as parts, and the sorts of parts and of the handles that name them.
ghost use Rattle.ir_laws.specs.declared.labels.Sort.TheVariants.{OfList};
ghost use Rattle.ir_nodes.specs.Fits.{part_sort, term_sort};
ghost use Rattle.ir_nodes.specs.Nodes.{variable_seen};
ghost use Rattle.ir_nodes.specs.Views.{part_of};
ghost use Rattle.std.specs.Prelude.{◌≡◌, ◌≢◌, Some};

use ir_core::{AnyTerm, BoundVarKind, Part, PartSort};
use ir_laws::Sort;

/// The part that names the term.
pub fn part_of(term: AnyTerm) -> Part
    ensures { result ≡ part_of term }
{
    match term {
        AnyTerm::Ty(ty) => Part::Ty(ty),
        AnyTerm::Region(region) => Part::Region(region),
        AnyTerm::Const(konst) => Part::Const(konst),
    }
}

/// The term that the part names, which is no list.
pub fn term_of(part: Part) -> AnyTerm
    requires { part_sort part ≢ OfList }
    ensures { part_of result ≡ part }
{
    match part {
        Part::Ty(ty) => AnyTerm::Ty(ty),
        Part::Const(konst) => AnyTerm::Const(konst),
        Part::Region(region) => AnyTerm::Region(region),
        Part::Tys(_)
        | Part::GenericArgs(_)
        | Part::PatList(_)
        | Part::BoundExistentialPredicates(_)
        | Part::Clauses(_)
        | Part::RegionAssumptions(_)
        | Part::BoundVarKinds(_)
        | Part::VariancesOf(_) => unreachable!(),
    }
}

/// The sort of what the part is, where each list counts as one sort.
pub fn sort_of_part(part: Part) -> Sort
    ensures { result ≡ part_sort part }
{
    match part {
        Part::Ty(_) => Sort::OfType,
        Part::Const(_) => Sort::OfConstant,
        Part::Region(_) => Sort::OfRegion,
        Part::Tys(_)
        | Part::GenericArgs(_)
        | Part::PatList(_)
        | Part::BoundExistentialPredicates(_)
        | Part::Clauses(_)
        | Part::RegionAssumptions(_)
        | Part::BoundVarKinds(_)
        | Part::VariancesOf(_) => Sort::OfList,
    }
}

/// The sort of the handles of terms of this sort, if it has any.
pub(crate) fn term_sort(sort: Sort) -> Option<PartSort>
    ensures { result ≡ term_sort sort }
{
    match sort {
        Sort::OfType => Some(PartSort::Ty),
        Sort::OfRegion => Some(PartSort::Region),
        Sort::OfConstant => Some(PartSort::Const),
        Sort::OfPattern | Sort::OfPredicate | Sort::OfBytes | Sort::OfExistential | Sort::OfList =>
            None,
    }
}

/// The sort of a variable of this kind.
pub(crate) fn kind_sort(kind: BoundVarKind) -> PartSort
    ensures { term_sort (variable_seen kind).sort ≡ Some result }
{
    match kind {
        BoundVarKind::Ty(_) => PartSort::Ty,
        BoundVarKind::Region(_) => PartSort::Region,
        BoundVarKind::Const => PartSort::Const,
    }
}
