//! Terms in places that want another sort, and lists of a length that theirs does not take.
ghost use Rattle.std.specs.Prelude.{◌≡◌, ◌⊎◌, ◌&&◌, ◌++◌, List, [], Option, true, Err, IfErr, IfOk, None as NoPlace, OnErr, OnOk};
ghost use Rattle.ir_core.specs.declared.handles.Part.{Part as PartSeen};
ghost use Rattle.ir_laws.specs.Environment.{Environment};
ghost use Rattle.ir_laws.specs.Heap.{Heap};
ghost use Rattle.ir_laws.specs.declared.labels.Sort.{Sort as SortSeen};
ghost use Rattle.ir_laws.specs.declared.words.Word.{Word as WordSeen};
ghost use Rattle.ir_laws.specs.Phrase.{Phrase as PhraseSeen};
ghost use Rattle.ir_laws.specs.Sorts.{is_sort_among, suits, length_misfits, kid_wanted, kids_wanted, places};
ghost use Rattle.ir_script.specs.declared.causes.Cause.TheVariants as cause;
ghost use Rattle.ir_script.specs.Causes.{cause_seen, Finds, Says};
ghost use Rattle.ir_script.specs.Open.{is_like, kids_open, open_places, own_misfits, place_open, places_made, sort_behind, sort_made, sort_open, kids_made};
ghost use Rattle.ir_script.specs.Operands.{AnswersPlaces, are_alike};
ghost use Rattle.ir_script.specs.Resolved.{StandFor};
ghost use Rattle.ir_script.specs.Scope.{AreTerms, Named, env_of};
ghost use Rattle.ir_script.specs.Wanted.{wanted_seen, bare};

use crate::causes::Cause;
use crate::resolved::Resolved;
use ir_laws::{IfEmpty, KidForm, Part, Sort, Word};
use ir_nodes::sort_of_part;
use ir_syntax::kid_count;

/// What a place wants. The sorts of an item's arguments are not known, as long as a label has no item.
#[derive(Clone, Copy, PartialEq, Eq, Debug)]
pub(crate) enum Wanted {
    /// A term that stands by itself: a type, a region, a constant, a pattern or a predicate.
    Operand,
    /// A term of this sort.
    One(Sort),
    TypeOrConstant,
    /// A type, a region or a constant.
    Argument,
    /// A list of members of this sort, and what an empty one is.
    Members(Sort, IfEmpty),
    /// A list of arguments, whose sorts are not known.
    Arguments,
}

impl Wanted {
    /// What a kid of this form is wanted to be.
    fn of_kid(form: KidForm) -> Wanted
        ensures { (env : Environment) → wanted_seen result ≡ kid_wanted env [] form }
    {
        match form {
            KidForm::OneOf(sort) => Wanted::One(sort),
            KidForm::TypeOrConstant => Wanted::TypeOrConstant,
            KidForm::ListOf(_, sort, if_empty) => Wanted::Members(sort, if_empty),
            KidForm::ArgumentsOf(_) => Wanted::Arguments,
        }
    }

    /// Whether a term of this sort is wanted.
    fn suits(self, sort: Sort) -> bool
        ensures { (word : Word) → result ≡ suits (wanted_seen self) word sort }
    {
        match self {
            Wanted::Operand => is_among(
                &[
                    Sort::OfType,
                    Sort::OfRegion,
                    Sort::OfConstant,
                    Sort::OfPattern,
                    Sort::OfPredicate,
                ],
                sort,
            ),
            Wanted::One(wanted) => is_among(&[wanted], sort),
            Wanted::TypeOrConstant => is_among(&[Sort::OfType, Sort::OfConstant], sort),
            Wanted::Argument => is_among(&[Sort::OfType, Sort::OfRegion, Sort::OfConstant], sort),
            Wanted::Members(_, _) | Wanted::Arguments => true,
        }
    }

    /// The fault of a list of so many members.
    fn length_misfit(self, count: usize) -> Option<Cause>
        ensures { Finds result (length_misfits (wanted_seen self) count) }
    {
        let Wanted::Members(_, if_empty) = self else {
            return None;
        };
        if count != 0 {
            return None;
        }
        match if_empty {
            IfEmpty::Fine => None,
            IfEmpty::ArityIfEmpty => Some(Cause::Arity),
            IfEmpty::EmptyOrIfEmpty => Some(Cause::EmptyOr),
        }
    }

    /// The parts of a label of this word, by which its first kids are wanted; a list has none.
    fn parts_of(self, word: Word) -> &'static [Part]
        ensures { (env : Environment) → kids_wanted env [] result.now ≡ (places env (wanted_seen self) (bare word)).first }
    {
        match self {
            Wanted::Members(_, _) | Wanted::Arguments => &[],
            Wanted::Operand | Wanted::One(_) | Wanted::TypeOrConstant | Wanted::Argument => {
                word.parts()
            }
        }
    }

    /// What the further kids are wanted to be.
    fn further(self) -> Wanted
        ensures { (env : Environment) (word : Word) → wanted_seen result ≡ (places env (wanted_seen self) (bare word)).further }
    {
        match self {
            Wanted::Members(sort, _) => Wanted::One(sort),
            Wanted::Operand
            | Wanted::One(_)
            | Wanted::TypeOrConstant
            | Wanted::Argument
            | Wanted::Arguments => Wanted::Argument,
        }
    }
}

fn is_among(sorts: &[Sort], sort: Sort) -> bool
    ensures { result ≡ is_sort_among sorts.now sort }
{
    sorts.contains(&sort)
}

/// Open places side by side that want the same.
#[derive(Clone, Copy)]
pub(crate) struct Pending {
    wanted: Wanted,
    // How many places there are beside the rightmost one.
    more: usize,
}

// Whether the other sort is the same, if there is another.
fn is_like(sort: Sort, other: Option<Sort>) -> bool
    ensures { result ≡ is_like sort other }
{
    match other {
        Some(other) => sort == other,
        None => true,
    }
}

// The operands that are behind: the sort of the first of them, and whether all have one sort.
#[derive(Clone, Copy)]
struct Operands {
    first: Option<Sort>,
    alike: bool,
}

impl Operands {
    // These behind a term of this sort, which is one of them if no place wants it.
    fn with(self, place: Option<Wanted>, sort: Sort) -> Operands
        ensures { (front : List (Option SortSeen)) → (are_alike (front ++ sort_open place sort ++ sort_behind self.first) && self.alike) ≡ (are_alike (front ++ sort_behind result.first) && result.alike) }
    {
        if place.is_some() {
            return self;
        }
        Operands {
            first: Some(sort),
            alike: self.alike && is_like(sort, self.first),
        }
    }
}

// The sort of the term that the step makes, if it makes one.
fn sort_made(step: &Resolved) -> Option<Sort>
    ensures { result ≡ sort_made step.now }
{
    match step {
        Resolved::Term(part) => Some(sort_of_part(*part)),
        Resolved::Label(_, sort) => Some(*sort),
        // A list has no fields, by which else its sort would go.
        Resolved::List(word, _) => Some(word.sort().unwrap_or(Sort::OfList)),
        Resolved::Field(_) | Resolved::Variable(_) | Resolved::Bind(_) => None,
    }
}

// The word of a label or a list, and how many terms it takes as kids.
fn kids_made(step: &Resolved) -> Option<(Word, usize)>
    ensures { result ≡ kids_made step.now }
{
    match step {
        Resolved::Label(word, _) => Some((*word, kid_count(word.parts()))),
        Resolved::List(word, count) => Some((*word, *count as usize)),
        Resolved::Term(_) | Resolved::Field(_) | Resolved::Variable(_) | Resolved::Bind(_) => None,
    }
}

// Closes the rightmost open place, and says what it wants.
fn next_place(pending: &mut Vec<Pending>) -> Option<Wanted>
    ensures places { open_places pending.old.items ≡ open_places pending.new.items ++ place_open result }
    ensures none { result ≡ NoPlace → pending.new.items ≡ [] }
{
    if pending.is_empty() {
        return None;
    }
    let last = pending.len() - 1;
    let run = pending[last];
    if run.more == 0 {
        pending.pop();
    } else {
        pending[last].more = run.more - 1;
    }
    Some(run.wanted)
}

// Opens so many places for the kids of a label of this word.
fn open_kids(
    pending: &mut Vec<Pending>,
    wanted: Wanted,
    word: Word,
    count: usize,
) -> Result<(), Cause>
    ensures ok { (env : Environment) → OnOk result (open_places pending.new.items ≡ open_places pending.old.items ++ places_made env (wanted_seen wanted) (Some (word, count))) }
    ensures err { OnErr result (result ≡ Err cause.Memory) }
{
    let mut left = count;
    for part in wanted.parts_of(word) {
        if left == 0 {
            return Ok(());
        }
        if let Part::AKid(form) = part {
            let wanted = Wanted::of_kid(*form);
            let Ok(_) = pending.push(Pending { wanted, more: 0 }) else {
                return Err(Cause::Memory);
            };
            left -= 1;
        }
    }
    if left > 0 {
        let run = Pending {
            wanted: wanted.further(),
            more: left - 1,
        };
        let Ok(_) = pending.push(run) else {
            return Err(Cause::Memory);
        };
    }
    Ok(())
}

// Tests a term in its place, and opens the places of its kids.
fn enter(
    pending: &mut Vec<Pending>,
    wanted: Wanted,
    sort: Sort,
    kids: Option<(Word, usize)>,
) -> Result<(), Cause>
    ensures fits { OnOk result ((word : WordSeen) → own_misfits (wanted_seen wanted) word sort kids ≡ []) }
    ensures places { (env : Environment) → OnOk result (open_places pending.new.items ≡ open_places pending.old.items ++ places_made env (wanted_seen wanted) kids) }
    ensures err { IfErr result (λ c. (cause_seen c ≡ NoPlace) ⊎ ((word : WordSeen) → Says c (own_misfits (wanted_seen wanted) word sort kids))) }
{
    if !wanted.suits(sort) {
        return Err(Cause::Sort);
    }
    let Some((word, count)) = kids else {
        return Ok(());
    };
    if let Some(cause) = wanted.length_misfit(count) {
        return Err(cause);
    }
    if count == 0 {
        return Ok(());
    }
    open_kids(pending, wanted, word, count)
}

/// Whether all operands have one sort, if each term suits its place. The steps are read from the last one on, so that a label comes before its kids, the last of these first.
pub(crate) fn misfit(pending: &mut Vec<Pending>, resolved: &[Resolved]) -> Result<bool, Cause>
    ensures { (h : Heap PartSeen) (ns : List Named) (ps : List PhraseSeen) → AreTerms h ns → StandFor (env_of h ns) ns resolved.now ps → AnswersPlaces (env_of h ns) ps result }
{
    pending.clear();
    let mut operands = Operands {
        first: None,
        alike: true,
    };
    let mut left = resolved.len();
    while left > 0 {
        left -= 1;
        let step = &resolved[left];
        let Some(sort) = sort_made(step) else {
            continue;
        };
        let place = next_place(pending);
        operands = operands.with(place, sort);
        enter(
            pending,
            place.unwrap_or(Wanted::Operand),
            sort,
            kids_made(step),
        )?;
    }
    Ok(operands.alike)
}
