//! The names of steps, looked up.
ghost use Rattle.std.specs.Prelude.{◌≡◌, List, [], Some, map as mapped, IfOk, IfErr, OnOk};
ghost use Rattle.ir_core.specs.declared.handles.Part.{Part as PartSeen};
ghost use Rattle.ir_laws.specs.Counts.{sort_of_label};
ghost use Rattle.ir_laws.specs.Environment.{field_meant, kind_in};
ghost use Rattle.ir_laws.specs.Heap.{Heap};
ghost use Rattle.ir_laws.specs.Phrase.{Phrase as PhraseSeen};
ghost use Rattle.ir_laws.specs.Tree.{Field as FieldSeen, OfKind, Text};
ghost use Rattle.ir_nodes.specs.Nodes as table;
ghost use Rattle.ir_nodes.specs.Nodes.{variable_seen};
ghost use Rattle.ir_syntax.specs.declared.steps.Step.TheVariants as code;
ghost use Rattle.ir_script.specs.LookedUp.{IsFaultOf, field_names, field_unknowns, step_names, step_unknowns, field_sort, sort_of_sorts};
ghost use Rattle.ir_script.specs.Operands.{AnswersNames};
ghost use Rattle.ir_syntax.specs.Grammar.{field_seen, kind_seen};
ghost use Rattle.ir_script.specs.Resolved.{IsResolved};
ghost use Rattle.ir_script.specs.Scope.{env_of, scope_names};
ghost use Rattle.ir_syntax.specs.Steps.{AreAmple, IsAmple, Stack, built, label_taken, only, step_on};

use crate::causes::Cause;
use crate::resolved::Resolved;
use crate::scope::Scope;
use ir_core::{BoundRegionKind, BoundTyKind, BoundVarKind};
use ir_laws::{Sort, Word};
use ir_syntax::{Field, Step, VariableKind, field_count};
use std::alloc::Global;

/// Looks the names of steps up. Its lists are kept from line to line.
#[derive(Drop)]
pub(crate) struct Names {
    // For each field that no label has taken yet the sort of its variable kind.
    sorts: Vec<Option<Sort>>,
    pub(crate) resolved: Vec<Resolved>,
}

// The variable of this kind. With a name it is a fault of sorts, since no item is declared, where the name is known.
fn variable_of(scope: &Scope<'_>, kind: &VariableKind<'_>) -> Result<BoundVarKind, Cause>
    ensures known { OnOk result (field_unknowns (scope_names scope.now) (OfKind (kind_seen kind.now)) ≡ 0) }
    ensures ok { (h : Heap PartSeen) → IfOk result (λ v. kind_in (env_of h (scope_names scope.now)) (kind_seen kind.now) ≡ Some (variable_seen v)) }
    ensures err { IfErr result (IsFaultOf (field_unknowns (scope_names scope.now) (OfKind (kind_seen kind.now))) (field_names (OfKind (kind_seen kind.now)))) }
{
    if let Some(name) = kind.name() {
        return match scope.find(name) {
            Some(_) => Err(Cause::Sort),
            None => Err(Cause::Unknown),
        };
    }
    Ok(match kind {
        VariableKind::Type(_) => BoundVarKind::Ty(BoundTyKind::Anon),
        VariableKind::Region(_) => BoundVarKind::Region(BoundRegionKind::Anon),
        VariableKind::Environment => BoundVarKind::Region(BoundRegionKind::ClosureEnv),
        VariableKind::Constant => BoundVarKind::Const,
    })
}

// The field as the interner has it.
fn field_of(scope: &Scope<'_>, field: &Field<'_>) -> Result<ir_nodes::Field, Cause>
    ensures known { OnOk result (field_unknowns (scope_names scope.now) (field_seen field.now) ≡ 0) }
    ensures ok { (h : Heap PartSeen) → IfOk result (λ g. field_meant (env_of h (scope_names scope.now)) (field_seen field.now) ≡ Some (table.field_seen g)) }
    ensures err { IfErr result (IsFaultOf (field_unknowns (scope_names scope.now) (field_seen field.now)) (field_names (field_seen field.now))) }
{
    match field {
        Field::Chosen(word) => Ok(ir_nodes::Field::Chosen(*word)),
        Field::Number(number) => Ok(ir_nodes::Field::Number(*number)),
        Field::OfKind(kind) => Ok(ir_nodes::Field::OfKind(variable_of(scope, kind)?)),
    }
}

// The sort of the field's variable kind.
fn sort_of_field(field: &Field<'_>) -> Option<Sort>
    ensures { result ≡ field_sort (field_seen field.now) }
{
    match field {
        Field::OfKind(kind) => Some(kind.sort()),
        Field::Chosen(_) | Field::Number(_) => None,
    }
}

// The first sort. Where there is none the fields count as a list's.
fn first_sort(sorts: &[Option<Sort>]) -> Sort
    ensures { result ≡ sort_of_sorts sorts.now }
{
    for sort in sorts {
        if let Some(sort) = sort {
            return *sort;
        }
    }
    Sort::OfList
}

// The sort of a label of this word, whose fields have these sorts.
fn sort_of(word: Word, sorts: &[Option<Sort>]) -> Sort
    ensures { (fields : List (FieldSeen Text)) → mapped field_sort fields ≡ sorts.now → result ≡ sort_of_label (record { word = word; fields = fields }) }
{
    match word.sort() {
        Some(sort) => sort,
        None => first_sort(sorts),
    }
}

// Takes the fields of a label of this word, and says its sort.
fn take_fields(sorts: &mut Vec<Option<Sort>>, word: Word) -> Sort
    ensures sort { (st : Stack) → mapped field_sort st.fields ≡ sorts.old.items → result ≡ sort_of_label (label_taken word st) }
    ensures rest { (st : Stack) → mapped field_sort st.fields ≡ sorts.old.items → mapped field_sort (step_on st (code.Label word)).fields ≡ sorts.new.items }
{
    let rest = sorts.len().saturating_sub(field_count(word.parts()));
    let sort = sort_of(word, &sorts[rest..]);
    sorts.truncate(rest);
    sort
}

// What the step is, with its names looked up.
fn next(
    sorts: &mut Vec<Option<Sort>>,
    scope: &Scope<'_>,
    step: &Step<'_>,
) -> Result<Resolved, Cause>
    ensures known { OnOk result (step_unknowns (scope_names scope.now) step.now ≡ 0) }
    ensures ok { (h : Heap PartSeen) (st : Stack) → mapped field_sort st.fields ≡ sorts.old.items → IsAmple st step.now → IfOk result (IsResolved (env_of h (scope_names scope.now)) (scope_names scope.now) st step.now) }
    ensures sorts { (st : Stack) → mapped field_sort st.fields ≡ sorts.old.items → OnOk result (mapped field_sort (step_on st step.now).fields ≡ sorts.new.items) }
    ensures err { IfErr result (IsFaultOf (step_unknowns (scope_names scope.now) step.now) (step_names step.now)) }
{
    match step {
        Step::Name(name) => match scope.find(name) {
            Some(part) => Ok(Resolved::Term(part)),
            None => Err(Cause::Unknown),
        },
        Step::Field(field) => {
            let resolved = field_of(scope, field)?;
            let Ok(_) = sorts.push(sort_of_field(field)) else {
                return Err(Cause::Memory);
            };
            Ok(Resolved::Field(resolved))
        }
        Step::Variable(kind) => Ok(Resolved::Variable(variable_of(scope, kind)?)),
        Step::Bind(count) => Ok(Resolved::Bind(*count)),
        Step::Label(word) => Ok(Resolved::Label(*word, take_fields(sorts, *word))),
        Step::List(word, count) => Ok(Resolved::List(*word, *count)),
    }
}

impl Names {
    /// No steps, which takes no memory.
    pub(crate) fn new(alloc: Global) -> Self
        ensures { result.resolved.items ≡ [] }
    {
        Names {
            sorts: Vec::new(alloc),
            resolved: Vec::new(alloc),
        }
    }

    /// Looks the names of all steps up. A name that isn't declared comes before a fault of sorts, wherever it stands.
    pub(crate) fn resolve(&mut self, scope: &Scope<'_>, steps: &[Step<'_>]) -> Result<(), Cause>
        ensures { (h : Heap PartSeen) (ps : List PhraseSeen) → built steps.now ≡ only ps → AreAmple (only []) steps.now → AnswersNames (env_of h (scope_names scope.now)) (scope_names scope.now) self.new.resolved.items ps result }
    {
        self.sorts.clear();
        self.resolved.clear();
        let mut named = false;
        for step in steps {
            match next(&mut self.sorts, scope, step) {
                Ok(resolved) => {
                    let Ok(_) = self.resolved.push(resolved) else {
                        return Err(Cause::Memory);
                    };
                }
                Err(cause) => match cause {
                    Cause::Sort => named = true,
                    _ => return Err(cause),
                },
            }
        }
        if named { Err(Cause::Sort) } else { Ok(()) }
    }
}
