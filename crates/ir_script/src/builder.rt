//! The making of terms: from resolved steps to parts of an interner.
ghost use Rattle.ir_core.specs.declared.handles.Part.{Part as PartSeen};
ghost use Rattle.ir_laws.specs.Heap.{Heap};
ghost use Rattle.ir_laws.specs.Label.{row};
ghost use Rattle.ir_nodes.specs.Fits.{fits_row};
ghost use Rattle.ir_nodes.specs.Nodes.{layer_of, node_layer};
ghost use Rattle.ir_script.specs.Making.{AreRoots, FitsNode, IsNext, TakesStep, binder_on, fields_on, kids_on};
ghost use Rattle.ir_script.specs.Grove.{AllFit, bare, grove, made};
ghost use Rattle.ir_script.specs.Kept.{AreLeaves};
ghost use Rattle.ir_script.specs.declared.resolved.Resolved.TheVariants as resolved;
ghost use Rattle.ir_syntax.specs.Steps.{field_count, group_count, kid_count};
ghost use Rattle.ir_table.specs.Interner.{heap, state};
ghost use Rattle.ir_table.specs.State.{Makes};
ghost use Rattle.std.specs.Prelude.{◌≡◌, ◌-◌, [], length, take, true, OnOk};

use crate::leaves::Leaves;
use crate::resolved::Resolved;
use ir_core::{BoundVarKind, BoundVarKinds, Part, R};
use ir_laws::{Part as RowPart, Sort, Word};
use ir_nodes::{Field, Node};
use ir_syntax::{field_count, kid_count};
use ir_table::{InternList, Interner};
use std::alloc::Global;

/// The stacks of what is made, kept from line to line so that a step takes no memory of its own.
#[derive(Drop)]
pub(crate) struct Builder {
    pub(crate) parts: Vec<Part>,
    fields: Vec<Field>,
    variables: Vec<BoundVarKind>,
    binders: Vec<BoundVarKinds>,
    leaves: Leaves,
}

// How many groups of variable kinds the parts take: one at most.
fn group_count(parts: &[RowPart]) -> usize
    ensures { result ≡ group_count parts.now }
{
    for part in parts {
        match part {
            RowPart::ForGroup => return 1,
            RowPart::Fixed(_) | RowPart::AField(_) | RowPart::AKid(_) => {}
        }
    }
    0
}

impl Builder {
    /// Nothing made, which takes no memory.
    pub(crate) fn new(alloc: Global) -> Self
        ensures leaves { (h : Heap PartSeen) → AreLeaves h result.leaves }
    {
        Builder {
            parts: Vec::new(alloc),
            fields: Vec::new(alloc),
            variables: Vec::new(alloc),
            binders: Vec::new(alloc),
            leaves: Leaves::new(),
        }
    }

    // The node of the word over the topmost fields, list of variables and parts.
    fn node(&self, word: Word) -> Node
        requires { FitsNode word (fields_on word self.now) (binder_on word self.now) (kids_on word self.now) }
        ensures layer { node_layer result ≡ layer_of word (fields_on word self.now) (binder_on word self.now) (kids_on word self.now) }
        ensures fits { fits_row (node_layer result) ≡ true }
    {
        let row = word.parts();
        let fields = self.fields.len().saturating_sub(field_count(row));
        let kids = self.parts.len().saturating_sub(kid_count(row));
        let binders = self.binders.len().saturating_sub(group_count(row));
        let binder = self.binders[binders..].first().copied();
        Node::new(word, &self.fields[fields..], binder, &self.parts[kids..])
    }

    // Takes off what a label of the word has taken.
    fn cut(&mut self, word: Word)
        ensures parts { self.new.parts.items ≡ take (length self.old.parts.items - kid_count (row word).parts) self.old.parts.items }
        ensures fields { self.new.fields.items ≡ take (length self.old.fields.items - field_count (row word).parts) self.old.fields.items }
        ensures variables { self.new.variables.items ≡ self.old.variables.items }
        ensures binders { self.new.binders.items ≡ take (length self.old.binders.items - group_count (row word).parts) self.old.binders.items }
        ensures leaves { self.new.leaves ≡ self.old.leaves }
    {
        let row = word.parts();
        let fields = self.fields.len().saturating_sub(field_count(row));
        let kids = self.parts.len().saturating_sub(kid_count(row));
        let binders = self.binders.len().saturating_sub(group_count(row));
        self.fields.truncate(fields);
        self.parts.truncate(kids);
        self.binders.truncate(binders);
    }

    // The list of the topmost so many variables.
    fn bind(&mut self, cx: &mut Interner, count: u32) -> R<()>
        requires { IsNext (heap cx.old) self.old (resolved.Bind count) }
        ensures takes { TakesStep (state cx.old) (state cx.new) self.old self.new (resolved.Bind count) result }
        ensures leaves { self.new.leaves ≡ self.old.leaves }
    {
        let at = self.variables.len().saturating_sub(count as usize);
        let list = BoundVarKinds::new_from_slice(cx, &self.variables[at..])?;
        self.variables.truncate(at);
        self.binders.push(list)?;
        Ok(())
    }

    // The part of a label.
    fn label(&mut self, cx: &mut Interner, word: Word, sort: Sort) -> R<()>
        requires next { IsNext (heap cx.old) self.old (resolved.Label word sort) }
        requires leaves { AreLeaves (heap cx.old) self.old.leaves }
        ensures takes { TakesStep (state cx.old) (state cx.new) self.old self.new (resolved.Label word sort) result }
        ensures leaves { OnOk result (AreLeaves (heap cx.new) self.new.leaves) }
    {
        let part = cx.node(self.node(word))?;
        self.cut(word);
        self.leaves.keep(word, part);
        self.parts.push(part)?;
        Ok(())
    }

    // The list of the topmost so many parts.
    fn list(&mut self, cx: &mut Interner, word: Word, count: u32) -> R<()>
        requires { IsNext (heap cx.old) self.old (resolved.List word count) }
        ensures takes { TakesStep (state cx.old) (state cx.new) self.old self.new (resolved.List word count) result }
        ensures leaves { self.new.leaves ≡ self.old.leaves }
    {
        let at = self.parts.len().saturating_sub(count as usize);
        let list = cx.types(&self.parts[at..])?;
        self.parts.truncate(at);
        self.parts.push(list)?;
        Ok(())
    }

    // Takes one step.
    fn step(&mut self, cx: &mut Interner, step: Resolved) -> R<()>
        requires next { IsNext (heap cx.old) self.old step }
        requires leaves { AreLeaves (heap cx.old) self.old.leaves }
        ensures takes { TakesStep (state cx.old) (state cx.new) self.old self.new step result }
        ensures leaves { OnOk result (AreLeaves (heap cx.new) self.new.leaves) }
    {
        match step {
            Resolved::Term(part) => {
                self.parts.push(part)?;
                Ok(())
            }
            Resolved::Field(field) => {
                self.fields.push(field)?;
                Ok(())
            }
            Resolved::Variable(kind) => {
                self.variables.push(kind)?;
                Ok(())
            }
            Resolved::Bind(count) => self.bind(cx, count),
            Resolved::Label(word, sort) => match self.leaves.find(word) {
                Some(part) => {
                    self.parts.push(part)?;
                    Ok(())
                }
                None => self.label(cx, word, sort),
            },
            Resolved::List(word, count) => self.list(cx, word, count),
        }
    }

    /// Makes the terms that the steps stand for, and leaves their parts.
    pub(crate) fn build(&mut self, cx: &mut Interner, steps: &[Resolved]) -> R<()>
        requires fit { AllFit (heap cx.old) bare steps.now }
        requires leaves { AreLeaves (heap cx.old) self.old.leaves }
        ensures makes { Makes (state cx.old) (state cx.new) (made (grove (heap cx.old) steps.now)) result }
        ensures built { OnOk result (AreRoots (heap cx.new) (grove (heap cx.old) steps.now).roots self.new.parts.items) }
        ensures leaves { OnOk result (AreLeaves (heap cx.new) self.new.leaves) }
    {
        self.parts.clear();
        self.fields.clear();
        self.variables.clear();
        self.binders.clear();
        for step in steps {
            self.step(cx, *step)?;
        }
        Ok(())
    }
}
