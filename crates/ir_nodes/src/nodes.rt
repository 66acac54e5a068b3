//! Nodes one layer deep.
ghost use Rattle.ir_laws.specs.Counts.{sort_of_label};
ghost use Rattle.ir_laws.specs.Formed.{kid_forms};
ghost use Rattle.ir_laws.specs.Label.{row};
ghost use Rattle.ir_laws.specs.Names.{field_forms};
ghost use Rattle.ir_laws.specs.Parts.{has_for_group};
ghost use Rattle.ir_nodes.specs.Fits.{are_of_forms, fits_row, kids_fit, term_sort};
ghost use Rattle.ir_nodes.specs.Nodes.{binder_in, fields_in, kids_in, kids_of, layer_of, node_layer};
ghost use Rattle.ir_nodes.specs.Shapes.{is_shape, look};
ghost use Rattle.std.specs.Prelude.{◌≡◌, IfSome, Some, is_some, length, map, true};

use crate::sorts::{kind_sort, term_sort};
use ir_core::{BoundVar, BoundVarKind, BoundVarKinds, DebruijnIndex, Part, PartSort};
use ir_laws::{Keyword, Word};

/// One field of a node.
#[derive(Clone, Copy, PartialEq, Eq, Debug)]
pub enum Field {
    Chosen(Keyword),
    /// The index, the universe or the number of a variable.
    Number(u32),
    OfKind(BoundVarKind),
}

/// What stands behind a node's word, in a variant for each form of row.
#[derive(Clone, Copy, PartialEq, Eq, Hash, Debug)]
pub enum Content {
    Bare,
    Number(u32),
    /// A variable's number and kind.
    Numbered(u32, BoundVarKind),
    /// A variable's index or universe, its number and its kind.
    Placed(u32, u32, BoundVarKind),
    One(Part),
    Two(Part, Part),
    ChosenOne(Keyword, Part),
    ChosenTwo(Keyword, Part, Part),
    /// Under a binder.
    BoundOne(BoundVarKinds, Part),
    /// A function's header and the list of its types, under a binder.
    Signature(Keyword, Keyword, Keyword, BoundVarKinds, Part),
    /// The same, opened: no node of a table, but a value.
    Opened(Keyword, Keyword, Keyword, Part),
}

/// The kids of a node, in order.
#[derive(Clone, Copy, PartialEq, Eq, Debug)]
pub enum Kids {
    None,
    One(Part),
    Two(Part, Part),
}

impl Kids {
    ghost use Rattle.std.specs.Prelude.{slice_get};

    /// How many there are.
    pub fn len(self) -> usize
        ensures { result ≡ length (kids_of self) }
    {
        match self {
            Kids::None => 0,
            Kids::One(_) => 1,
            Kids::Two(_, _) => 2,
        }
    }

    /// The kid at the index, if there is one.
    pub fn get(self, index: usize) -> Option<Part>
        ensures { result ≡ slice_get (kids_of self) index }
    {
        match self {
            Kids::None => None,
            Kids::One(a) => [a].get(index).copied(),
            Kids::Two(a, b) => [a, b].get(index).copied(),
        }
    }
}

/// A node that is no list: its word, and the fields, the list of the variables that it binds and the kids behind that.
#[derive(Clone, Copy, PartialEq, Eq, Hash, Debug)]
pub struct Node {
    pub word: Word,
    pub content: Content,
}

// What stands behind a node's word with these fields, this binder and these kids, if some row has this shape.
fn shaped(fields: &[Field], binder: Option<BoundVarKinds>, kids: &[Part]) -> Option<Content>
    ensures shape { is_some result ≡ is_shape (map look fields.now) (is_some binder) (length kids.now) }
    ensures fields { IfSome result (λ c. fields_in c ≡ fields.now) }
    ensures binder { IfSome result (λ c. binder_in c ≡ binder) }
    ensures kids { IfSome result (λ c. kids_in c ≡ kids.now) }
{
    match (fields, binder, kids) {
        ([], None, []) => Some(Content::Bare),
        ([Field::Number(n)], None, []) => Some(Content::Number(*n)),
        ([Field::Number(n), Field::OfKind(v)], None, []) => Some(Content::Numbered(*n, *v)),
        ([Field::Number(i), Field::Number(n), Field::OfKind(v)], None, []) => {
            Some(Content::Placed(*i, *n, *v))
        }
        ([], None, [a]) => Some(Content::One(*a)),
        ([], None, [a, b]) => Some(Content::Two(*a, *b)),
        ([Field::Chosen(k)], None, [a]) => Some(Content::ChosenOne(*k, *a)),
        ([Field::Chosen(k)], None, [a, b]) => Some(Content::ChosenTwo(*k, *a, *b)),
        ([], Some(v), [a]) => Some(Content::BoundOne(v, *a)),
        ([Field::Chosen(s), Field::Chosen(c), Field::Chosen(w)], Some(v), [a]) => {
            Some(Content::Signature(*s, *c, *w, v, *a))
        }
        ([Field::Chosen(s), Field::Chosen(c), Field::Chosen(w)], None, [a]) => {
            Some(Content::Opened(*s, *c, *w, *a))
        }
        _ => None,
    }
}

impl Node {
    /// The node of the word with these fields, this binder and these kids.
    #[tactic(auto, using(crate::proofs::ShapeLemmas::formed, crate::proofs::RowLemmas::fitted))]
    pub fn new(word: Word, fields: &[Field], binder: Option<BoundVarKinds>, kids: &[Part]) -> Node
        requires fields { are_of_forms (field_forms (row word).parts) fields.now ≡ true }
        requires binder { is_some binder ≡ has_for_group (row word).parts }
        requires kids { kids_fit (kid_forms (row word).parts) kids.now ≡ true }
        requires sort { is_some (term_sort (sort_of_label (layer_of word fields.now binder kids.now).label)) ≡ true }
        ensures layer { node_layer result ≡ layer_of word fields.now binder kids.now }
        ensures fits { fits_row (node_layer result) ≡ true }
    {
        match shaped(fields, binder, kids) {
            Some(content) => Node { word, content },
            None => unreachable!(),
        }
    }
}

impl Node {
    ghost use Rattle.std.specs.Prelude.{slice_get};
    ghost use Rattle.ir_laws.specs.Heap.{leaf_of};
    ghost use Rattle.ir_nodes.specs.Layers.{over_kids};
    ghost use Rattle.ir_nodes.specs.Nodes.{variable_leaf};
    ghost use Rattle.std.specs.Option.{option_map};
    ghost use Rattle.std.specs.Prelude.{[], IsSome, None};

    /// The field at the index, if there is one.
    pub fn field(&self, index: usize) -> Option<Field>
        ensures { result ≡ slice_get (fields_in self.now.content) index }
    {
        match self.content {
            Content::Bare | Content::One(_) | Content::Two(_, _) | Content::BoundOne(_, _) => None,
            Content::Number(n) => [Field::Number(n)].get(index).copied(),
            Content::Numbered(n, kind) => {
                [Field::Number(n), Field::OfKind(kind)].get(index).copied()
            }
            Content::Placed(i, n, kind) => {
                [Field::Number(i), Field::Number(n), Field::OfKind(kind)]
                    .get(index)
                    .copied()
            }
            Content::ChosenOne(word, _) | Content::ChosenTwo(word, _, _) => {
                [Field::Chosen(word)].get(index).copied()
            }
            Content::Signature(a, b, c, _, _) | Content::Opened(a, b, c, _) => {
                [Field::Chosen(a), Field::Chosen(b), Field::Chosen(c)]
                    .get(index)
                    .copied()
            }
        }
    }

    /// The sort of the handle that names it, if it has one.
    pub fn part_sort(&self) -> Option<PartSort>
        ensures { result ≡ term_sort (sort_of_label (node_layer self.now).label) }
    {
        match self.word.sort() {
            Some(sort) => term_sort(sort),
            None => match self.content {
                Content::Numbered(_, kind) | Content::Placed(_, _, kind) => Some(kind_sort(kind)),
                Content::Bare
                | Content::Number(_)
                | Content::One(_)
                | Content::Two(_, _)
                | Content::ChosenOne(_, _)
                | Content::ChosenTwo(_, _, _)
                | Content::BoundOne(_, _)
                | Content::Signature(_, _, _, _, _)
                | Content::Opened(_, _, _, _) => None,
            },
        }
    }

    /// The variable that it is, if it is one that a binder of a term binds: the index of that binder, the variable's number and its kind.
    pub fn bound_variable(&self) -> Option<(DebruijnIndex, BoundVar, BoundVarKind)>
        ensures leaf { leaf_of (node_layer self.now).label ≡ option_map variable_leaf result }
        ensures bare { IsSome result → (binder_in self.now.content ≡ None) × (kids_in self.now.content ≡ []) }
    {
        match self.content {
            Content::Placed(index, number, kind) => {
                if self.word == Word::BoundVariable {
                    Some((DebruijnIndex(index), BoundVar(number), kind))
                } else {
                    None
                }
            }
            Content::Bare
            | Content::Number(_)
            | Content::Numbered(_, _)
            | Content::One(_)
            | Content::Two(_, _)
            | Content::ChosenOne(_, _)
            | Content::ChosenTwo(_, _, _)
            | Content::BoundOne(_, _)
            | Content::Signature(_, _, _, _, _)
            | Content::Opened(_, _, _, _) => None,
        }
    }

    /// The list of the variables that it binds; none where it is no binder.
    pub fn binder(&self) -> Option<BoundVarKinds>
        ensures { result ≡ binder_in self.now.content }
    {
        match self.content {
            Content::BoundOne(variables, _) | Content::Signature(_, _, _, variables, _) => {
                Some(variables)
            }
            Content::Bare
            | Content::Number(_)
            | Content::Numbered(_, _)
            | Content::Placed(_, _, _)
            | Content::One(_)
            | Content::Two(_, _)
            | Content::ChosenOne(_, _)
            | Content::ChosenTwo(_, _, _)
            | Content::Opened(_, _, _, _) => None,
        }
    }

    /// Its kids.
    pub fn kids(&self) -> Kids
        ensures { kids_of result ≡ kids_in self.now.content }
    {
        match self.content {
            Content::Bare
            | Content::Number(_)
            | Content::Numbered(_, _)
            | Content::Placed(_, _, _) => Kids::None,
            Content::One(a)
            | Content::ChosenOne(_, a)
            | Content::BoundOne(_, a)
            | Content::Signature(_, _, _, _, a)
            | Content::Opened(_, _, _, a) => Kids::One(a),
            Content::Two(a, b) | Content::ChosenTwo(_, a, b) => Kids::Two(a, b),
        }
    }

    /// The same node over other kids, as many as its own.
    pub fn with_kids(&self, kids: &[Part]) -> Node
        requires { length kids.now ≡ length (kids_in self.now.content) }
        ensures { node_layer result ≡ over_kids (node_layer self.now) kids.now }
    {
        let content = match self.content {
            Content::Bare
            | Content::Number(_)
            | Content::Numbered(_, _)
            | Content::Placed(_, _, _) => self.content,
            Content::One(_) => Content::One(kids[0]),
            Content::Two(_, _) => Content::Two(kids[0], kids[1]),
            Content::ChosenOne(word, _) => Content::ChosenOne(word, kids[0]),
            Content::ChosenTwo(word, _, _) => Content::ChosenTwo(word, kids[0], kids[1]),
            Content::BoundOne(variables, _) => Content::BoundOne(variables, kids[0]),
            Content::Signature(safety, abi, variadic, variables, _) => {
                Content::Signature(safety, abi, variadic, variables, kids[0])
            }
            Content::Opened(safety, abi, variadic, _) => {
                Content::Opened(safety, abi, variadic, kids[0])
            }
        };
        Node {
            word: self.word,
            content,
        }
    }
}
