//! Steps whose names are looked up.

use ir_core::{BoundVarKind, Part};
use ir_laws::{Sort, Word};
use ir_nodes::Field;

/// What a step is when its names are looked up: a name is its part, a variable kind has the id that its name stands for, and a label knows its sort.
#[derive(Clone, Copy)]
pub(crate) enum Resolved {
    Term(Part),
    Field(Field),
    Variable(BoundVarKind),
    Bind(u32),
    Label(Word, Sort),
    List(Word, u32),
}
