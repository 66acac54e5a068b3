//! A line's terms as one flat list of steps, in the order of building.
ghost use Rattle.ir_syntax.specs.Grammar.{kind_seen, name_in};
ghost use Rattle.std.specs.Prelude.{◌≡◌, option_map};

use crate::fields::{Field, VariableKind};
use ir_laws::Word;

/// A step puts one thing on a stack, over what stands there before: terms, fields, variable kinds and groups of these have a stack each.
#[derive(Clone, Copy)]
pub enum Step<'a> {
    /// A name is a term.
    Name(&'a [u8]),
    /// A field of a label to come.
    Field(Field<'a>),
    /// A variable kind of a group to come.
    Variable(VariableKind<'a>),
    /// The topmost so many variable kinds are a group.
    Bind(u32),
    /// A label of this word takes as many of the topmost fields, groups and terms as its row has.
    Label(Word),
    /// A list of this word has so many of the topmost terms as members.
    List(Word, u32),
}
