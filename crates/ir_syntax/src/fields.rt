//! What labels keep, bind and have as kids. Names aren't looked up here.
ghost use Rattle.ir_laws.specs.Names.{field_forms};
ghost use Rattle.ir_syntax.specs.Grammar.{kind_seen, name_in};
ghost use Rattle.ir_syntax.specs.Steps.{kid_count};
ghost use Rattle.std.specs.Prelude.{◌≡◌, length, option_map};

use ir_laws::{Keyword, Part, Sort};

/// What a label keeps beside its word.
#[derive(Clone, Copy)]
pub enum Field<'a> {
    Chosen(Keyword),
    Number(u32),
    OfKind(VariableKind<'a>),
}

/// The kind of a variable. A type or a region may have the name of an item, and has an empty one else.
#[derive(Clone, Copy)]
pub enum VariableKind<'a> {
    Type(&'a [u8]),
    Region(&'a [u8]),
    /// The region of a closure's environment.
    Environment,
    Constant,
}

impl<'a> VariableKind<'a> {
    /// The sort of such a variable.
    pub fn sort(&self) -> Sort
        ensures { result ≡ (kind_seen self.now).sort }
    {
        match self {
            VariableKind::Type(_) => Sort::OfType,
            VariableKind::Region(_) | VariableKind::Environment => Sort::OfRegion,
            VariableKind::Constant => Sort::OfConstant,
        }
    }

    /// The name that it has.
    pub fn name(&self) -> Option<&'a [u8]>
        ensures { option_map (λ text. text.now) result ≡ name_in (kind_seen self.now) }
    {
        match self {
            VariableKind::Type(name) | VariableKind::Region(name) => {
                if name.is_empty() { None } else { Some(*name) }
            }
            VariableKind::Environment | VariableKind::Constant => None,
        }
    }
}

/// How many of the parts become fields.
pub fn field_count(parts: &[Part]) -> usize
    ensures { result ≡ length (field_forms parts.now) }
{
    let mut count = 0;
    for part in parts {
        match part {
            Part::AField(_) => count += 1,
            Part::Fixed(_) | Part::ForGroup | Part::AKid(_) => {}
        }
    }
    count
}

/// How many of the parts become kids.
pub fn kid_count(parts: &[Part]) -> usize
    ensures { result ≡ kid_count parts.now }
{
    let mut count = 0;
    for part in parts {
        match part {
            Part::AKid(_) => count += 1,
            Part::Fixed(_) | Part::ForGroup | Part::AField(_) => {}
        }
    }
    count
}
