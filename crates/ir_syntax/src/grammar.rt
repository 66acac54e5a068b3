//! From words to labels, fields and commands, by the table of labels.
ghost use Rattle.ir_laws.specs.Keyword.{choice_words, keyword_text};
ghost use Rattle.ir_laws.specs.Phrase.{bare_word, field_of};
ghost use Rattle.ir_syntax.specs.Grammar.{
  begins_with,
  field_seen,
  is_built_field,
  label_before,
};
ghost use Rattle.std.specs.Prelude.{◌≡◌, bytes_eq, find, option_map, IsTrue};

use crate::fields::Field;
use crate::labels::labels_near;
use crate::variables::{kind_of, region_kind_of};
use crate::words::number_of;
use ir_laws::{Choice, FieldForm, Keyword, Part, Word};

/// The label that is written as this word alone.
pub(crate) fn bare_word(text: &[u8]) -> Option<Word>
    ensures { result ≡ bare_word text.now }
{
    labels_near(text)
        .iter()
        .copied()
        .find(|word| word.text() == text && word.parts().is_empty())
}

/// Whether the parts begin with no fixed word, or with the next word.
fn begins_with(parts: &[Part], next: Option<&[u8]>) -> bool
    ensures { result ≡ begins_with parts.now (option_map (λ text. text.now) next.entry) }
{
    match (parts.first(), next) {
        (None, _) => false,
        (Some(Part::Fixed(word)), Some(text)) => word.text() == text,
        (Some(Part::Fixed(_)), None) => false,
        (Some(Part::ForGroup | Part::AField(_) | Part::AKid(_)), _) => true,
    }
}

/// The label that is written in brackets with this word, before the next word or a group.
pub(crate) fn label_before(text: &[u8], next: Option<&[u8]>) -> Option<Word>
    ensures { result ≡ label_before text.now (option_map (λ text. text.now) next.entry) }
{
    labels_near(text).iter().copied().find(|word| word.text() == text
        && begins_with(word.parts(), next))
}

/// The keyword of this choice that the text is.
fn keyword_of(choice: Choice, text: &[u8]) -> Option<Keyword>
    ensures { result ≡ find (λ w. bytes_eq (keyword_text w) text.now) (choice_words choice) }
{
    choice
        .keywords()
        .iter()
        .copied()
        .find(|word| word.text() == text)
}

/// The text as a field of this form.
pub(crate) fn field_of(form: FieldForm, text: &[u8]) -> Option<Field<'_>>
    requires { IsTrue (is_built_field form) }
    ensures { option_map field_seen result ≡ field_of form text.now }
{
    match form {
        FieldForm::OneWordOf(choice) => Some(Field::Chosen(keyword_of(choice, text)?)),
        FieldForm::ANumber => Some(Field::Number(number_of(text)?)),
        FieldForm::AVariableKind => Some(Field::OfKind(kind_of(text)?)),
        FieldForm::ARegionKind => Some(Field::OfKind(region_kind_of(text)?)),
        FieldForm::ItemOf(_) | FieldForm::AliasOfTrait | FieldForm::IdOf(_) | FieldForm::AMemory =>
            None,
    }
}
