//! What is open at a place of a line, by what is read of it so far.
ghost use Rattle.ir_laws.specs.Expression.{Exprs, Single, Group, NoExpr, ThenExpr};
ghost use Rattle.ir_laws.specs.Phrase.{and_then, bare_or_name, phrase_of};
ghost use Rattle.ir_syntax.specs.Frames.{
  IsLeaf,
  KeepsEnd,
  KeepsGroup,
  KeepsWord,
  Reads,
  ended,
  enter,
  finish,
  gives,
  go_on,
  is_kept,
  is_plain,
  label_start,
  list_word,
  needs,
  opened,
  push_term,
};
ghost use Rattle.ir_syntax.specs.Steps.{Stack, kid_count, step_on};
ghost use Rattle.std.specs.Prelude.{◌≡◌, ◌≤◌, ◌+◌, ◌∷◌, ℕ, [], true, option_map, IfOk, IfSome};

use crate::grammar::{bare_word, field_of, label_before};
use crate::steps::Step;
use crate::variables::kind_of;
use crate::words::name_of;
use ir_laws::{KidForm, Part, Word};
use std::alloc::AllocError;

/// What is open, and what is read of it.
#[derive(Clone, Copy)]
pub(crate) enum Frame<'a> {
    /// The line behind its command, with so many terms still to come.
    Terms(usize),
    /// A list of this word, with so many members.
    List(Word, u32),
    /// A group of which nothing is read.
    Begun,
    /// A group of which only its first word is read: what comes next decides the label.
    Named(&'a [u8]),
    /// A label, with so many of its parts.
    Label(Word, usize),
    /// A group that must begin with `for`.
    Group,
    /// A group that began so, with so many variable kinds.
    Variables(u32),
}

/// What a word makes of a frame: a step, perhaps, and the frame behind it.
#[derive(Clone, Copy)]
pub(crate) struct Taken<'a> {
    pub(crate) step: Option<Step<'a>>,
    pub(crate) frame: Frame<'a>,
}

/// What a group makes of a frame: its own frame, and the one behind it.
#[derive(Clone, Copy)]
pub(crate) struct Around<'a> {
    pub(crate) inner: Frame<'a>,
    pub(crate) outer: Frame<'a>,
}

/// A step on to a frame, where there is a step.
#[inline(always)]
fn after_step<'a>(step: Option<Step<'a>>, frame: Frame<'a>) -> Option<Taken<'a>>
    ensures on { (es : Exprs) (st : Stack) → go_on result es st ≡ and_then (option_map (step_on st) step.entry) (finish frame.entry es) }
    ensures kept { (n m p : ℕ) → is_kept frame.entry ≡ true → needs frame.entry ≤ n + p → gives frame.entry ≡ m → IfSome step.entry (IsLeaf p) → IfSome result (KeepsWord n m) }
{
    Some(Taken {
        step: Some(step?),
        frame,
    })
}

/// The text as a term of its own: a bare label, or a name.
#[inline(always)]
fn term_step(text: &[u8]) -> Option<Step<'_>>
    ensures leaf { IfSome result (IsLeaf 1) }
    ensures read { (st : Stack) → option_map (step_on st) result ≡ option_map (push_term st) (bare_or_name text.now) }
{
    match bare_word(text) {
        Some(word) => Some(Step::Label(word)),
        None => Some(Step::Name(name_of(text)?)),
    }
}

/// The word of the list that a kid is; none where it is a term.
fn list_word(form: KidForm) -> Option<Word>
    ensures { result ≡ list_word form }
{
    match form {
        KidForm::OneOf(_) | KidForm::TypeOrConstant => None,
        KidForm::ListOf(list, _, _) => Some(list),
        KidForm::ArgumentsOf(_) => Some(Word::ArgumentList),
    }
}

/// The text as a part of a label.
#[inline(always)]
fn part_step(part: Part, text: &[u8]) -> Option<Step<'_>>
    requires { is_plain part ≡ true }
    ensures leaf { IfSome result (IsLeaf (kid_count (part ∷ []))) }
    ensures read { Reads part (Single text.now) (λ st. option_map (step_on st) result) }
{
    match part {
        Part::AField(form) => Some(Step::Field(field_of(form, text)?)),
        Part::AKid(form) => match list_word(form) {
            Some(_) => None,
            None => term_step(text),
        },
        Part::Fixed(_) | Part::ForGroup => None,
    }
}

/// What a group is as a part of a label.
#[inline(always)]
fn part_frame<'a>(part: Part) -> Option<Frame<'a>>
    requires { is_plain part ≡ true }
    ensures read { (inner : Exprs) → Reads part (Group inner) (opened result inner) }
    ensures kept { IfSome result (λ f. (is_kept f ≡ true) × (needs f ≡ 0) × (gives f ≡ kid_count (part ∷ []))) }
{
    match part {
        Part::ForGroup => Some(Frame::Group),
        Part::AKid(form) => match list_word(form) {
            Some(list) => Some(Frame::List(list, 0)),
            None => Some(Frame::Begun),
        },
        Part::Fixed(_) | Part::AField(_) => None,
    }
}

/// How many fixed words the parts begin with.
fn label_start(parts: &[Part]) -> usize
    ensures { result ≡ label_start parts.now }
{
    match parts.first() {
        Some(Part::Fixed(_)) => 1,
        Some(Part::ForGroup | Part::AField(_) | Part::AKid(_)) | None => 0,
    }
}

/// What a word makes of a label with so many parts.
#[inline(always)]
fn label_word<'a>(word: Word, at: usize, text: &'a [u8]) -> Option<Taken<'a>>
    requires { is_kept (Frame.Label word at) ≡ true }
    ensures read { (es : Exprs) (st : Stack) → finish (Frame.Label word at) (ThenExpr (Single text.entry.now) es) st ≡ go_on result es st }
    ensures kept { IfSome result (KeepsWord (needs (Frame.Label word at)) 1) }
{
    let part = *word.parts().get(at)?;
    after_step(part_step(part, text), Frame::Label(word, at + 1))
}

/// What a group makes of a label with so many parts.
#[inline(always)]
fn label_group<'a>(word: Word, at: usize) -> Option<Around<'a>>
    requires { is_kept (Frame.Label word at) ≡ true }
    ensures read { (inner es : Exprs) (st : Stack) → finish (Frame.Label word at) (ThenExpr (Group inner) es) st ≡ enter result inner es st }
    ensures kept { IfSome result (KeepsGroup (needs (Frame.Label word at)) 1) }
{
    let part = *word.parts().get(at)?;
    Some(Around {
        inner: part_frame(part)?,
        outer: Frame::Label(word, at + 1),
    })
}

/// What the second word of a group makes of it.
#[inline(always)]
fn second_word<'a>(first: &[u8], text: &'a [u8]) -> Option<Taken<'a>>
    ensures read { (es : Exprs) (st : Stack) → option_map (push_term st) (phrase_of (Group (ThenExpr (Single first.now) (ThenExpr (Single text.entry.now) es)))) ≡ go_on result es st }
    ensures kept { IfSome result (KeepsWord 0 1) }
{
    let word = label_before(first, Some(text))?;
    let start = label_start(word.parts());
    if start == 0 {
        return label_word(word, 0, text);
    }
    Some(Taken {
        step: None,
        frame: Frame::Label(word, start),
    })
}

impl<'a> Frame<'a> {
    /// The frame behind a word, if the word may stand there.
    #[inline(always)]
    pub(crate) fn after_word(self, text: &'a [u8]) -> Result<Option<Taken<'a>>, AllocError>
        requires { is_kept self ≡ true }
        ensures read { IfOk result (λ o. (es : Exprs) (st : Stack) → finish self.entry (ThenExpr (Single text.entry.now) es) st ≡ go_on o es st) }
        ensures kept { IfOk result (λ o. IfSome o (KeepsWord (needs self.entry) (gives self.entry))) }
    {
        match self {
            Frame::Terms(wanted) => {
                if wanted == 0 {
                    return Ok(None);
                }
                Ok(after_step(term_step(text), Frame::Terms(wanted - 1)))
            }
            Frame::List(word, count) => {
                let Some(more) = count.checked_add(1) else {
                    return Err(AllocError);
                };
                Ok(after_step(term_step(text), Frame::List(word, more)))
            }
            Frame::Begun => Ok(Some(Taken {
                step: None,
                frame: Frame::Named(text),
            })),
            Frame::Named(first) => Ok(second_word(first, text)),
            Frame::Label(word, at) => Ok(label_word(word, at, text)),
            Frame::Group => {
                if text != b"for".as_slice() {
                    return Ok(None);
                }
                Ok(Some(Taken {
                    step: None,
                    frame: Frame::Variables(0),
                }))
            }
            Frame::Variables(count) => {
                let Some(more) = count.checked_add(1) else {
                    return Err(AllocError);
                };
                let Some(kind) = kind_of(text) else {
                    return Ok(None);
                };
                Ok(Some(Taken {
                    step: Some(Step::Variable(kind)),
                    frame: Frame::Variables(more),
                }))
            }
        }
    }

    /// The frames in and behind a group, if a group may stand there.
    #[inline(always)]
    pub(crate) fn around(self) -> Result<Option<Around<'a>>, AllocError>
        requires { is_kept self ≡ true }
        ensures read { IfOk result (λ o. (inner es : Exprs) (st : Stack) → finish self.entry (ThenExpr (Group inner) es) st ≡ enter o inner es st) }
        ensures kept { IfOk result (λ o. IfSome o (KeepsGroup (needs self.entry) (gives self.entry))) }
    {
        match self {
            Frame::Terms(wanted) => {
                if wanted == 0 {
                    return Ok(None);
                }
                Ok(Some(Around {
                    inner: Frame::Begun,
                    outer: Frame::Terms(wanted - 1),
                }))
            }
            Frame::List(word, count) => {
                let Some(more) = count.checked_add(1) else {
                    return Err(AllocError);
                };
                Ok(Some(Around {
                    inner: Frame::Begun,
                    outer: Frame::List(word, more),
                }))
            }
            Frame::Named(text) => match label_before(text, None) {
                Some(word) => Ok(label_group(word, 0)),
                None => Ok(None),
            },
            Frame::Label(word, at) => Ok(label_group(word, at)),
            Frame::Begun | Frame::Group | Frame::Variables(_) => Ok(None),
        }
    }

    /// What the end of the line or of the group puts on the stacks, if it may end there.
    #[inline(always)]
    pub(crate) fn end(self) -> Option<Option<Step<'a>>>
        requires { is_kept self ≡ true }
        ensures kept { IfSome result (KeepsEnd (needs self.entry) (gives self.entry)) }
        ensures read { (st : Stack) → finish self.entry NoExpr st ≡ ended result st }
    {
        match self {
            Frame::Terms(wanted) => { if wanted == 0 { Some(None) } else { None } }
            Frame::List(word, count) => Some(Some(Step::List(word, count))),
            Frame::Label(word, at) => {
                if at < word.parts().len() {
                    return None;
                }
                Some(Some(Step::Label(word)))
            }
            Frame::Variables(count) => Some(Some(Step::Bind(count))),
            Frame::Begun | Frame::Named(_) | Frame::Group => None,
        }
    }
}
