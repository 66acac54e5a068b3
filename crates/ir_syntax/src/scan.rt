//! Reads a line from its left into steps, with no tree between.
ghost use Rattle.ir_laws.specs.Expression.{Opens, Closes, Word, tokens_of};
ghost use Rattle.ir_laws.specs.Form.{form_of};
ghost use Rattle.ir_syntax.specs.Commands.{HasTerms, IsTerms, terms_of};
ghost use Rattle.ir_syntax.specs.Frames.{maybe_on, taken_by};
ghost use Rattle.ir_syntax.specs.Reading.{IsOpen, Takes, ahead, if_goes};
ghost use Rattle.ir_syntax.specs.Steps.{AreAmple, IsKnown, built, only};
ghost use Rattle.ir_syntax.specs.Tokens.{token_seen};
ghost use Rattle.std.specs.Prelude.{◌≡◌, ◌≤◌, [], length, None, Some, IfErr, IfOk, IfSome, OnOk};

use crate::commands::{Asked, asked_of};
use crate::errors::ReadError;
use crate::expression::MAX_DEPTH;
use crate::frames::Frame;
use crate::steps::Step;
use crate::tokens::{Token, first_token};
use std::alloc::{AllocError, Global};

/// What is kept from line to line, so that a line takes no memory of its own.
#[derive(Drop)]
pub struct Reader<'a> {
    /// The terms of the line that was read last.
    pub steps: Vec<Step<'a>>,
    frame: Frame<'a>,
    outer: Vec<Frame<'a>>,
}

impl<'a> Reader<'a> {
    /// A reader that has read nothing.
    pub fn new(alloc: Global) -> Reader<'a> {
        Reader {
            steps: Vec::new(alloc),
            frame: Frame::Begun,
            outer: Vec::new(alloc),
        }
    }

    /// Puts a step last, where there is one.
    #[inline(always)]
    fn put(&mut self, step: Option<Step<'a>>) -> Result<(), AllocError>
        ensures ample { taken_by step.entry ≤ length (built self.old.steps.items).terms → IfSome step.entry IsKnown → AreAmple (only []) self.old.steps.items → OnOk result (AreAmple (only []) self.new.steps.items) }
        ensures put { OnOk result (built self.new.steps.items ≡ maybe_on step.entry (built self.old.steps.items)) }
        ensures frame { OnOk result (self.new.frame ≡ self.old.frame) }
        ensures outer { OnOk result (self.new.outer.items ≡ self.old.outer.items) }
    {
        if let Some(step) = step {
            self.steps.push(step)?;
        }
        Ok(())
    }

    /// Goes over an opening bracket, if one may stand here.
    #[inline(always)]
    fn open(&mut self) -> Result<bool, AllocError>
        requires { IsOpen self.old }
        ensures read { IfOk result (λ goes. Takes Opens self.old goes self.new) }
        ensures open { OnOk result (IsOpen self.new) }
    {
        let Some(around) = self.frame.around()? else {
            return Ok(false);
        };
        if self.outer.len() >= MAX_DEPTH {
            return Ok(false);
        }
        self.outer.push(around.outer)?;
        self.frame = around.inner;
        Ok(true)
    }

    /// Goes over a closing bracket, if one may stand here.
    #[inline(always)]
    fn close(&mut self) -> Result<bool, AllocError>
        requires { IsOpen self.old }
        ensures read { IfOk result (λ goes. Takes Closes self.old goes self.new) }
        ensures open { OnOk result (IsOpen self.new) }
    {
        let Some(step) = self.frame.end() else {
            return Ok(false);
        };
        let Some(outer) = self.outer.pop() else {
            return Ok(false);
        };
        self.put(step)?;
        self.frame = outer;
        Ok(true)
    }

    /// Goes over a word, if it may stand here.
    #[inline(always)]
    fn take_word(&mut self, word: &'a [u8]) -> Result<bool, AllocError>
        requires { IsOpen self.old }
        ensures read { IfOk result (λ goes. Takes (Word word.entry.now) self.old goes self.new) }
        ensures open { OnOk result (IsOpen self.new) }
    {
        let Some(taken) = self.frame.after_word(word)? else {
            return Ok(false);
        };
        self.put(taken.step)?;
        self.frame = taken.frame;
        Ok(true)
    }

    /// Goes over a token, if it may stand here.
    #[inline(always)]
    fn take(&mut self, token: Token<'a>) -> Result<bool, AllocError>
        requires { IsOpen self.old }
        ensures read { IfOk result (λ goes. Takes (token_seen token.entry) self.old goes self.new) }
        ensures open { OnOk result (IsOpen self.new) }
    {
        match token {
            Token::Opens => self.open(),
            Token::Closes => self.close(),
            Token::Word(word) => self.take_word(word),
        }
    }

    /// Ends the line, if it may end here.
    fn end(&mut self) -> Result<bool, AllocError>
        requires { IsOpen self.old }
        ensures ample { OnOk result (AreAmple (only []) self.new.steps.items) }
        ensures read { IfOk result (λ goes. ahead self.old [] ≡ if_goes goes (Some (built self.new.steps.items))) }
    {
        if !self.outer.is_empty() {
            return Ok(false);
        }
        let Some(step) = self.frame.end() else {
            return Ok(false);
        };
        self.put(step)?;
        Ok(true)
    }

    /// Reads so many terms, and tells whether the text is these.
    fn read_terms(&mut self, text: &'a [u8], count: usize) -> Result<bool, AllocError>
        ensures ample { OnOk result (AreAmple (only []) self.new.steps.items) }
        ensures read { IfOk result (λ all. IsTerms all (terms_of count (tokens_of text.entry.now)) (built self.new.steps.items)) }
    {
        self.steps.clear();
        self.outer.clear();
        self.frame = Frame::Terms(count);
        let mut rest = text;
        while let Some((token, behind)) = first_token(rest) {
            if !self.take(token)? {
                return Ok(false);
            }
            rest = behind;
        }
        self.end()
    }

    /// Reads a line: what it asks for, and its terms as steps. Syntax comes only where it has no form of the grammar.
    pub fn read_line(&mut self, line: &'a [u8]) -> Result<Asked<'a>, ReadError>
        ensures read { IfOk result (λ asked. HasTerms (form_of line.entry.now) asked (built self.new.steps.items)) }
        ensures ample { OnOk result (AreAmple (only []) self.new.steps.items) }
        ensures refusal { IfErr result (λ e. e ≡ ReadError.Syntax → form_of line.entry.now ≡ None) }
    {
        let Some((asked, count, text)) = asked_of(line) else {
            return Err(ReadError::Syntax);
        };
        if self.read_terms(text, count)? {
            Ok(asked)
        } else {
            Err(ReadError::Syntax)
        }
    }
}

#[cfg(test)]
mod tests {
    use super::*;
    use ir_core::R;
    use std::test::Fail;

    // A letter for what a line asks for.
    fn letter(asked: Asked<'_>) -> u8 {
        match asked {
            Asked::Blank => b'-',
            Asked::Let(_) => b'=',
            Asked::Print => b'P',
            Asked::Same => b'S',
            Asked::Flags => b'F',
        }
    }

    // A letter for a step, with its count if it has one.
    fn mark(step: &Step<'_>) -> (u8, usize) {
        match step {
            Step::Name(_) => (b'n', 0),
            Step::Field(_) => (b'f', 0),
            Step::Variable(_) => (b'v', 0),
            Step::Bind(count) => (b'b', *count as usize),
            Step::Label(_) => (b'l', 0),
            Step::List(_, count) => (b'm', *count as usize),
        }
    }

    // Whether the line is read as these letters say: what it asks for, and its steps; `?` where it is refused.
    fn reads(
        reader: &mut Reader<'static>,
        line: &'static [u8],
        want: &[u8],
    ) -> Result<bool, ReadError> {
        let asked = match reader.read_line(line) {
            Ok(asked) => asked,
            Err(ReadError::Syntax) => return Ok(want == b"?".as_slice()),
            Err(error) => return Err(error),
        };
        let mut left = match want.split_first() {
            Some((first, rest)) if *first == letter(asked) => rest,
            _ => return Ok(false),
        };
        for step in &reader.steps {
            let (first, count) = mark(step);
            match left.split_first() {
                Some((next, rest)) if *next == first => left = rest,
                _ => return Ok(false),
            }
            if count > 0 {
                match left.split_first() {
                    Some((next, rest)) if usize::from(*next).checked_sub(48) == Some(count) =>
                        left = rest,
                    _ => return Ok(false),
                }
            }
        }
        Ok(left.is_empty())
    }

    #[test]
    fn lines_are_read_as_steps_or_refused(rt: HostRuntime) -> Result<(), Fail> {
        let rows: [(&'static [u8], &[u8]); 39] = [
            (b"", b"-"),
            (b"   ", b"-"),
            (b"print u8", b"Pl"),
            (b"  print   u8 ", b"Pl"),
            (b"print(tuple())", b"Pml"),
            (b"print Name", b"Pn"),
            (b"let Own (tuple (u8 Name))", b"=lnm2l"),
            (b"same u8 (ref mut static bool)", b"Slflll"),
            (b"flags (unsafe (for t r:R env) (var * 0 t))", b"Fvvvb3ffll"),
            (b"print (unsafe (for) Name)", b"Pbnl"),
            (
                b"print (fnptr (for r) safe Rust fixed ((var 0 1 t:K) u8))",
                b"Pvb1ffffffllm2l",
            ),
            (b"print", b"?"),
            (b"same u8", b"?"),
            (b"let Own", b"?"),
            (b"let", b"?"),
            (b"print u8 u8", b"?"),
            (b"same u8 u8 u8", b"?"),
            (b"let own u8", b"?"),
            (b"let (u8) u8", b"?"),
            (b"print (u8", b"?"),
            (b"print u8)", b"?"),
            (b"(print u8)", b"?"),
            (b")", b"?"),
            (b"print ()", b"?"),
            (b"print (u8)", b"?"),
            (b"print ((u8))", b"?"),
            (b"print (adt Own ())", b"?"),
            (b"print unknown", b"?"),
            (b"show u8", b"?"),
            (b"print u8\t", b"?"),
            (b"print (var)", b"?"),
            (b"print (var *)", b"?"),
            (b"print (var 0 t)", b"?"),
            (b"print (var * 0 t u8)", b"?"),
            (b"print (var (0) 0 t)", b"?"),
            (b"print (ref not static)", b"?"),
            (b"print (ref other static u8)", b"?"),
            (b"print (unsafe (t) u8)", b"?"),
            (b"print (tuple u8)", b"?"),
        ];
        let mut reader = Reader::new(rt.alloc());
        for (line, want) in rows {
            assert!(rt; reads(&mut reader, line, want)?);
        }
        Ok(())
    }

    // A line with so many tuples round this term.
    fn nested(alloc: Global, tuples: usize, term: &[u8]) -> R<Vec<u8>> {
        let mut line = Vec::new(alloc);
        line.extend_from_slice(b"print ")?;
        for _ in 0..tuples {
            line.extend_from_slice(b"(tuple (")?;
        }
        line.extend_from_slice(term)?;
        for _ in 0..tuples {
            line.extend_from_slice(b"))")?;
        }
        Ok(line)
    }

    // Whether such a line is read.
    fn nests(alloc: Global, tuples: usize, term: &[u8]) -> R<bool> {
        let line = nested(alloc, tuples, term)?;
        let mut reader = Reader::new(alloc);
        Ok(reader.read_line(line.as_slice()).is_ok())
    }

    #[test]
    fn brackets_nest_no_deeper_than_256(rt: HostRuntime) -> Result<(), Fail> {
        let rows: [(usize, &[u8], bool); 4] = [
            (127, b"(var 0 0 t)", true),
            (128, b"u8", true),
            (128, b"(var 0 0 t)", false),
            (100_000, b"u8", false),
        ];
        for (tuples, term, want) in rows {
            assert_eq!(rt; nests(rt.alloc(), tuples, term)?, want);
        }
        Ok(())
    }
}
