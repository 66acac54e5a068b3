//! Words and brackets.
ghost use Rattle.std.specs.Prelude.{◌≡◌, ◌-◌, ◌<◌, ◌≤◌, ◌↔◌, IsTrue, true, [], ◌∷◌, ◌++◌, length, reverse, slice_index, None, Some, IfErr, IfOk, OnOk, OnErr, option_map};
ghost use Rattle.std.specs.List.{slice_range};
ghost use Rattle.ir_laws.specs.Expression as syntax;
ghost use Rattle.ir_syntax.specs.Views.{exprs_in, items_of};
ghost use Rattle.ir_syntax.specs.Nesting.{are_word_bytes, nesting, stack_of, with_bytes, with_separator, Leaves};

use crate::errors::ReadError;
use std::alloc::{AllocError, Global};
use std::mem;

/// How deep the brackets of a line may nest.
pub(crate) const MAX_DEPTH: usize = 256;

/// A word, or a group of expressions in brackets.
#[derive(Drop)]
#[cycle(expression)]
pub enum Expr<'a> {
    Word(&'a [u8]),
    Group(Exprs<'a>),
}

/// A list of expressions.
#[derive(Drop)]
#[cycle(expression)]
pub struct Exprs<'a> {
    items: Vec<Expr<'a>>,
}

impl<'a> Exprs<'a> {
    /// No expressions, which takes no memory.
    pub fn new(alloc: Global) -> Self
        ensures { items_of result ≡ [] }
    {
        Exprs {
            items: Vec::new(alloc),
        }
    }

    /// The expressions in order.
    pub fn as_slice(&self) -> &[Expr<'a>]
        ensures { result.now ≡ items_of self.now }
    {
        self.items.as_slice()
    }

    /// How many there are.
    pub fn len(&self) -> usize
        ensures { result ≡ length (items_of self.now) }
    {
        self.items.len()
    }

    /// Whether there are none.
    pub fn is_empty(&self) -> bool
        ensures { IsTrue result ↔ (items_of self.now ≡ []) }
    {
        self.items.is_empty()
    }

    /// Puts an expression last. It is refused only for want of memory, and is then as it was.
    pub fn push(&mut self, item: Expr<'a>) -> Result<(), AllocError>
        ensures ok { OnOk result (items_of self.new ≡ items_of self.old ++ item.entry ∷ []) }
        ensures err { OnErr result (items_of self.new ≡ items_of self.old) }
    {
        self.items.push(item)?;
        Ok(())
    }
}

/// The groups that are open at a place of a line, each with its expressions to the right of that
/// place, last first. The outermost stands for the line.
#[derive(Drop)]
struct OpenGroups<'a> {
    innermost: Vec<Expr<'a>>,
    outer: Vec<Vec<Expr<'a>>>,
}

impl<'a> OpenGroups<'a> {
    /// What is open at the end of a line.
    fn new(alloc: Global) -> Self
        ensures { stack_of result ≡ syntax.NoExpr ∷ [] }
    {
        OpenGroups {
            innermost: Vec::new(alloc),
            outer: Vec::new(alloc),
        }
    }

    /// Goes over a word, or over nothing.
    fn put_word(&mut self, bytes: &'a [u8]) -> Result<(), AllocError>
        ensures read { OnOk result (with_bytes bytes.now (stack_of self.old) ≡ Some (stack_of self.new)) }
    {
        if bytes.is_empty() {
            return Ok(());
        }
        self.innermost.push(Expr::Word(bytes))?;
        Ok(())
    }

    /// Goes over a space or a bracket, and tells whether the line may still have expressions.
    fn put_separator(&mut self, alloc: Global, byte: u8) -> Result<bool, AllocError>
        requires word_end { syntax.ends_word byte ≡ true }
        requires shallow { nesting (stack_of self.old) ≤ 256 }
        ensures read { IfOk result (λ goes. Leaves goes (with_separator byte (Some (stack_of self.old))) (stack_of self.new)) }
    {
        match byte {
            b' ' => Ok(true),
            b'(' => self.end_group(),
            _ => self.begin_group(alloc),
        }
    }

    /// Goes over a closing bracket, which is the first that is seen of a group.
    fn begin_group(&mut self, alloc: Global) -> Result<bool, AllocError>
        requires shallow { nesting (stack_of self.old) ≤ 256 }
        ensures read { IfOk result (λ goes. Leaves goes (syntax.with_token syntax.Closes (Some (stack_of self.old))) (stack_of self.new)) }
    {
        if self.outer.len() >= MAX_DEPTH {
            return Ok(false);
        }
        let around = mem::replace(&mut self.innermost, Vec::new(alloc));
        self.outer.push(around)?;
        Ok(true)
    }

    /// Goes over an opening bracket, with which the innermost group is whole.
    fn end_group(&mut self) -> Result<bool, AllocError>
        requires shallow { nesting (stack_of self.old) ≤ 256 }
        ensures read { IfOk result (λ goes. Leaves goes (syntax.with_token syntax.Opens (Some (stack_of self.old))) (stack_of self.new)) }
    {
        let Some(around) = self.outer.pop() else {
            return Ok(false);
        };
        let group = whole(mem::replace(&mut self.innermost, around));
        self.innermost.push(Expr::Group(group))?;
        Ok(true)
    }

    /// The line's expressions, if no bracket is open.
    fn into_line(self) -> Option<Exprs<'a>>
        requires shallow { nesting (stack_of self) ≤ 256 }
        ensures { option_map (λ es. exprs_in (items_of es)) result ≡ syntax.if_shallow (syntax.closed (Some (stack_of self.entry))) }
    {
        let OpenGroups { innermost, outer } = self;
        if outer.is_empty() {
            Some(whole(innermost))
        } else {
            None
        }
    }
}

/// The expressions that were held last first.
fn whole(mut items: Vec<Expr<'_>>) -> Exprs<'_>
    ensures { items_of result ≡ reverse items.entry.items }
{
    items.reverse();
    Exprs { items }
}

/// Whether a line may hold these bytes. It looks at all of them, which takes less time than to stop at the first that it may not hold.
pub(crate) fn is_readable(line: &[u8]) -> bool
    ensures { result ≡ syntax.are_line_bytes line.now }
{
    let mut readable = true;
    for byte in line {
        readable &= is_line_byte(*byte);
    }
    readable
}

/// Whether a line may hold a byte.
fn is_line_byte(byte: u8) -> bool
    ensures { result ≡ syntax.is_line_byte byte }
{
    matches!(byte, b' '..=b'~')
}

/// Whether a byte ends the word before it, and is none of a word's.
pub(crate) fn ends_word(byte: u8) -> bool
    ensures { result ≡ syntax.ends_word byte }
{
    matches!(byte, b' ' | b'(' | b')')
}

/// Where the word starts that ends at a place; at that place if there is none.
fn word_start(line: &[u8], end: usize) -> usize
    requires { end ≤ length line.now }
    ensures within { result ≤ end }
    ensures word { are_word_bytes (slice_range line.now result end) ≡ true }
    ensures before { 0 < result → syntax.ends_word (slice_index line.now (result - 1)) ≡ true }
{
    let mut start = end;
    while start > 0 && !ends_word(line[start - 1]) {
        start -= 1;
    }
    start
}

/// The expressions of a line. Syntax comes only where a byte is none of a line's, or its brackets
/// don't match or nest too deep. It goes from the right, so that no deep tree is ever made.
pub fn expressions(alloc: Global, line: &[u8]) -> Result<Exprs<'_>, ReadError>
    ensures read { IfOk result (λ es. syntax.expressions line.now ≡ Some (exprs_in (items_of es))) }
    ensures refusal { IfErr result (λ e. e ≡ ReadError.Syntax → syntax.expressions line.now ≡ None) }
{
    if !is_readable(line) {
        return Err(ReadError::Syntax);
    }
    let mut groups = OpenGroups::new(alloc);
    let mut end = line.len();
    loop {
        let start = word_start(line, end);
        groups.put_word(&line[start..end])?;
        if start == 0 {
            return match groups.into_line() {
                Some(items) => Ok(items),
                None => Err(ReadError::Syntax),
            };
        }
        end = start - 1;
        if !groups.put_separator(alloc, line[end])? {
            return Err(ReadError::Syntax);
        }
    }
}

#[cfg(test)]
mod tests {
    use super::*;
    use std::test::Fail;

    // How many words and groups the line has.
    fn count(alloc: Global, line: &[u8]) -> Result<Option<usize>, ReadError> {
        match expressions(alloc, line) {
            Ok(items) => Ok(Some(items.len())),
            Err(ReadError::Syntax) => Ok(None),
            Err(error) => Err(error),
        }
    }

    fn nests(alloc: Global, depth: usize) -> Result<bool, ReadError> {
        let mut line = vec![in alloc; b'('; depth]?;
        let closing = vec![in alloc; b')'; depth]?;
        line.extend_from_slice(closing.as_slice())?;
        Ok(count(alloc, line.as_slice())?.is_some())
    }

    fn is_word(item: &Expr<'_>, text: &[u8]) -> bool {
        match item {
            Expr::Word(word) => *word == text,
            Expr::Group(_) => false,
        }
    }

    #[test]
    fn words_and_groups_stand_in_order(rt: HostRuntime) -> Result<(), Fail> {
        let read = expressions(rt.alloc(), b"  adt (7  u8)() last").map_err(|_| "refused")?;
        let [first, pair, none, last] = read.as_slice() else {
            return Err(Fail::from("other expressions"));
        };
        let Expr::Group(pair) = pair else {
            return Err(Fail::from("no group"));
        };
        let [number, kind] = pair.as_slice() else {
            return Err(Fail::from("another group"));
        };
        let Expr::Group(none) = none else {
            return Err(Fail::from("no empty group"));
        };
        assert!(rt; is_word(first, b"adt"));
        assert!(rt; is_word(number, b"7"));
        assert!(rt; is_word(kind, b"u8"));
        assert!(rt; none.is_empty());
        assert!(rt; is_word(last, b"last"));
        Ok(())
    }

    #[test]
    fn lines_of_spaces_have_none_and_others_are_refused(rt: HostRuntime) -> Result<(), Fail> {
        let rows: [(&[u8], Option<usize>); 8] = [
            (b"", Some(0)),
            (b"   ", Some(0)),
            (b")", None),
            (b"(", None),
            (b"a) (b", None),
            (b"a\tb", None),
            (b"a\r", None),
            (b"\x7f", None),
        ];
        for (line, want) in rows {
            assert_eq!(rt; count(rt.alloc(), line)?, want);
        }
        for (depth, want) in [(256, true), (257, false), (100_000, false)] {
            assert_eq!(rt; nests(rt.alloc(), depth)?, want);
        }
        Ok(())
    }
}
