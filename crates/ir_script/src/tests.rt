//! Lines and terms through the passes, with what each finds.
use crate::causes::Cause;
use crate::names::Names;
use crate::resolved::Resolved;
use crate::scope::Scope;
use crate::sorts::misfit;
use ir_laws::{Sort, Word};
use ir_syntax::{Asked, ReadError, Reader, Step};
use std::alloc::Global;
use std::test::Fail;

/// What the line asks for, as a letter: `-` it has no form, `b` blank, `l` let, `p` print, `s` same, `f` flags.
fn letter(alloc: Global, line: &[u8]) -> Result<u8, ReadError> {
    let mut reader = Reader::new(alloc);
    match reader.read_line(line) {
        Err(ReadError::Syntax) => Ok(b'-'),
        Err(error) => Err(error),
        Ok(Asked::Blank) => Ok(b'b'),
        Ok(Asked::Let(_)) => Ok(b'l'),
        Ok(Asked::Print) => Ok(b'p'),
        Ok(Asked::Same) => Ok(b's'),
        Ok(Asked::Flags) => Ok(b'f'),
    }
}

#[test]
fn lines_have_their_forms(rt: HostRuntime) -> Result<(), Fail> {
    let rows: [(&[u8], u8); 20] = [
        (b"", b'b'),
        (b"print u8", b'p'),
        (b"print ( ref not static u8 )", b'p'),
        (b"print ( tuple ( u8 ( tuple ( ) ) X_1 ) )", b'p'),
        (b"print X", b'p'),
        (b"print x", b'-'),
        (b"print ( array u8 u8 )", b'-'),
        (b"print ( u8 )", b'-'),
        (b"print ref", b'-'),
        (b"print ( tuple u8 )", b'-'),
        (b"print ( ref maybe static u8 )", b'-'),
        (b"flags u8", b'f'),
        (b"flags u8 u8", b'-'),
        (b"let X u8", b'l'),
        (b"let x u8", b'-'),
        (b"let X", b'-'),
        (b"same X ( tuple ( u8 ) )", b's'),
        (b"same X", b'-'),
        (b"print", b'-'),
        (b"print u8 u8", b'-'),
    ];
    for (line, want) in rows {
        assert_eq!(rt; letter(rt.alloc(), line)?, want);
    }
    Ok(())
}

/// How many fields, bound variables and terms the line's steps build; without a group it binds 9. Nothing where the line has no form.
fn counts(alloc: Global, line: &[u8]) -> Result<Option<(usize, usize, usize)>, ReadError> {
    let mut reader = Reader::new(alloc);
    match reader.read_line(line) {
        Ok(_) => {}
        Err(ReadError::Syntax) => return Ok(None),
        Err(error) => return Err(error),
    }
    let mut fields: usize = 0;
    let mut bound: usize = 9;
    let mut terms: usize = 0;
    for step in &reader.steps {
        match step {
            Step::Field(_) => fields = fields.saturating_add(1),
            Step::Variable(_) => {}
            Step::Bind(count) => bound = *count as usize,
            Step::Name(_) | Step::Label(_) | Step::List(_, _) => terms = terms.saturating_add(1),
        }
    }
    Ok(Some((fields, bound, terms)))
}

#[test]
fn terms_have_fields_a_group_and_kids(rt: HostRuntime) -> Result<(), Fail> {
    let rows: [(&[u8], Option<(usize, usize, usize)>); 13] = [
        (b"print (var 0 4294967295 t)", Some((3, 9, 1))),
        (b"print (var 0 1 r:A)", Some((3, 9, 1))),
        (b"print (var 0 1)", None),
        (b"print (var 00 1 t)", None),
        (b"print (var 0 4294967296 t)", None),
        (b"print (var 0 1 (t))", None),
        (b"print (var * 3 c)", Some((2, 9, 1))),
        (
            b"print (fnptr (for t r) safe C fixed (u8))",
            Some((3, 2, 3)),
        ),
        (
            b"print (fnptr (for) unsafe Rust variadic ())",
            Some((3, 0, 2)),
        ),
        (b"print (fnptr (t) safe C fixed (u8))", None),
        (b"print (fnptr (for u8) safe C fixed (u8))", None),
        (b"print (fnptr safe C fixed (u8))", None),
        (b"print (unsafe (for env) X)", Some((0, 1, 2))),
    ];
    for (line, want) in rows {
        assert_eq!(rt; counts(rt.alloc(), line)?, want);
    }
    Ok(())
}

/// What the stages of names and sorts find in the line's terms where no name is declared.
fn found(alloc: Global, line: &[u8]) -> Result<(), Cause> {
    let scope = Scope::new(alloc);
    let mut reader = Reader::new(alloc);
    reader.read_line(line)?;
    let mut names = Names::new(alloc);
    names.resolve(&scope, &reader.steps)?;
    let mut pending = Vec::new(alloc);
    misfit(&mut pending, &names.resolved)?;
    Ok(())
}

#[test]
fn names_and_places_are_looked_at(rt: HostRuntime) -> Result<(), Fail> {
    let sort = Some(Cause::Sort);
    let unknown = Some(Cause::Unknown);
    let rows: [(&[u8], Option<Cause>); 18] = [
        (b"print X", unknown),
        (b"print (tuple (X))", unknown),
        (b"print u8", None),
        (b"print (var 0 1 r:A)", unknown),
        (b"print (var 0 1 env)", None),
        (b"print (unsafe (for t r:A) u8)", unknown),
        (b"print (unsafe (for t env) u8)", None),
        (b"print (unsafe (for t:A) u8)", unknown),
        (b"print (ref not static u8)", None),
        (b"print (ref not u8 u8)", sort),
        (b"print (ref not u8 X)", unknown),
        (b"print static", None),
        (b"print (ref not (var 0 0 env) (var 0 0 t))", None),
        (b"print (ref not (var 0 0 c) (var 0 0 t))", sort),
        (b"print (unsafe (for t) u8)", None),
        (b"print (tuple (static))", sort),
        (b"print (tuple ())", None),
        (
            b"print (fnptr (for) safe Rust fixed ())",
            Some(Cause::Arity),
        ),
    ];
    for (line, want) in rows {
        assert_eq!(rt; found(rt.alloc(), line).err(), want);
    }
    Ok(())
}

#[test]
fn a_pattern_needs_a_member(rt: HostRuntime) -> Result<(), Fail> {
    let steps = [
        Resolved::List(Word::PatternList, 0),
        Resolved::Label(Word::OrPattern, Sort::OfPattern),
    ];
    let mut pending = Vec::new(rt.alloc());
    assert_eq!(rt; misfit(&mut pending, &steps).err(), Some(Cause::EmptyOr));
    Ok(())
}
