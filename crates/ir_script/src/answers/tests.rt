//! Scripts, with what each answers.
ghost use Rattle.std.specs.Prelude.{◌<◌};

use super::answer;
use crate::{Cause, read_line};
use ir_core::{Limits, R, Text};
use std::alloc::Global;
use std::test::Fail;

const LIMITS: Limits = Limits {
    index: 65_535,
    number: 65_535,
    height: 512,
    nodes: 1_000_000,
    size: 1_000_000,
};

// A script's fault: its line and its cause.
type Fault = (u64, Cause);

// The script's lines and how many parts are held then, or its fault.
fn answered(alloc: Global, script: &[u8], nodes: u64) -> Result<(Text, u64), Fault> {
    let limits = Limits { nodes, ..LIMITS };
    match answer(alloc, script, &limits) {
        Ok(answered) => Ok((answered.text, answered.cx.len())),
        Err(error) => Err((error.line, error.cause)),
    }
}

// Whether the script answers these lines.
fn gives(alloc: Global, script: &[u8], lines: &[u8]) -> bool {
    match answered(alloc, script, LIMITS.nodes) {
        Ok((text, _)) => text.as_bytes() == lines,
        Err(_) => false,
    }
}

// How many parts are held when the script is answered, or its fault, where there may be so many parts.
fn held(alloc: Global, script: &[u8], nodes: u64) -> Result<u64, Fault> {
    answered(alloc, script, nodes).map(|(_, len)| len)
}

// The script's fault.
fn fault(alloc: Global, script: &[u8]) -> Option<Fault> {
    held(alloc, script, LIMITS.nodes).err()
}

#[test]
fn scripts_are_answered(rt: HostRuntime) {
    let rows: [(&[u8], &[u8]); 18] = [
        (b"", b""),
        // What was spelled before is spelled again, within a line and on a later one, also where lines stand between that put other text.
        (
            b"let A (tuple (u8 bool u8 bool u8 bool))\nprint (tuple (A (tuple (A)) A))\nsame A u8\nprint A\nflags A\nprint (tuple (A))",
            b"(tuple ((tuple (u8 bool u8 bool u8 bool)) (tuple ((tuple (u8 bool u8 bool u8 bool)))) (tuple (u8 bool u8 bool u8 bool))))\nno\n(tuple (u8 bool u8 bool u8 bool))\nouter 0\n(tuple ((tuple (u8 bool u8 bool u8 bool))))\n",
        ),
        // Each word alone keeps its own part: these are all that a script can write so far.
        (
            b"print (tuple (bool u8 (ref not static u8) (ref mut erased bool)))\nprint (ref not erased u8)\nprint (ref not static bool)",
            b"(tuple (bool u8 (ref not static u8) (ref mut erased bool)))\n(ref not erased u8)\n(ref not static bool)\n",
        ),
        (b"\n \n\n", b""),
        (b"print (ref not static u8)", b"(ref not static u8)\n"),
        (b"print static\nprint erased\n", b"static\nerased\n"),
        (b"  print ( tuple  ( ) )  ", b"(tuple ())\n"),
        (
            b"print (tuple ((ref not static u8) bool))",
            b"(tuple ((ref not static u8) bool))\n",
        ),
        (
            b"print (tuple (u8 (tuple (bool)) u8))",
            b"(tuple (u8 (tuple (bool)) u8))\n",
        ),
        (
            b"let A (tuple (u8 u8))\nlet B (tuple (u8 u8))\nsame A B\nsame A (tuple (u8))",
            b"yes\nno\n",
        ),
        (b"print (var 65535 65535 t)", b"(var 65535 65535 t)\n"),
        (
            b"print (unsafe (for t r c env) (tuple ((var 0 0 t) (ref mut (var 0 3 env) (var 1 7 t)))))",
            b"(unsafe (for t r c env) (tuple ((var 0 0 t) (ref mut (var 0 3 env) (var 1 7 t)))))\n",
        ),
        (
            b"flags (fnptr (for r) safe Rust fixed ((ref not (var 0 0 r) u8) (tuple ())))",
            b"outer 0 HAS_RE_BOUND HAS_BINDER_VARS\n",
        ),
        (b"flags (ref not (var 2 0 r) u8)", b"outer 3 HAS_RE_BOUND\n"),
        (b"flags u8", b"outer 0\n"),
        (
            b"flags (var * 0 c)",
            b"outer 0 HAS_CT_BOUND HAS_CANONICAL_BOUND\n",
        ),
        (b"flags (unsafe (for) u8)", b"outer 0\n"),
        (
            b"same (unsafe (for) u8) (unsafe (for t) u8)\nsame (var 0 0 t) (var 0 0 t)",
            b"no\nyes\n",
        ),
    ];
    for (script, lines) in rows {
        assert!(rt; gives(rt.alloc(), script, lines));
    }
}

#[test]
fn the_first_fault_ends_a_script(rt: HostRuntime) {
    let rows: [(&[u8], Fault); 24] = [
        (b"print (tuple (static))", (1, Cause::Sort)),
        (b"print u8\nprint X\nprint", (2, Cause::Unknown)),
        (b"\nprint (array u8 u8)", (2, Cause::Syntax)),
        (b"print u8\r", (1, Cause::Syntax)),
        (b"print\tu8", (1, Cause::Syntax)),
        (b"print \x7f", (1, Cause::Syntax)),
        (b"same u8 static\nprint (", (1, Cause::Sort)),
        (b"print (tuple (X", (1, Cause::Syntax)),
        (b"print X", (1, Cause::Unknown)),
        (b"let A u8\nlet A u8", (2, Cause::Duplicate)),
        (b"let A static\nprint (tuple (A))", (2, Cause::Sort)),
        (b"print (tuple (static X))", (1, Cause::Unknown)),
        (b"same (tuple (static)) X", (1, Cause::Unknown)),
        (b"print (tuple (static static))", (1, Cause::Sort)),
        (
            b"print (unsafe (for r) (ref not (var 0 1 r) u8))",
            (1, Cause::Unlisted),
        ),
        (
            b"print (unsafe (for r) (ref not (var 0 0 env) u8))",
            (1, Cause::Unlisted),
        ),
        (
            b"print (unsafe (for r) (unsafe (for) (ref not (var 1 1 r) u8)))",
            (1, Cause::Unlisted),
        ),
        (b"same u8 (unsafe (for) (var 0 0 t))", (1, Cause::Unlisted)),
        (b"print (fnptr (for) safe Rust fixed ())", (1, Cause::Arity)),
        (b"print (var 65536 0 t)", (1, Cause::TooDeep)),
        (b"print (var * 65536 t)", (1, Cause::TooDeep)),
        (b"print (var 4294967296 0 t)", (1, Cause::Syntax)),
        (b"print (unsafe (for t:A) u8)", (1, Cause::Unknown)),
        (b"let A u8\nprint (unsafe (for t:A) u8)", (2, Cause::Sort)),
    ];
    for (script, want) in rows {
        assert_eq!(rt; fault(rt.alloc(), script), Some(want));
    }
}

fn too_many(line: u64) -> Result<u64, Fault> {
    Err((line, Cause::TooMany))
}

#[test]
fn parts_are_counted(rt: HostRuntime) {
    let names = b"let A (tuple (u8 u8))\nlet B (tuple (u8 u8))\nsame A B\nsame A (tuple (u8))";
    let rows: [(&[u8], u64, Result<u64, Fault>); 12] = [
        (b"", 38, too_many(0)),
        (b"", 39, Ok(39)),
        (b"print (tuple (u8))", 38, too_many(0)),
        (b"print (tuple (u8))", 39, too_many(1)),
        (b"print (tuple (u8))", 40, too_many(1)),
        (b"print (tuple (u8))", 41, Ok(41)),
        (b"print (tuple (u8 u8))", 41, Ok(41)),
        (b"print u8\nprint (tuple ())", 39, Ok(39)),
        (b"print (tuple (u8))\nprint (tuple (u8))", 41, Ok(41)),
        (
            b"print (tuple (u8))\nprint (tuple (u8 u8))",
            42,
            too_many(2),
        ),
        (names, 43, Ok(43)),
        (names, 42, too_many(4)),
    ];
    for (script, nodes, want) in rows {
        assert_eq!(rt; held(rt.alloc(), script, nodes), want);
    }
}

// The text, so often.
fn repeated(alloc: Global, bytes: &[u8], times: u32) -> R<Text> {
    let mut text = Text::new(alloc);
    for _ in 0..times {
        text.append(bytes)?;
    }
    Ok(text)
}

// A reference to a reference to so many more, and at last to `u8`.
fn nested(alloc: Global, references: u32) -> R<Text> {
    let mut term = repeated(alloc, b"(ref not static ", references)?;
    term.append(b"u8")?;
    term.append(repeated(alloc, b")", references)?.as_bytes())?;
    Ok(term)
}

// The text between two others.
fn between(alloc: Global, before: &[u8], text: &Text, after: &[u8]) -> R<Text> {
    let mut whole = Text::from_bytes(alloc, before)?;
    whole.append(text.as_bytes())?;
    whole.append(after)?;
    Ok(whole)
}

#[test]
fn nesting_is_limited(rt: HostRuntime) -> Result<(), Fail> {
    let alloc = rt.alloc();
    let term = nested(alloc, 256)?;
    let deepest = between(alloc, b"print ", &term, b"")?;
    let printed = between(alloc, b"", &term, b"\n")?;
    assert!(rt; gives(alloc, deepest.as_bytes(), printed.as_bytes()));
    let too_deep = between(alloc, b"print (tuple (", &nested(alloc, 255)?, b"))")?;
    assert_eq!(rt; fault(alloc, too_deep.as_bytes()), Some((1, Cause::Syntax)));
    for (line, is_read) in [(deepest.as_bytes(), true), (too_deep.as_bytes(), false)] {
        assert_eq!(rt; read_line(alloc, line).is_ok(), is_read);
    }
    Ok(())
}

#[test]
fn many_lines_are_answered(rt: HostRuntime) -> Result<(), Fail> {
    let alloc = rt.alloc();
    let mut script = repeated(alloc, b"print (tuple (u8 bool))\n", 10_000)?;
    let lines = repeated(alloc, b"(tuple (u8 bool))\n", 10_000)?;
    assert!(rt; gives(alloc, script.as_bytes(), lines.as_bytes()));
    script.append(b"print (tuple (u8 static))")?;
    assert_eq!(rt;
        fault(alloc, script.as_bytes()),
        Some((10_001, Cause::Sort))
    );
    Ok(())
}

// The name of this number, of which there are 416.
fn name(number: u32) -> [u8; 3] {
    [
        b'A',
        b'a' + (number / 16 % 26) as u8,
        b'a' + (number % 16) as u8,
    ]
}

// Puts the term behind the script, in which `#` stands for the name of this number and `%` for the next number.
fn append_term(alloc: Global, script: &mut Text, term: &[u8], number: u32) -> R<()>
    requires { number < 416 }
{
    for byte in term {
        match byte {
            b'#' => script.append(&name(number))?,
            b'%' => script.append((number + 1).to_string(alloc)?.as_bytes())?,
            _ => script.append(&[*byte])?,
        }
    }
    Ok(())
}

// A name for the first term, and then so many more, each for such a term over the name before; and then another line.
fn chain(alloc: Global, first: &[u8], term: &[u8], lines: u32, last: &[u8]) -> R<Text> {
    let mut script = Text::from_bytes(alloc, b"let Aaa ")?;
    script.append(first)?;
    for number in 0..lines.min(415) {
        script.append(b"\nlet ")?;
        script.append(&name(number + 1))?;
        script.append(b" ")?;
        append_term(alloc, &mut script, term, number)?;
    }
    script.append(b"\n")?;
    script.append(last)?;
    Ok(script)
}

#[test]
fn names_build_on_names(rt: HostRuntime) -> Result<(), Fail> {
    let alloc = rt.alloc();
    for (lines, want) in [(255, None), (256, Some((257, Cause::TooDeep)))] {
        let high = chain(alloc, b"u8", b"(tuple (#))", lines, b"")?;
        assert_eq!(rt; fault(alloc, high.as_bytes()), want);
    }
    // Forty doublings, which no walk of the whole tree would end.
    let twice = b"(tuple (# #))".as_slice();
    let answers: [(&[u8], &[u8], &[u8], &[u8]); 5] = [
        (b"u8", twice, b"same Aci Aci", b"yes\n"),
        (
            b"(var 0 0 t)",
            twice,
            b"flags Aci",
            b"outer 1 HAS_TY_BOUND\n",
        ),
        (
            b"(var 0 0 t)",
            twice,
            b"same (unsafe (for t) Aci) (unsafe (for t) Aci)",
            b"yes\n",
        ),
        (
            b"(tuple ((var 0 0 t) (var 1 0 t)))",
            b"(tuple (# (unsafe (for t) #) (var % 0 t)))",
            b"flags Aci",
            b"outer 41 HAS_TY_BOUND HAS_BINDER_VARS\n",
        ),
        (
            b"(var 99 0 t)",
            b"(tuple ((unsafe (for t) #) (unsafe (for r) #)))",
            b"flags Aci",
            b"outer 60 HAS_TY_BOUND HAS_BINDER_VARS\n",
        ),
    ];
    for (first, term, last, lines) in answers {
        let wide = chain(alloc, first, term, 40, last)?;
        assert!(rt; gives(alloc, wide.as_bytes(), lines));
    }
    let faults: [(&[u8], &[u8], Cause); 2] = [
        (b"u8", b"print Aci", Cause::TooLarge),
        (
            b"(var 0 0 t)",
            b"flags (unsafe (for r) Aci)",
            Cause::Unlisted,
        ),
    ];
    for (first, last, cause) in faults {
        let wide = chain(alloc, first, twice, 40, last)?;
        assert_eq!(rt; fault(alloc, wide.as_bytes()), Some((42, cause)));
    }
    Ok(())
}
