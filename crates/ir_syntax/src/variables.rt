//! Variable kinds as they are written.
ghost use Rattle.ir_laws.specs.Numeral.{name_of};
ghost use Rattle.ir_laws.specs.Phrase.{after, and_then, kind_of, region_kind_of};
ghost use Rattle.ir_syntax.specs.Grammar.{kind_seen};
ghost use Rattle.std.specs.Prelude.{◌≡◌, option_map};

use crate::fields::VariableKind;
use crate::words::name_of;

/// The name behind these first bytes.
fn name_after<'a>(first: &[u8], text: &'a [u8]) -> Option<&'a [u8]>
    ensures { option_map (λ name. name.now) result ≡ and_then (after first.now text.now) name_of }
{
    match text.strip_prefix(first) {
        Some(rest) => name_of(rest),
        None => None,
    }
}

/// A region's kind: `r`, `r:NAME` or `env`.
pub(crate) fn region_kind_of(text: &[u8]) -> Option<VariableKind<'_>>
    ensures { option_map kind_seen result ≡ region_kind_of text.now }
{
    match text {
        b"r" => Some(VariableKind::Region(b"")),
        b"env" => Some(VariableKind::Environment),
        _ => match name_after(b"r:", text) {
            Some(name) => Some(VariableKind::Region(name)),
            None => None,
        },
    }
}

/// The kind that the text writes: a region's, or `t`, `t:NAME` or `c`.
pub(crate) fn kind_of(text: &[u8]) -> Option<VariableKind<'_>>
    ensures { option_map kind_seen result ≡ kind_of text.now }
{
    if let Some(kind) = region_kind_of(text) {
        return Some(kind);
    }
    match text {
        b"t" => Some(VariableKind::Type(b"")),
        b"c" => Some(VariableKind::Constant),
        _ => match name_after(b"t:", text) {
            Some(name) => Some(VariableKind::Type(name)),
            None => None,
        },
    }
}

#[cfg(test)]
mod tests {
    use super::*;
    use std::test::Fail;

    // A kind as a letter: `t`, `r`, `e` and `c`, and a capital where it has a name. `-` is none.
    fn letter(kind: &Option<VariableKind<'_>>) -> u8 {
        match kind {
            None => b'-',
            Some(VariableKind::Type([])) => b't',
            Some(VariableKind::Type(_)) => b'T',
            Some(VariableKind::Region([])) => b'r',
            Some(VariableKind::Region(_)) => b'R',
            Some(VariableKind::Environment) => b'e',
            Some(VariableKind::Constant) => b'c',
        }
    }

    #[test]
    fn kinds_have_a_sort_and_perhaps_a_name(rt: HostRuntime) -> Result<(), Fail> {
        let rows: [(&[u8], u8, u8); 14] = [
            (b"r", b'r', b'r'),
            (b"env", b'e', b'e'),
            (b"t", b't', b'-'),
            (b"c", b'c', b'-'),
            (b"r:A_1", b'R', b'R'),
            (b"t:Item", b'T', b'-'),
            (b"r:", b'-', b'-'),
            (b"t:", b'-', b'-'),
            (b"r:a", b'-', b'-'),
            (b"c:A", b'-', b'-'),
            (b"env:A", b'-', b'-'),
            (b"rr", b'-', b'-'),
            (b"", b'-', b'-'),
            (b"R", b'-', b'-'),
        ];
        for (text, want, region) in rows {
            assert_eq!(rt; letter(&kind_of(text)), want);
            assert_eq!(rt; letter(&region_kind_of(text)), region);
        }
        Ok(())
    }
}
