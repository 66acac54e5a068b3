//! One line of a script as its words and groups.
ghost use Rattle.ir_laws.specs.Expression.{expressions as expressions_of};
ghost use Rattle.ir_laws.specs.Form.{form_of};
ghost use Rattle.ir_syntax.specs.Views.{exprs_in, items_of};
ghost use Rattle.std.specs.Prelude.{◌≡◌, ◌⊎◌, None, Some, IfErr, IfOk, IsSome, OnOk};

use crate::causes::Cause;
use ir_syntax::{Exprs, Reader, expressions};
use std::alloc::Global;

/// A line that has a form of the grammar.
#[derive(Drop)]
pub struct Line<'a> {
    /// Its words and groups, in order; none for a blank line.
    pub parts: Exprs<'a>,
}

/// The words and groups of the line. Syntax comes exactly where the line has no form of the grammar, unless memory is wanted.
pub fn read_line(alloc: Global, line: &[u8]) -> Result<Line<'_>, Cause>
    ensures parts { IfOk result (λ l. expressions_of line.now ≡ Some (exprs_in (items_of l.parts))) }
    ensures form { OnOk result (IsSome (form_of line.now)) }
    ensures refusal { IfErr result (λ c. (c ≡ Cause.Memory) ⊎ ((c ≡ Cause.Syntax) × (form_of line.now ≡ None))) }
{
    let parts = expressions(alloc, line)?;
    Reader::new(alloc).read_line(line)?;
    Ok(Line { parts })
}
