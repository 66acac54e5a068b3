//! The line of `flags`.
ghost use Rattle.ir_core.specs.Flags.{bits_of};
ghost use Rattle.ir_core.specs.declared.errors.TermError.TheVariants.{Memory};
ghost use Rattle.ir_laws.specs.Answer.{flag_texts, flags_text, with_end};
ghost use Rattle.ir_laws.specs.Flag.{flag_words};
ghost use Rattle.ir_laws.specs.Heap.{IsLive, tree_of};
ghost use Rattle.ir_table.specs.Interner.{heap};
ghost use Rattle.ir_table.specs.Spelled.{after_each};
ghost use Rattle.std.specs.Prelude.{◌≡◌, ◌++◌, Some, Err, OnErr, OnOk};

use bitflags::Flags;
use ir_core::{Part, R, Text, TypeFlags};
use ir_table::{Cached, Interner};
use std::alloc::Global;

/// Puts the line behind the text: how many binders outside of it the part's term speaks of, and the flags of its nodes, in the order of their bits. It is refused only for want of memory.
pub(crate) fn write_flags(alloc: Global, cx: &Interner, part: Part, out: &mut Text) -> R<()>
    requires { IsLive (heap cx.now) part }
    ensures ok { OnOk result (out.new ≡ out.old ++ with_end (Some (flags_text (tree_of (heap cx.now) part)))) }
    ensures err { OnErr result (result ≡ Err Memory) }
{
    let outer = part.outer_exclusive_binder(cx).0;
    out.append(b"outer ")?;
    out.append(outer.to_string(alloc)?.as_bytes())?;
    write_words(part.flags(cx), out)?;
    out.append(b"\n")
}

// The words of the flags, each behind a space.
fn write_words(flags: TypeFlags, out: &mut Text) -> R<()>
    ensures ok { OnOk result (out.new ≡ out.old ++ after_each (flag_texts (bits_of flags) flag_words)) }
    ensures err { OnErr result (result ≡ Err Memory) }
{
    let mut left = flags.bits();
    for flag in TypeFlags::flags() {
        if left % 2 == 1 {
            out.append(b" ")?;
            out.append(flag.name().as_bytes())?;
        }
        left /= 2;
    }
    Ok(())
}
