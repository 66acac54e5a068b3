//! Values: what a call may take and give that is made of parts.
ghost use Rattle.ir_nodes.specs.Values.{IsTold, binder_value, signature_value};
ghost use Rattle.std.specs.Prelude.{◌≡◌};

use crate::views::{abi_keyword, safety_keyword, variadic_keyword};
use crate::{Content, Node};
use ir_core::{BoundVarKinds, FnSig, Part};
use ir_laws::Word;

/// What a value is: a part, or a node over parts that is itself no part, and isn't counted.
#[derive(Clone, Copy, PartialEq, Eq, Debug)]
pub enum Value {
    Part(Part),
    Node(Node),
}

/// The value of a signature, under a binder or opened.
pub fn signature_value(sig: FnSig, binder: Option<BoundVarKinds>) -> Value
    ensures value { result ≡ signature_value sig binder }
    ensures told { IsTold result }
{
    let safety = safety_keyword(sig.safety);
    let abi = abi_keyword(sig.abi);
    let variadic = variadic_keyword(sig.c_variadic);
    let types = Part::Tys(sig.inputs_and_output);
    let content = match binder {
        None => Content::Opened(safety, abi, variadic, types),
        Some(variables) => Content::Signature(safety, abi, variadic, variables, types),
    };
    Value::Node(Node {
        word: Word::FnPtrType,
        content,
    })
}

/// The value of a part under a binder: a node that binds over it alone.
pub fn binder_value(variables: BoundVarKinds, part: Part) -> Value
    ensures value { result ≡ binder_value variables part }
    ensures told { IsTold result }
{
    Value::Node(Node {
        word: Word::UnsafeBinderType,
        content: Content::BoundOne(variables, part),
    })
}
