//! Flags of terms.
ghost use Rattle.std.specs.Prelude.{⊤, [], ◌∷◌, codes};

use bitflags::{Flag, Flags, bitflag_items};

/// What a term holds somewhere in it: parameters, variables to be inferred, placeholders, aliases, errors, regions, bound variables and others.
#[derive(Clone, Copy, PartialEq, Eq, Debug)]
pub struct TypeFlags(u32);

bitflag_items! {
    impl TypeFlags: u32 {
        const HAS_TY_PARAM = 1;
        const HAS_RE_PARAM = 2;
        const HAS_CT_PARAM = 4;
        const HAS_TY_INFER = 8;
        const HAS_RE_INFER = 16;
        const HAS_CT_INFER = 32;
        const HAS_TY_PLACEHOLDER = 64;
        const HAS_RE_PLACEHOLDER = 128;
        const HAS_CT_PLACEHOLDER = 256;
        const HAS_FREE_LOCAL_REGIONS = 512;
        const HAS_TY_PROJECTION = 1024;
        const HAS_TY_FREE_ALIAS = 2048;
        const HAS_TY_OPAQUE = 4096;
        const HAS_TY_INHERENT = 8192;
        const HAS_CT_PROJECTION = 16384;
        const HAS_ERROR = 32768;
        const HAS_FREE_REGIONS = 65536;
        const HAS_RE_BOUND = 131072;
        const HAS_TY_BOUND = 262144;
        const HAS_CT_BOUND = 524288;
        const HAS_CANONICAL_BOUND = 1048576;
        const HAS_RE_ERASED = 2097152;
        const HAS_TY_FRESH = 4194304;
        const HAS_CT_FRESH = 8388608;
        const HAS_TY_COROUTINE = 16777216;
        const HAS_BINDER_VARS = 33554432;
    }
}

impl Flags for TypeFlags {
    type Bits = u32;

    ghost exact = { ⊤ };

    ghost table = { (codes "HAS_TY_PARAM", 1) ∷ (codes "HAS_RE_PARAM", 2) ∷ (codes "HAS_CT_PARAM", 4) ∷ (codes "HAS_TY_INFER", 8) ∷ (codes "HAS_RE_INFER", 16) ∷ (codes "HAS_CT_INFER", 32) ∷ (codes "HAS_TY_PLACEHOLDER", 64) ∷ (codes "HAS_RE_PLACEHOLDER", 128) ∷ (codes "HAS_CT_PLACEHOLDER", 256) ∷ (codes "HAS_FREE_LOCAL_REGIONS", 512) ∷ (codes "HAS_TY_PROJECTION", 1024) ∷ (codes "HAS_TY_FREE_ALIAS", 2048) ∷ (codes "HAS_TY_OPAQUE", 4096) ∷ (codes "HAS_TY_INHERENT", 8192) ∷ (codes "HAS_CT_PROJECTION", 16384) ∷ (codes "HAS_ERROR", 32768) ∷ (codes "HAS_FREE_REGIONS", 65536) ∷ (codes "HAS_RE_BOUND", 131072) ∷ (codes "HAS_TY_BOUND", 262144) ∷ (codes "HAS_CT_BOUND", 524288) ∷ (codes "HAS_CANONICAL_BOUND", 1048576) ∷ (codes "HAS_RE_ERASED", 2097152) ∷ (codes "HAS_TY_FRESH", 4194304) ∷ (codes "HAS_CT_FRESH", 8388608) ∷ (codes "HAS_TY_COROUTINE", 16777216) ∷ (codes "HAS_BINDER_VARS", 33554432) ∷ [] };

    ghost set_of = { λ f. f.0 };

    fn flags<'a>() -> &'a [Flag<TypeFlags>] {
        TypeFlags::FLAGS
    }

    fn bits(&self) -> u32 {
        self.0
    }

    fn from_bits_retain(bits: u32) -> TypeFlags {
        TypeFlags(bits)
    }
}
