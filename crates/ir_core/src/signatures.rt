//! Signatures of functions.
ghost use Rattle.std.specs.Prelude.{◌≡◌, ◌↔◌, ◌⊎◌, IsTrue};
ghost use Rattle.ir_core.specs.Signatures.{safety_prefix};

use crate::{Binder, Tys};

/// Whether a caller of a function has to keep to rules that no type states. Unsafe comes before safe.
#[derive(Clone, Copy, PartialEq, Eq, PartialOrd, Ord, Hash, Debug)]
pub enum Safety {
    Unsafe,
    Safe,
}

impl Safety {
    /// That of a function declared without a word on it.
    pub fn safe() -> Safety
        ensures { result ≡ Safety.Safe }
    {
        Safety::Safe
    }

    /// Whether any caller may call it.
    pub fn is_safe(self) -> bool
        ensures { IsTrue result ↔ (self ≡ Safety.Safe) }
    {
        matches!(self, Safety::Safe)
    }

    /// What stands before `fn` in a type: the word with a space behind it, or nothing.
    pub fn prefix_str(self) -> &'static str
        ensures { result.now ≡ safety_prefix self }
    {
        match self {
            Safety::Unsafe => "unsafe ",
            Safety::Safe => "",
        }
    }
}

/// The convention by which a function is called.
#[derive(Clone, Copy, PartialEq, Eq, Hash, Debug)]
pub enum FnAbi {
    Rust,
    /// That of a closure's body, whose arguments come as one tuple.
    RustCall,
    C,
    System,
}

impl FnAbi {
    /// That of a function declared without a word on it.
    pub fn rust() -> FnAbi
        ensures { result ≡ FnAbi.Rust }
    {
        FnAbi::Rust
    }

    /// Whether it is one of Rust's own.
    pub fn is_rust(self) -> bool
        ensures { IsTrue result ↔ ((self ≡ FnAbi.Rust) ⊎ (self ≡ FnAbi.RustCall)) }
    {
        matches!(self, FnAbi::Rust | FnAbi::RustCall)
    }
}

/// A signature: the types of the inputs and, last, of the output; and what a header says.
#[derive(Clone, Copy, PartialEq, Eq, Hash, Debug)]
pub struct FnSig {
    pub inputs_and_output: Tys,
    /// Whether more arguments may follow the inputs, as in C.
    pub c_variadic: bool,
    pub safety: Safety,
    pub abi: FnAbi,
}

/// The types of a signature: those of the inputs and, last, of the output.
#[derive(Clone, Copy, PartialEq, Eq, Hash, Debug)]
pub struct FnSigTys {
    pub inputs_and_output: Tys,
}

/// What a signature says beside its types.
#[derive(Clone, Copy, PartialEq, Eq, Hash, Debug)]
pub struct FnHeader {
    /// Whether more arguments may follow the inputs, as in C.
    pub c_variadic: bool,
    pub safety: Safety,
    pub abi: FnAbi,
}

/// A signature under its binder.
pub type PolyFnSig = Binder<FnSig>;

/// The types of a signature under its binder, and its header. `with_header` puts them together again.
pub fn split(sig: PolyFnSig) -> (Binder<FnSigTys>, FnHeader)
    ensures types { result.0.value ≡ record { inputs_and_output = sig.value.inputs_and_output } }
    ensures variables { result.0.bound_vars ≡ sig.bound_vars }
    ensures header { result.1 ≡ record { c_variadic = sig.value.c_variadic; safety = sig.value.safety; abi = sig.value.abi } }
{
    let FnSig {
        inputs_and_output,
        c_variadic,
        safety,
        abi,
    } = sig.skip_binder();
    let header = FnHeader {
        c_variadic,
        safety,
        abi,
    };
    (sig.rebind(FnSigTys { inputs_and_output }), header)
}

/// The signature of these types and this header, under the binder of the types.
pub fn with_header(tys: Binder<FnSigTys>, hdr: FnHeader) -> PolyFnSig
    ensures signature { result.value ≡ record { inputs_and_output = tys.value.inputs_and_output; c_variadic = hdr.c_variadic; safety = hdr.safety; abi = hdr.abi } }
    ensures variables { result.bound_vars ≡ tys.bound_vars }
{
    let FnHeader {
        c_variadic,
        safety,
        abi,
    } = hdr;
    tys.map_bound(|tys| FnSig {
        inputs_and_output: tys.inputs_and_output,
        c_variadic,
        safety,
        abi,
    })
}

/// A signature under its binder, as it is kept beside an item.
#[derive(Clone, Copy, PartialEq, Eq, Hash, Debug)]
pub struct StoredPolyFnSig {
    pub sig: PolyFnSig,
}

impl StoredPolyFnSig {
    /// The signature, to be kept.
    pub fn new(sig: PolyFnSig) -> Self
        ensures { result.sig ≡ sig }
    {
        StoredPolyFnSig { sig }
    }

    /// The signature that is kept.
    pub fn get(&self) -> PolyFnSig
        ensures { result ≡ self.now.sig }
    {
        self.sig
    }
}

#[cfg(test)]
mod tests {
    use super::*;
    use crate::BoundVarKinds;

    /// A signature that differs in each field from that of a plain function.
    const SIGNATURE: PolyFnSig = Binder {
        value: FnSig {
            inputs_and_output: Tys { index: 4 },
            c_variadic: true,
            safety: Safety::Unsafe,
            abi: FnAbi::C,
        },
        bound_vars: BoundVarKinds { index: 1 },
    };

    #[test]
    fn safety_has_a_word_and_an_order(rt: HostRuntime) {
        for (safety, is_safe, prefix) in [
            (Safety::Unsafe, false, "unsafe "),
            (Safety::Safe, true, ""),
        ] {
            assert_eq!(rt; safety.is_safe(), is_safe, "at {safety:?}");
            assert_eq!(rt; safety.prefix_str(), prefix, "at {safety:?}");
        }
        assert_eq!(rt; Safety::safe(), Safety::Safe);
        assert!(rt; Safety::Unsafe < Safety::Safe);
    }

    #[test]
    fn calls_of_closures_are_of_rust(rt: HostRuntime) {
        for (abi, is_rust) in [
            (FnAbi::Rust, true),
            (FnAbi::RustCall, true),
            (FnAbi::C, false),
            (FnAbi::System, false),
        ] {
            assert_eq!(rt; abi.is_rust(), is_rust, "at {abi:?}");
        }
        assert_eq!(rt; FnAbi::rust(), FnAbi::Rust);
    }

    #[test]
    fn a_signature_is_its_types_and_its_header(rt: HostRuntime) {
        let (tys, header) = split(SIGNATURE);
        assert_eq!(rt;
            tys,
            SIGNATURE.rebind(FnSigTys {
                inputs_and_output: Tys { index: 4 }
            })
        );
        assert_eq!(rt;
            header,
            FnHeader {
                c_variadic: true,
                safety: Safety::Unsafe,
                abi: FnAbi::C
            }
        );
        assert_eq!(rt; with_header(tys, header), SIGNATURE);
        let plain = FnHeader {
            c_variadic: false,
            safety: Safety::Safe,
            abi: FnAbi::Rust,
        };
        assert_ne!(rt; with_header(tys, plain), SIGNATURE);
        assert_eq!(rt; StoredPolyFnSig::new(SIGNATURE).get(), SIGNATURE);
    }
}
