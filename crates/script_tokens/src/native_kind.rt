//! Kinds that a solver may support.
ghost use Rattle.std.specs.Prelude.{◌≡◌, IsTrue, None, Some, if◌then◌else◌};
ghost use Rattle.item_core.specs.Kind.{is_native};

use item_core::Kind;
use std::marker::Model;

/// A kind of item that a solver may support as it is.
#[derive(Clone, Copy, Debug, PartialEq, Eq)]
pub struct NativeKind {
    kind: Kind,
}

impl Model for NativeKind {
    ghost use Rattle.std.specs.Prelude.{IsTrue};
    ghost use Rattle.item_core.specs.declared.kind.Kind.{Kind};
    ghost use Rattle.item_core.specs.Kind.{is_native};

    ghost Value = { Kind };

    ghost view = { λ k. k.kind };

    ghost invariant = { λ k. IsTrue (is_native k.kind) };

    ghost inverse = { λ kind. record { kind = kind } };
}

impl NativeKind {
    /// The kind, if it is native.
    pub fn new(kind: Kind) -> Option<NativeKind>
        ensures { result ≡ (if is_native kind then Some kind else None) }
    {
        if kind.is_native() {
            Some(NativeKind { kind })
        } else {
            None
        }
    }

    pub fn kind(self) -> Kind
        ensures value { result ≡ self }
        ensures native { IsTrue (is_native result) }
    {
        self.kind
    }
}
