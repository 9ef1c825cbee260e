//! Signatures of a program.

ghost use Rattle.std.specs.Prelude.{◌≡◌};

use gimple_core::Signature;
use std::marker::Model;

/// A signature that stands in the program.
#[derive(Drop)]
pub struct Written<'a> {
    signature: &'a Signature,
}

impl<'a> Model for Written<'a> {
    ghost use Rattle.gimple_ir.specs.declared.statement.Signature.{Signature};

    ghost Value = { Signature };

    ghost view = { λ it. it.signature.now };
}

impl<'a> Written<'a> {
    pub fn new(signature: &'a Signature) -> Written<'a>
        ensures { result ≡ signature.now }
    {
        Written { signature }
    }

    /// The signature itself.
    pub fn signature(&self) -> &'a Signature
        ensures { result.now ≡ self.now }
    {
        self.signature
    }
}
