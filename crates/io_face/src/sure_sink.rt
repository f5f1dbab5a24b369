//! A sink in memory that never fails.
ghost use Rattle.std.specs.Prelude.{◌≡◌, ℕ, ◌++◌, List, [], Some, length, IfOk, OnOk, OnErr, IsOkUnless};

use super::sink::{Sink, SinkFault};
use std::alloc::Global;
use std::marker::Model;

/// Takes each piece whole. Contracts see the bytes written.
#[derive(Drop)]
pub struct SureSink {
    bytes: Vec<u8>,
}

impl Model for SureSink {
    ghost Value = { List ℕ };

    ghost view = { λ s. s.bytes.items };
}

impl SureSink {
    pub fn new(alloc: Global) -> SureSink
        ensures { result ≡ [] }
    {
        SureSink {
            bytes: Vec::new(alloc),
        }
    }

    pub fn written(&self) -> &[u8]
        ensures { result.now ≡ self.now }
    {
        &self.bytes
    }
}

impl Sink for SureSink {
    ghost written = { λ s. Some s };

    ghost faults = { λ _. 0 };

    fn write(&mut self, piece: &[u8]) -> Result<usize, SinkFault>
        // It takes the whole piece, unless memory runs out.
        ensures sure { IsOkUnless result SinkFault.Memory }
        ensures whole { IfOk result (λ n. n ≡ length piece.now) }
        ensures unchanged { OnErr result (self.new ≡ self.old) }
        ensures after { OnOk result (self.new ≡ self.old ++ piece.now) }
    {
        self.bytes.extend_from_slice(piece)?;
        Ok(piece.len())
    }

    fn faults(&self) -> u64 {
        0
    }
}
