//! A sink in memory that fails at chosen calls.
ghost use Rattle.std.specs.Prelude.{◌≡◌, ◌<◌, ◌≤◌, ◌↔◌, [], Some, length, take, min, IfOk, OnErr, IsErrOf};
ghost use Rattle.io_face.specs.Fault.{HasFaulted};
ghost use Rattle.io_face.specs.Plan.{IsFailing};
ghost use Rattle.io_face.specs.MemSink.{collector_after, collector_after_failure, collector_without_memory};

use super::schedule::Schedule;
use super::sink::{Sink, SinkFault};
use super::sure_sink::SureSink;
use crate::Calls;
use std::alloc::Global;
use std::marker::Model;

/// Takes pieces in parts, and fails at the writes whose numbers are listed, the first being 1.
#[derive(Drop)]
pub struct MemSink {
    sink: SureSink,
    piece: usize,
    schedule: Schedule,
}

impl Model for MemSink {
    ghost use Rattle.std.specs.Prelude.{◌≤◌};
    ghost use Rattle.io_face.specs.MemSink.{Collector};

    ghost Value = { Collector };

    ghost view = { λ s. record { written = s.sink; piece = s.piece; plan = s.schedule } };

    ghost invariant = { λ s. 1 ≤ s.piece };
}

impl MemSink {
    /// A write takes at most `piece` bytes.
    pub fn new(alloc: Global, piece: usize, fails: Calls) -> MemSink
        requires { 1 ≤ piece }
        ensures written { result.written ≡ [] }
        ensures piece { result.piece ≡ piece }
        ensures plan { result.plan ≡ record { fails = fails; made = 0; faults = 0 } }
    {
        MemSink {
            sink: SureSink::new(alloc),
            piece,
            schedule: Schedule::new(fails),
        }
    }

    pub fn written(&self) -> &[u8]
        ensures { result.now ≡ self.now.written }
    {
        self.sink.written()
    }
}

impl Sink for MemSink {
    ghost written = { λ s. Some s.written };

    ghost faults = { λ s. s.plan.faults };

    fn write(&mut self, piece: &[u8]) -> Result<usize, SinkFault>
        // As for any sink.
        ensures progress { IfOk result (λ n. 0 < length piece.now → 0 < n) }
        ensures failed { OnErr result (self.new.written ≡ self.old.written) }
        ensures count { self.old.plan.faults ≤ self.new.plan.faults }
        ensures cause { IsErrOf result SinkFault.Failed
            → HasFaulted self.old.plan.faults self.new.plan.faults }

        // It fails exactly at the listed calls, and else takes as much as it may, unless memory
        // runs out.
        ensures failing { IsErrOf result SinkFault.Failed ↔ IsFailing self.old.plan }
        ensures amount { IfOk result (λ n. n ≡ min (length piece.now) self.old.piece) }
        ensures ok { IfOk result (λ n. self.new ≡ collector_after self.old (take n piece.now)) }
        ensures err { IsErrOf result SinkFault.Failed
            → self.new ≡ collector_after_failure self.old }
        ensures memory { IsErrOf result SinkFault.Memory
            → self.new ≡ collector_without_memory self.old }
    {
        if self.schedule.count_call() {
            return Err(SinkFault::Failed);
        }
        let most = piece.len().min(self.piece);
        self.sink.write(&piece[..most])
    }

    fn faults(&self) -> u64 {
        self.schedule.faults()
    }
}
