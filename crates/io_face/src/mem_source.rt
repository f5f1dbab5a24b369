//! A source in memory that fails at chosen calls.
ghost use Rattle.std.specs.Prelude.{◌≡◌, [], ◌<◌, ◌≤◌, ◌↔◌, Some, length, take, min, IsErr, IfOk, OnErr};
ghost use Rattle.io_face.specs.Source.{Takes};
ghost use Rattle.io_face.specs.Plan.{IsFailing};
ghost use Rattle.io_face.specs.MemSource.{feed_after, feed_after_failure};

use super::schedule::Schedule;
use super::source::{Failed, Source};
use super::sure_source::SureSource;
use crate::Calls;
use std::marker::Model;

/// Gives its bytes in pieces, and fails at the reads whose numbers are listed, the first being 1.
#[derive(Drop)]
pub struct MemSource {
    source: SureSource,
    piece: usize,
    schedule: Schedule,
}

impl Model for MemSource {
    ghost use Rattle.std.specs.Prelude.{◌≤◌};
    ghost use Rattle.io_face.specs.MemSource.{Feed};

    ghost Value = { Feed };

    ghost view = { λ s. record { left = s.source; piece = s.piece; plan = s.schedule } };

    ghost invariant = { λ s. 1 ≤ s.piece };
}

impl MemSource {
    /// A read gives at most `piece` bytes.
    pub fn new(bytes: Vec<u8>, piece: usize, fails: Calls) -> MemSource
        requires { 1 ≤ piece }
        ensures left { result.left ≡ bytes.items }
        ensures piece { result.piece ≡ piece }
        ensures plan { result.plan ≡ record { fails = fails; made = 0; faults = 0 } }
    {
        MemSource {
            source: SureSource::new(bytes),
            piece,
            schedule: Schedule::new(fails),
        }
    }
}

impl Source for MemSource {
    ghost left = { λ s. Some s.left };

    ghost faults = { λ s. s.plan.faults };

    fn read(&mut self, into: &mut [u8]) -> Result<usize, Failed>
        // As for any source.
        ensures taken { IfOk result (λ n. Takes (Some self.old.left) (Some self.new.left)
            (take n into.new)) }
        ensures end { IfOk result (λ n. n ≡ 0 → 0 < length into.old → self.old.left ≡ []) }
        ensures count { self.old.plan.faults ≤ self.new.plan.faults }

        // It fails exactly at the listed calls, and else gives a piece, or what is left of it.
        ensures failing { IsErr result ↔ IsFailing self.old.plan }
        ensures amount { IfOk result (λ n. n ≡ min (min (length into.old) self.old.piece)
            (length self.old.left)) }
        ensures ok { IfOk result (λ n. self.new ≡ feed_after self.old n) }
        ensures err { OnErr result (self.new ≡ feed_after_failure self.old) }
    {
        if self.schedule.count_call() {
            return Err(Failed);
        }
        let room = into.len().min(self.piece);
        self.source.read(&mut into[..room])
    }

    fn faults(&self) -> u64 {
        self.schedule.faults()
    }
}
