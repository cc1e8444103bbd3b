ghost use Rattle.std.specs.Prelude.{◌≡◌, ◌<◌, ◌≤◌, [], Some, length, take, IfOk, OnOk, OnErr};
ghost use Rattle.ilk_io.specs.Faults.{CountedOneFault};
ghost use Rattle.ilk_io.specs.Sink.{Appends};
ghost use Rattle.std.specs.Result.{result_ok};
ghost use Rattle.ilk_io.specs.Memory.{byte_count_of_write, after_write_attempt};

use crate::plan::FaultPlanWithCounts;
use crate::{Failed, Sink};
use std::alloc::{AllocError, Global};
use std::marker::Model;

/// A sink in memory with limited room, of which chosen calls fail. Contracts see the bytes written.
#[derive(Drop)]
pub struct MemSink {
    bytes: Vec<u8>,
    room: usize,
    plan: FaultPlanWithCounts,
}

impl Model for MemSink {
    ghost use Rattle.std.specs.Prelude.{◌≤◌, vec_len};
    ghost use Rattle.std.specs.Vec.{vec_capacity};
    ghost use Rattle.ilk_io.specs.Memory.{SinkState};

    ghost Value = { SinkState };

    ghost view = { λ a. record { taken = a.bytes.items; room = a.room; plan = a.plan } };

    ghost invariant = { λ a. (vec_len a.bytes ≤ a.room) × (a.room ≤ vec_capacity a.bytes) };
}

impl MemSink {
    /// Creates an empty sink with room for `room` bytes. A write fails if its number, from 1, is in
    /// `fails`, or if no room is left for a non-empty piece. Returns `AllocError` if memory runs
    /// out.
    pub fn new(alloc: Global, room: u64, fails: Vec<u64>) -> Result<MemSink, AllocError>
        ensures { IfOk result
            (λ s. s
            ≡ record {
              taken = [];
              room = room;
              plan = record { fails = fails.items; calls = 0; faults = 0 };
            }) }
    {
        let room = room as usize;
        Ok(MemSink {
            bytes: Vec::with_capacity(alloc, room)?,
            room,
            plan: FaultPlanWithCounts::new(fails),
        })
    }

    /// Returns the bytes written so far, in order.
    pub fn bytes(&self) -> &[u8]
        ensures { result.now ≡ self.now.taken }
    {
        &self.bytes
    }
}

impl Sink for MemSink {
    ghost written = { λ s. Some s.taken };

    ghost faults = { λ s. s.plan.faults };

    fn write(&mut self, piece: &[u8]) -> Result<usize, Failed>
        ensures within { IfOk result (λ n. n ≤ length piece.now) }
        ensures some { IfOk result (λ n. 0 < length piece.now → 0 < n) }
        ensures taken { IfOk result
            (λ n. Appends (Some self.old.taken) (Some self.new.taken) (take n piece.now)) }
        ensures kept { OnErr result (self.new.taken ≡ self.old.taken) }
        ensures failed { OnErr result (CountedOneFault self.old.plan.faults self.new.plan.faults) }
        ensures unraised { OnOk result (self.new.plan.faults ≡ self.old.plan.faults) }
        ensures count { result_ok result ≡ byte_count_of_write self.old piece.now }
        ensures after { self.new ≡ after_write_attempt self.old piece.now }
    {
        let count = piece.len().min(self.room - self.bytes.len());
        let is_full = count == 0 && !piece.is_empty();
        if self.plan.fails_next()
            || is_full
            || self.bytes.extend_from_slice(&piece[..count]).is_err()
        {
            self.plan.count_fault();
            return Err(Failed);
        }
        self.plan.count_success();
        Ok(count)
    }
}
