ghost use Rattle.std.specs.Prelude.{◌≡◌, ◌<◌, ◌≤◌, Some, length, take, IfOk, OnOk, OnErr};
ghost use Rattle.ilk_io.specs.Faults.{CountedOneFault};
ghost use Rattle.ilk_io.specs.Source.{Consumes, IsAtEnd};
ghost use Rattle.std.specs.Result.{result_ok};
ghost use Rattle.ilk_io.specs.Memory.{byte_count_of_read, after_read_attempt};

use crate::plan::FaultPlanWithCounts;
use crate::unread::UnreadBytes;
use crate::{Failed, Source};
use std::marker::Model;

/// A source of bytes in memory, of which chosen calls fail. Contracts see the remaining bytes.
#[derive(Drop)]
pub struct MemSource {
    unread: UnreadBytes,
    plan: FaultPlanWithCounts,
}

impl Model for MemSource {
    ghost use Rattle.ilk_io.specs.Memory.{SourceState};

    ghost Value = { SourceState };

    ghost view = { λ a. record { rest = a.unread; plan = a.plan } };
}

impl MemSource {
    /// Creates a source of `bytes`. A read fails if and only if its number, from 1, is in `fails`.
    pub fn new(bytes: Vec<u8>, fails: Vec<u64>) -> MemSource
        ensures { result
            ≡ record {
              rest = bytes.items;
              plan = record { fails = fails.items; calls = 0; faults = 0 };
            } }
    {
        MemSource {
            unread: UnreadBytes::new(bytes),
            plan: FaultPlanWithCounts::new(fails),
        }
    }
}

impl Source for MemSource {
    ghost left = { λ s. Some s.rest };

    ghost faults = { λ s. s.plan.faults };

    fn read(&mut self, into: &mut [u8]) -> Result<usize, Failed>
        ensures within { IfOk result (λ n. n ≤ length into.new) }
        ensures taken { IfOk result
            (λ n. Consumes (Some self.old.rest) (Some self.new.rest) (take n into.new)) }
        ensures end { IfOk result
            (λ n. n ≡ 0 → 0 < length into.new → IsAtEnd (Some self.new.rest)) }
        ensures kept { OnErr result (self.new.rest ≡ self.old.rest) }
        ensures failed { OnErr result (CountedOneFault self.old.plan.faults self.new.plan.faults) }
        ensures unraised { OnOk result (self.new.plan.faults ≡ self.old.plan.faults) }
        ensures count { result_ok result ≡ byte_count_of_read self.old (length into.old) }
        ensures after { self.new ≡ after_read_attempt self.old (length into.old) }
    {
        if self.plan.fails_next() {
            self.plan.count_fault();
            return Err(Failed);
        }
        self.plan.count_success();
        Ok(self.unread.read(into))
    }
}
