ghost use Rattle.std.specs.Prelude.{◌≡◌, ◌++◌, [], IfNone, option_to_list};

use crate::numbers::decode_number_from_delta;
use crate::packed::PackedStep;
use crate::unpack::lit_from_code;
use ilk_cnf::Lit;
use std::alloc::Global;
use std::marker::Model;

/// The unread part of a packed step: its literals, then its hints. Reading takes no memory.
#[derive(Drop)]
pub(crate) struct StepReader {
    bytes: Vec<u8>,
    // The start of the next number, the last number, and the number of literals left.
    at: usize,
    last: u64,
    literals: u64,
}

impl Model for StepReader {
    ghost use Rattle.ilk_log.specs.declared.step.Step.{Step};
    ghost use Rattle.ilk_log.specs.Packed.{remaining_step_from_byte};

    ghost Value = { Step };

    ghost view = { λ r. remaining_step_from_byte r.bytes.items r.at r.last r.literals };
}

impl StepReader {
    /// Creates a reader with nothing left.
    pub(crate) fn new(alloc: Global) -> StepReader
        ensures { result ≡ record { clause = []; hints = [] } }
    {
        StepReader {
            bytes: Vec::new(alloc),
            at: 0,
            last: 0,
            literals: 0,
        }
    }

    /// Takes the bytes of `step`, which is then unread as a whole. The reader's old bytes go to
    /// `step`, and the contract leaves open which step that is.
    pub(crate) fn begin_step(&mut self, step: &mut PackedStep)
        ensures { self.new ≡ step.old }
    {
        self.literals = step.exchange_bytes(&mut self.bytes);
        self.at = 0;
        self.last = 0;
    }

    /// Reads the next literal. Returns `None` if none is left.
    pub(crate) fn next_literal(&mut self) -> Option<Lit>
        ensures clause { self.old.clause ≡ option_to_list result ++ self.new.clause }
        ensures none { IfNone result (self.old.clause ≡ []) }
        ensures hints { self.new.hints ≡ self.old.hints }
    {
        if self.literals == 0 {
            return None;
        }
        let (number, next) = decode_number_from_delta(self.bytes.as_slice(), self.at, self.last)?;
        self.literals -= 1;
        self.last = number;
        self.at = next;
        Some(lit_from_code(number))
    }

    /// Reads the next hint, after all literals. Returns `None` if none is left.
    pub(crate) fn next_hint(&mut self) -> Option<u64>
        requires { self.old.clause ≡ [] }
        ensures hints { self.old.hints ≡ option_to_list result ++ self.new.hints }
        ensures none { IfNone result (self.old.hints ≡ []) }
        ensures clause { self.new.clause ≡ [] }
    {
        let (number, next) = decode_number_from_delta(self.bytes.as_slice(), self.at, self.last)?;
        self.last = number;
        self.at = next;
        Some(number)
    }
}
