ghost use Rattle.std.specs.Prelude.{◌≡◌, ◌<◌, ◌++◌, ◌∷◌, [], length, slice_get, IfOk, OnErr, OnOk, Some};

use crate::packed::PackedStep;
use crate::step::Step;
use ilk_base::Row;
use std::alloc::{AllocError, Global};
use std::marker::Model;

/// The steps of a search, in order; contracts see them as a list. Each is stored packed, because a
/// search keeps tens of thousands.
#[derive(Drop)]
pub struct Log {
    steps: Row<PackedStep>,
    alloc: Global,
}

impl Model for Log {
    ghost use Rattle.std.specs.Prelude.{List};
    ghost use Rattle.ilk_log.specs.declared.step.Step.{Step};

    ghost Value = { List Step };

    ghost view = { λ log. log.steps };
}

impl Log {
    /// Creates an empty log.
    pub fn new(alloc: Global) -> Log
        ensures { result ≡ [] }
    {
        Log {
            steps: Row::new(alloc),
            alloc,
        }
    }

    /// Returns the number of steps.
    pub fn len(&self) -> u64
        ensures { result ≡ length self.now }
    {
        self.steps.len()
    }

    /// Returns step `i`, from 0. Fails only if memory runs out.
    pub fn at(&self, i: u64) -> Result<Step, AllocError>
        requires { i < length self.now }
        ensures { IfOk result (λ step. slice_get self.now i ≡ Some step) }
    {
        self.steps.at(i).unpack_step(self.alloc)
    }

    /// Adds a step at the end. If memory runs out, the log is unchanged.
    pub fn push(&mut self, step: Step) -> Result<(), AllocError>
        ensures ok { OnOk result (self.new ≡ self.old ++ step ∷ []) }
        ensures err { OnErr result (self.new ≡ self.old) }
    {
        let packed = PackedStep::pack(self.alloc, &step)?;
        self.steps.push(packed)
    }

    /// Returns the packed steps.
    pub(crate) fn packed(&self) -> &[PackedStep]
        ensures { result.now ≡ self.now }
    {
        self.steps.as_slice()
    }

    /// Converts the log into its packed steps.
    pub(crate) fn into_packed(self) -> Row<PackedStep>
        ensures { result ≡ self }
    {
        let Log { steps, .. } = self;
        steps
    }
}
