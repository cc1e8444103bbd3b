ghost use Rattle.std.specs.Prelude.{◌≡◌, true, IfOk, IfSome, OnOk, Err, Some, is_ok};
ghost use Rattle.ilk_answers.specs.Answer.{plant_or_refusals_of_conf};
ghost use Rattle.ilk_answers.specs.Strict.{FreeColumnPlantIsValid};
ghost use Rattle.ilk_top.specs.Handled.{SourceReadAndFaultCounted};
ghost use Rattle.ilk_words.specs.declared.lengths.TheConstants.{MAX_CONFIGURATION_BYTES};

use crate::no_reply::NoReply;
use ilk_answers::{Refusals, plant_or_refusals_of_conf};
use ilk_io::{ReadError, Source, read_all};
use ilk_plant::Plant;
use ilk_words::{CheckedRuleStages, MAX_CONFIGURATION_BYTES};
use std::alloc::Global;

/// Reads the configuration from `conf` to its end, and returns its plant or all its refusals. Fails
/// with `ReadFault` at the first call of `conf` that fails.
pub(crate) fn read_plant_or_refusals<C: Source>(
    alloc: Global,
    stages: CheckedRuleStages,
    conf: &mut C,
) -> Result<Result<Plant, Refusals>, NoReply>
    ensures found { IfOk result
        (λ found. IfSome (C.left conf.old) (λ c. found ≡ plant_or_refusals_of_conf stages c)) }
    ensures plant { OnOk result (IfSome (C.left conf.old) FreeColumnPlantIsValid) }
    ensures handled { SourceReadAndFaultCounted C.left C.faults (Some true)
        (Some MAX_CONFIGURATION_BYTES)
        (result ≡ Err NoReply.ReadFault) (is_ok result) conf.old conf.new }
{
    match read_all(alloc, conf, MAX_CONFIGURATION_BYTES) {
        Ok(text) => Ok(plant_or_refusals_of_conf(alloc, stages, text.as_slice())?),
        Err(ReadError::TooLong) => Ok(Err(Refusals::too_long(alloc))),
        Err(ReadError::Failed) => Err(NoReply::ReadFault),
        Err(ReadError::OutOfMemory) => Err(NoReply::OutOfMemory),
    }
}
