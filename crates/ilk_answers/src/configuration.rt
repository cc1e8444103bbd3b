ghost use Rattle.std.specs.Prelude.{◌≡◌, ◌≤◌, IfOk, OnOk, length};
ghost use Rattle.ilk_answers.specs.Answer.{plant_or_refusals_of_conf};
ghost use Rattle.ilk_answers.specs.Strict.{FreeColumnPlantIsValid};
ghost use Rattle.ilk_words.specs.declared.lengths.TheConstants.{MAX_CONFIGURATION_BYTES};

use crate::Refusals;
use crate::checks::check_drafts;
use ilk_net_read::FormError;
use ilk_plant::Plant;
use ilk_table_read::read_net_and_table_drafts;
use ilk_words::CheckedRuleStages;
use std::alloc::{AllocError, Global};

/// Returns the plant of the configuration `conf`, or its refusals if a rule of these stages is
/// broken. `conf` has at most `MAX_CONFIGURATION_BYTES` bytes.
pub fn plant_or_refusals_of_conf(
    alloc: Global,
    stages: CheckedRuleStages,
    conf: &[u8],
) -> Result<Result<Plant, Refusals>, AllocError>
    requires { length conf.now ≤ MAX_CONFIGURATION_BYTES }
    ensures found { IfOk result (λ found. found ≡ plant_or_refusals_of_conf stages conf.now) }
    ensures plant { OnOk result (FreeColumnPlantIsValid conf.now) }
{
    match read_net_and_table_drafts(alloc, conf) {
        Ok((net, table)) => check_drafts(alloc, stages, &net, &table),
        Err(FormError::Fault(fault)) => Ok(Err(Refusals::from_form_fault(alloc, fault))),
        Err(FormError::OutOfMemory) => Err(AllocError),
    }
}
