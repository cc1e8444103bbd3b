ghost use Rattle.std.specs.Prelude.{◌≡◌, ◌<◌, ◌≤◌, ◌⊎◌, IfOk};
ghost use Rattle.ilk_behave.specs.Behaviour.{system_of_plant};
ghost use Rattle.ilk_behave.specs.Steps.{SystemMatchesEvents};
ghost use Rattle.ilk_induct.specs.Right.{IsExactSystemVerdict, SystemVerdictHoldsAtAnyLength};
ghost use Rattle.ilk_induct.specs.declared.verdict.Verdict.TheVariants as system;
ghost use Rattle.ilk_queries.specs.Goal.{goal_forms_of_plant};
ghost use Rattle.ilk_queries.specs.Lifting.{GoalFormsMatchPlant};
ghost use Rattle.ilk_engine.specs.Lifted.{IsRightVerdictLiftedFrom};

use crate::events::events_of_rules;
use crate::last::{broken_family_after, hazard_after};
use crate::verdict::Verdict;
use ilk_decode::state_of;
use ilk_induct::Verdict as SystemVerdict;
use ilk_layout::wellformed_iff_safe_state_image;
use ilk_plant::Plant;
use ilk_unroll::Trace;
use std::alloc::{AllocError, Global};

fn lift_unsafe(
    alloc: Global,
    plant: &Plant,
    depth: u32,
    trace: &Trace,
) -> Result<Verdict, AllocError>
    requires steps { SystemMatchesEvents plant.now }
    requires goal { GoalFormsMatchPlant plant.now (goal_forms_of_plant plant.now) }
    requires depth { depth ≤ 16 }
    requires right { IsExactSystemVerdict (system_of_plant plant.now)
        (goal_forms_of_plant plant.now) depth
        (system.Unsafe trace.now) }
    ensures { IfOk result (IsRightVerdictLiftedFrom plant.now depth (system.Unsafe trace.now)) }
{
    plant.prove_is_plant();
    let events = events_of_rules(alloc, plant, &trace.rules)?;
    let hazard = hazard_after(alloc, plant, &events)?;
    Ok(Verdict::Unsafe { events, hazard })
}

fn lift_breach(
    alloc: Global,
    plant: &Plant,
    depth: u32,
    trace: &Trace,
) -> Result<Verdict, AllocError>
    requires steps { SystemMatchesEvents plant.now }
    requires goal { GoalFormsMatchPlant plant.now (goal_forms_of_plant plant.now) }
    requires depth { depth ≤ 16 }
    requires right { IsExactSystemVerdict (system_of_plant plant.now)
        (goal_forms_of_plant plant.now) depth
        (system.Breach trace.now) }
    ensures { IfOk result (IsRightVerdictLiftedFrom plant.now depth (system.Breach trace.now)) }
{
    plant.prove_is_plant();
    let events = events_of_rules(alloc, plant, &trace.rules)?;
    let family = broken_family_after(alloc, plant, &events)?;
    Ok(Verdict::Breach { events, family })
}

fn lift_not_inductive(
    alloc: Global,
    plant: &Plant,
    depth: u32,
    trace: &Trace,
) -> Result<Verdict, AllocError>
    requires steps { SystemMatchesEvents plant.now }
    requires goal { GoalFormsMatchPlant plant.now (goal_forms_of_plant plant.now) }
    requires some_depth { 0 < depth }
    requires depth { depth ≤ 16 }
    requires right { IsExactSystemVerdict (system_of_plant plant.now)
        (goal_forms_of_plant plant.now) depth
        (system.NotInductive trace.now) }
    ensures { IfOk result (IsRightVerdictLiftedFrom plant.now depth
        (system.NotInductive trace.now)) }
{
    plant.prove_is_plant();
    wellformed_iff_safe_state_image(plant);
    let first = state_of(alloc, plant, &trace.first)?;
    let events = events_of_rules(alloc, plant, &trace.rules)?;
    Ok(Verdict::NotInductive { first, events })
}

/// Translates a verdict on the plant's system into the verdict on the plant.
pub(crate) fn lift(
    alloc: Global,
    plant: &Plant,
    depth: u32,
    verdict: &SystemVerdict,
) -> Result<Verdict, AllocError>
    requires steps { SystemMatchesEvents plant.now }
    requires goal { GoalFormsMatchPlant plant.now (goal_forms_of_plant plant.now) }
    requires some_depth { 0 < depth }
    requires depth { depth ≤ 16 }
    requires right { IsExactSystemVerdict (system_of_plant plant.now)
        (goal_forms_of_plant plant.now) depth
        verdict.now
        ⊎ (verdict.now ≡ system.Spent) }
    requires lasts { SystemVerdictHoldsAtAnyLength (system_of_plant plant.now)
        (goal_forms_of_plant plant.now) verdict.now }
    ensures { IfOk result (IsRightVerdictLiftedFrom plant.now depth verdict.now) }
{
    plant.prove_is_plant();
    match verdict {
        SystemVerdict::Safe { k } => Ok(Verdict::Safe { k: *k }),
        SystemVerdict::Unsafe(trace) => lift_unsafe(alloc, plant, depth, trace),
        SystemVerdict::Breach(trace) => lift_breach(alloc, plant, depth, trace),
        SystemVerdict::NotInductive(trace) => lift_not_inductive(alloc, plant, depth, trace),
        SystemVerdict::Spent => Ok(Verdict::Spent),
    }
}
