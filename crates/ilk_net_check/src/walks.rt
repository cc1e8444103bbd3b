ghost use Rattle.std.specs.Prelude.{IsTrue, ◌↔◌};
ghost use Rattle.ilk_plant.specs.NetworkRules.{IsOnUpCycle, is_on_up_cycle};

use ilk_plant::NetDraft;

/// The test `is_on_up_cycle` finds section `x` in violation of rule N7 if and only if a walk up
/// from `x`, of one or more steps and any length, returns to `x`. Proof only; no run-time effect.
pub fn up_cycle_test_is_exact(net: &NetDraft, x: u32)
    ensures { IsTrue (is_on_up_cycle net.now x) ↔ IsOnUpCycle net.now x }
{}
