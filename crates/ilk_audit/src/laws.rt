ghost use Rattle.std.specs.Prelude.{◌≡◌};
ghost use Rattle.ilk_log.specs.Derived.{is_derived};
ghost use Rattle.ilk_log.specs.declared.step.Step.{Step as StepValue};
ghost use Rattle.ilk_audit.specs.Audited.{AuditState};
ghost use Rattle.ilk_audit.specs.Taken.{is_taken, step_answer};

/// The checker takes a step exactly if it follows from the clauses of the formula and of the steps
/// before it. Proof only; no run-time effect.
#[tactic(auto, using(crate::proofs::Derived::taken_derived))]
pub fn accepts_exactly_derived_steps()
    ensures { (a : AuditState) (s : StepValue) →
        is_taken (step_answer a s) ≡ is_derived a.vars a.clauses s }
{}
