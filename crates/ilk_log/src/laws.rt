ghost use Rattle.std.specs.Prelude.{◌≡◌, ◌<◌, ◌^◌, List, Bool, false, IsTrue};
ghost use Rattle.ilk_cnf.specs.Formula.{Formula};
ghost use Rattle.ilk_cnf.specs.Truth.{satisfies};
ghost use Rattle.ilk_log.specs.Conflicts.{count_learned_clauses};
ghost use Rattle.ilk_log.specs.Derived.{is_derived_log, is_refutation};
ghost use Rattle.ilk_log.specs.Fresh.{EachEmpowering};
ghost use Rattle.ilk_log.specs.declared.step.Step.{Step as StepValue};

/// No assignment satisfies a formula that a log refutes. Proof only; no run-time effect.
#[tactic(auto, using(crate::proofs::Sound::refutation_refutes))]
pub fn refutations_refute()
    ensures { (a : List Bool) (f : Formula) (log : List StepValue) →
        IsTrue (is_refutation f log) → satisfies a f.clauses ≡ false }
{}

/// Over n variables, fewer than 3^n steps of a log have a literal, if each step is derived and each
/// of these is fresh. A fresh clause is not implied by propagation alone. Proof only; no run-time
/// effect.
#[tactic(auto, using(crate::proofs::Count::fresh_few))]
pub fn empowering_below_3_pow_vars()
    ensures { (f : Formula) (log : List StepValue) → IsTrue (is_derived_log f log) →
        EachEmpowering f.clauses log → count_learned_clauses log < 3 ^ f.vars }
{}
