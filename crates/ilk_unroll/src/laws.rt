//! Theorems: each is the contract of a function without body.
ghost use Rattle.std.specs.Prelude.{ℕ, ◌↔◌, IsTrue, nat_lt};
ghost use Rattle.std.specs.List.{list_all};
ghost use Rattle.ilk_ir.specs.System.{PlainSystem, system_valid};
ghost use Rattle.ilk_unroll.specs.Goal.{PlainGoalForms, goal_valid};
ghost use Rattle.ilk_unroll.specs.Query.{query_formula};
ghost use Rattle.ilk_unroll.specs.Satisfied.{IsSatisfiable};
ghost use Rattle.ilk_unroll.specs.declared.queries.Wanted.{Wanted};
ghost use Rattle.ilk_unroll.specs.declared.queries.Wanted.TheVariants.{Step};
ghost use Rattle.ilk_unroll.specs.Evidence.{HasRun, NoHazardOrBreachEver, HoldsForNoneUpTo, ReachesHazard, ReachesBreach};

/// In a valid system, no run from the start through well-formed values, of any length, reaches a
/// hazard or breaks a family. There are two conditions: no such run of up to k steps does, and the
/// step query for k steps has no run. Proof only; no run-time effect.
pub fn k_induction_is_sound()
    ensures { (s : PlainSystem) (g : PlainGoalForms) (k : ℕ) → IsTrue (system_valid s) →
        HoldsForNoneUpTo k (ReachesHazard (HasRun s g))
        → HoldsForNoneUpTo k (ReachesBreach (HasRun s g)) →
        ¬ HasRun s g (Step k) → NoHazardOrBreachEver (HasRun s g) }
{}

/// The formula of a query is satisfiable exactly if a run exists for which the query asks. The
/// system is valid and its ranges fit in a byte. Proof only; no run-time effect.
pub fn satisfiable_iff_run_exists()
    ensures { (s : PlainSystem) (g : PlainGoalForms) (q : Wanted) → IsTrue (system_valid s) →
        IsTrue (list_all (λ range. nat_lt range 256) s.ranges) → IsTrue (goal_valid s.ranges g) →
        IsSatisfiable (query_formula s g q) ↔ HasRun s g q }
{}
