ghost use Rattle.std.specs.Prelude.{◌≡◌, ◌<◌, ◌≤◌, ◌⊎◌, IfOk, IsTrue};
ghost use Rattle.ilk_certificate.specs.CertificateText.{total_conflicts, have_no_hint_zero};
ghost use Rattle.ilk_engine.specs.AskedOf.{AreVerdictQueries};
ghost use Rattle.ilk_engine.specs.CertificateOf.{IsCertificateTextOfVerdict, certificate_text_of};
ghost use Rattle.ilk_engine.specs.Forever.{SafeVerdictMeansAlwaysSafe};
ghost use Rattle.ilk_engine.specs.Right.{IsRightVerdict};
ghost use Rattle.ilk_strict.specs.IsStrict.{IsStrict};

use crate::lifting::lift;
use crate::verdict::{Found, Verdict};
use ilk_behave::behaviour;
use ilk_induct::{Found as SystemFound, decide as decide_system};
use ilk_plant::Plant;
use ilk_queries::goal;
use std::alloc::{AllocError, Global};

/// Decides whether a run of the plant's events reaches a hazard or breaks a family, by runs of at
/// most `depth` events, from 1 to 16. The searches together learn at most `conflicts` clauses.
/// Fails only if memory runs out.
///
/// It first asks the hazard query and the breach query for no event. Then it asks the hazard,
/// breach and step queries for each number of events up to `depth`. After a breach only hazard
/// queries follow. The first hazard query with a run ends the asking, as does the first step query
/// without one: the verdict is then `Safe`, for runs of any length. It is `Spent` if all conflicts
/// are used up.
pub fn decide(alloc: Global, plant: &Plant, depth: u32, conflicts: u64) -> Result<Found, AllocError>
    requires some_depth { 0 < depth }
    requires depth { depth ≤ 16 }
    ensures right { IfOk result
        (λ found. IsRightVerdict plant.now depth found.verdict ⊎ (found.verdict ≡ Verdict.Spent)) }

    // A safe verdict holds for runs of any length.
    ensures lasts { IfOk result (λ found. SafeVerdictMeansAlwaysSafe plant.now found.verdict) }

    // For a strict table the verdict is safe with k = 1, or all conflicts are spent.
    ensures strict { IfOk result
        (λ found. IsStrict plant.now →
        (found.verdict ≡ Verdict.Safe 1) ⊎ (found.verdict ≡ Verdict.Spent)) }
    ensures asked { IfOk result
        (λ found. AreVerdictQueries plant.now depth conflicts found.verdict found.asked) }
    ensures few { IfOk result (λ found. total_conflicts found.asked ≤ conflicts) }

    // The text that `certificate` writes is the certificate of the verdict.
    ensures certified { IfOk result
        (λ found. IsCertificateTextOfVerdict plant.now depth conflicts found.verdict
        (certificate_text_of found.verdict found.asked)) }
    ensures hints { IfOk result (λ found. IsTrue (have_no_hint_zero found.asked)) }
{
    plant.prove_is_plant();
    let system = behaviour(alloc, plant)?;
    let goal = goal(alloc, plant)?;
    let SystemFound { verdict, asked } = decide_system(alloc, &system, &goal, depth, conflicts)?;
    let verdict = lift(alloc, plant, depth, &verdict)?;
    Ok(Found { verdict, asked })
}
