ghost use Rattle.std.specs.Prelude.{ℕ, ◌<◌, ◌≤◌, List, IsTrue};
ghost use Rattle.std.specs.List.{list_all};
ghost use Rattle.ilk_ir.specs.System.{PlainSystem};
ghost use Rattle.ilk_lines.specs.Lines.{Bytes};
ghost use Rattle.ilk_unroll.specs.Goal.{PlainGoalForms, step_count_is_allowed};
ghost use Rattle.ilk_certificate.specs.declared.asked.Asked.{Asked};
ghost use Rattle.ilk_certificate.specs.Certificate.{IsValidCertificate};
ghost use Rattle.ilk_certificate.specs.CertificateText.{total_conflicts, have_no_hint_zero, safe_text, spent_text};
ghost use Rattle.ilk_certificate.specs.Kept.{drop_nonfinal_step_queries};
ghost use Rattle.ilk_induct.specs.declared.verdict.Verdict.{Verdict};
ghost use Rattle.ilk_induct.specs.declared.verdict.Verdict.TheVariants.{Safe, Spent};
ghost use Rattle.ilk_induct.specs.Asked.{AreQueriesOfVerdict};
ghost use Rattle.ilk_induct.specs.Spent.{IsSpentText};

/// The text written for a safe verdict of `decide` is a certificate. That for a spent one has its
/// queries in order, up to one whose search was given up. Proof only; no run-time effect.
pub fn written_texts_are_valid()
    ensures safe { (s : PlainSystem) (g : PlainGoalForms) (depth conflicts k : ℕ)
        (asked : List Asked) →
        depth ≤ 16 → 0 < k → AreQueriesOfVerdict s g depth conflicts (Safe k) asked →
        IsValidCertificate s g k (safe_text k (drop_nonfinal_step_queries asked)) }
    ensures spent { (s : PlainSystem) (g : PlainGoalForms) (depth conflicts : ℕ)
        (asked : List Asked) →
        AreQueriesOfVerdict s g depth conflicts Spent asked →
        IsSpentText s g depth conflicts (spent_text (total_conflicts asked) asked) }
{}

/// All hints are numbered from 1 in the logs of the queries that a verdict rests on. Proof only; no
/// run-time effect.
#[tactic(auto, using(crate::proofs::Certificates::hints_count))]
pub fn hints_are_from_one()
    ensures { (s : PlainSystem) (g : PlainGoalForms) (depth conflicts : ℕ) (verdict : Verdict)
        (asked : List Asked) →
        AreQueriesOfVerdict s g depth conflicts verdict asked → IsTrue (have_no_hint_zero asked) }
{}

/// Each query in a spent text, written when all conflicts were spent, has at most 16 steps, and a
/// step query at least one. Proof only; no run-time effect.
pub fn spent_text_step_counts_allowed()
    ensures { (s : PlainSystem) (g : PlainGoalForms) (depth n : ℕ) (bytes : Bytes) → depth ≤ 16 →
        (text : IsSpentText s g depth n bytes) →
        IsTrue (list_all (λ (a : Asked). step_count_is_allowed a.query) text.asked) }
{}
