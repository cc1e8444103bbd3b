ghost use Rattle.std.specs.Prelude.{ℕ, ◌≡◌, ◌<◌, ◌^◌, length};
ghost use Rattle.ilk_ir.specs.System.{PlainSystem};
ghost use Rattle.ilk_lines.specs.Lines.{Bytes};
ghost use Rattle.ilk_unroll.specs.Goal.{PlainGoalForms};
ghost use Rattle.ilk_certificate.specs.Certificate.{IsValidCertificate};
ghost use Rattle.ilk_cert_audit.specs.Answers.{IsFinalAnswer};
ghost use Rattle.ilk_cert_audit.specs.FirstBad.{FirstBadOrMissingLine};
ghost use Rattle.ilk_cert_audit.specs.declared.answers.Ended.TheVariants.{Rejected};

/// Bytes are a certificate for at most one number `k`. Proof only; no run-time effect.
pub fn certificate_is_for_one_k()
    ensures { (s : PlainSystem) (g : PlainGoalForms) (k m : ℕ) (bytes : Bytes) →
        IsValidCertificate s g k bytes → IsValidCertificate s g m bytes → k ≡ m }
{}

/// If a text has fewer than 2^63 bytes, its line numbers fit into 64 bits, so a rejection names the
/// first bad line. Proof only; no run-time effect.
pub fn rejected_line_is_first_bad()
    ensures { (s : PlainSystem) (g : PlainGoalForms) (bytes : Bytes) (n : ℕ) →
        length bytes < 2 ^ 63 →
        IsFinalAnswer s g bytes (Rejected n) → FirstBadOrMissingLine s g bytes n }
{}
