ghost use Rattle.std.specs.Prelude.{◌≡◌, ◌^◌, ◌<◌, ℕ, List, [], IfOk, IsTrue, length};
ghost use Rattle.ilk_plant_audit.specs.Audited.{HasAuditedBytes};
ghost use Rattle.ilk_answers.specs.Audits.{AnswersAudit};
ghost use Rattle.ilk_answers.specs.Status.{is_fault_free_command_status};

use crate::report::{certificate_accepted_line, first_bad_line_message};
use crate::{Reply, Status};
use ilk_cert_audit::rejected_line_is_first_bad;
use ilk_forever::certificates_imply_safety;
use ilk_plant::Plant;
use ilk_plant_audit::{CertAudit, Ended};
use std::alloc::{AllocError, Global};

/// Returns the reply to the bytes that `audit`, the check of a certificate, has taken: accepted, or
/// the first bad line. They are fewer than 2^40.
pub(crate) fn audit_reply(
    alloc: Global,
    plant: &Plant,
    audit: CertAudit<'_>,
) -> Result<Reply, AllocError>
    ensures reply { IfOk result
        (λ made. audit.entry.plant ≡ plant.now → (bytes : List ℕ) →
        HasAuditedBytes audit.entry bytes → length bytes < 2 ^ 40
        → AnswersAudit plant.now bytes made) }
    ensures planned { IfOk result
        (λ made. IsTrue (is_fault_free_command_status made.status) × (made.certificate ≡ [])) }
{
    certificates_imply_safety(plant);
    rejected_line_is_first_bad();
    match audit.end() {
        Ended::Accepted { k } => {
            let text = certificate_accepted_line(alloc, k)?;
            Ok(Reply::with_report(alloc, Status::Good, text))
        }
        Ended::Rejected { line } => {
            let text = first_bad_line_message(alloc, line)?;
            Ok(Reply::with_report(alloc, Status::Rejected, text))
        }
    }
}
