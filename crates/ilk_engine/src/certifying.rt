ghost use Rattle.std.specs.Prelude.{◌≡◌, IfOk, IsTrue};
ghost use Rattle.ilk_certificate.specs.CertificateText.{have_no_hint_zero};
ghost use Rattle.ilk_engine.specs.CertificateOf.{certificate_text_of};

use crate::verdict::{Found, Verdict};
use ilk_base::Row;
use ilk_certificate::{Asked, CertificateText, safe_text, spent_text};
use std::alloc::{AllocError, Global};

/// Returns the text of the certificate of a verdict that `decide` found; each line ends in a line
/// feed. The text is empty unless the verdict is `Safe` or `Spent`. No hint in the logs may be 0,
/// which the results of `decide` ensure. Fails only if memory runs out.
pub fn certificate(alloc: Global, found: &Found) -> Result<Vec<u8>, AllocError>
    requires hints { IsTrue (have_no_hint_zero found.now.asked) }
    ensures { IfOk result
        (λ text. text.items ≡ certificate_text_of found.now.verdict found.now.asked) }
{
    let asked = found.asked.as_slice();
    match &found.verdict {
        Verdict::Safe { k } => safe_text(alloc, *k, asked),
        Verdict::Spent => spent_text(alloc, asked),
        _ => Ok(Vec::new(alloc)),
    }
}

/// Returns the text of the certificate of `verdict`, made from the logs of `asked` only as it is
/// taken, in pieces. Fails only if memory runs out.
pub fn lazy_certificate_text(
    alloc: Global,
    verdict: &Verdict,
    asked: Row<Asked>,
) -> Result<CertificateText, AllocError>
    ensures { IfOk result (λ text. text ≡ certificate_text_of verdict.now asked) }
{
    match verdict {
        Verdict::Safe { k } => CertificateText::safe(alloc, *k, asked),
        Verdict::Spent => CertificateText::spent(alloc, asked),
        _ => Ok(CertificateText::empty(alloc)),
    }
}
