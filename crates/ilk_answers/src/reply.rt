ghost use Rattle.std.specs.Prelude.{◌≡◌, IfOk, string_bytes};
ghost use Rattle.ilk_answers.specs.Answer.{refused};
ghost use Rattle.ilk_answers.specs.Report.{reply};
ghost use Rattle.ilk_answers.specs.declared.refusals.Refusal.TheVariants as refusal;
ghost use Rattle.ilk_net_read.specs.Fault.{rule_fault_at_place};

use crate::refusal_text::refusal_line;
use crate::{PendingOutput, Refusal, Status};
use ilk_net_read::{Form, FormFault, Place};
use std::alloc::{AllocError, Global};

/// The reply of a command: its status, the report to print, and the certificate to write.
#[derive(Drop)]
pub struct Reply {
    pub status: Status,
    pub report: PendingOutput,
    /// Empty if there is no certificate.
    pub certificate: PendingOutput,
}

impl Reply {
    /// Creates a reply with a report and no certificate.
    pub fn with_report(alloc: Global, status: Status, report: String) -> Reply
        ensures { result ≡ reply status (string_bytes report) }
    {
        Reply::from_status_and_report_bytes(alloc, status, report.into_bytes())
    }

    /// Creates a reply with a report, given as bytes, and no certificate.
    pub fn from_status_and_report_bytes(alloc: Global, status: Status, report: Vec<u8>) -> Reply
        ensures { result ≡ reply status report.items }
    {
        Reply {
            status,
            report: PendingOutput::from_bytes(report),
            certificate: PendingOutput::empty(alloc),
        }
    }

    /// Creates the reply that refuses a configuration for one reason.
    pub fn refused(alloc: Global, refusal: Refusal) -> Result<Reply, AllocError>
        ensures { IfOk result (λ made. made ≡ refused refusal) }
    {
        let line = refusal_line(alloc, refusal)?;
        Ok(Reply::with_report(alloc, Status::Refused, line))
    }

    /// Creates the reply that refuses an extra input for its length.
    pub fn too_long(alloc: Global) -> Result<Reply, AllocError>
        ensures { IfOk result (λ made. made
            ≡ refused (refusal.Form (rule_fault_at_place Form.F1 Place.Extra))) }
    {
        Reply::refused(
            alloc,
            Refusal::Form(FormFault {
                rule: Form::F1,
                place: Place::Extra,
            }),
        )
    }
}
