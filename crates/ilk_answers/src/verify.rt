ghost use Rattle.std.specs.Prelude.{◌≡◌, ◌<◌, ◌≤◌, ◌++◌, IfOk};
ghost use Rattle.ilk_answers.specs.Verdicts.{AnswersWithRightVerdict, verdict_line, verdict_run_text, verdict_status};
ghost use Rattle.ilk_answers.specs.Writable.{VerdictRunFitsPlant};

use crate::report::verdict_line;
use crate::run_text::run_text_from_start;
use crate::{PendingOutput, Reply, Status};
use ilk_engine::{CertificateText, Found, Verdict, decide, lazy_certificate_text};
use ilk_plant::Plant;
use ilk_replay::{Told, write_run};
use std::alloc::{AllocError, Global};

fn verdict_run_text(alloc: Global, plant: &Plant, verdict: Verdict) -> Result<Vec<u8>, AllocError>
    requires { VerdictRunFitsPlant plant.now verdict }
    ensures { IfOk result (λ text. text.items ≡ verdict_run_text plant.now verdict) }
{
    match verdict {
        Verdict::Unsafe { events, .. } => run_text_from_start(alloc, plant, events),
        Verdict::Breach { events, .. } => run_text_from_start(alloc, plant, events),
        Verdict::NotInductive { first, events } => {
            let told = Told {
                first,
                from_start: false,
                events,
            };
            write_run(alloc, plant, &told)
        }
        Verdict::Safe { .. } | Verdict::Spent => Ok(Vec::new(alloc)),
    }
}

/// Returns the status that reports `verdict`.
pub(crate) fn verdict_status(verdict: &Verdict) -> Status
    ensures { result ≡ verdict_status verdict.now }
{
    match verdict {
        Verdict::Safe { .. } => Status::Good,
        Verdict::Unsafe { .. } => Status::Unsafe,
        Verdict::Breach { .. } => Status::Breach,
        Verdict::NotInductive { .. } => Status::NotInductive,
        Verdict::Spent => Status::Spent,
    }
}

fn verdict_reply(
    alloc: Global,
    plant: &Plant,
    conflicts: u64,
    verdict: Verdict,
    certificate: CertificateText,
) -> Result<Reply, AllocError>
    requires { VerdictRunFitsPlant plant.now verdict }
    ensures status { IfOk result (λ made. made.status ≡ verdict_status verdict) }
    ensures report { IfOk result
        (λ made. made.report
        ≡ verdict_line plant.now conflicts verdict ++ verdict_run_text plant.now verdict) }
    ensures certificate { IfOk result (λ made. made.certificate ≡ certificate) }
{
    let status = verdict_status(&verdict);
    let mut report = verdict_line(alloc, plant, conflicts, &verdict)?.into_bytes();
    let run = verdict_run_text(alloc, plant, verdict)?;
    report.extend_from_slice(run.as_slice())?;
    Ok(Reply {
        status,
        report: PendingOutput::from_bytes(report),
        certificate: PendingOutput::from_certificate(certificate),
    })
}

/// Returns the reply of `verify`: the verdict on `plant` with its run and certificate. It examines
/// runs of at most `depth` events, from 1 to 16; its searches learn at most `conflicts` clauses in
/// total.
pub(crate) fn verify_reply(
    alloc: Global,
    plant: &Plant,
    depth: u32,
    conflicts: u64,
) -> Result<Reply, AllocError>
    requires some_depth { 0 < depth }
    requires depth { depth ≤ 16 }
    ensures { IfOk result (AnswersWithRightVerdict plant.now depth conflicts) }
{
    let found = decide(alloc, plant, depth, conflicts)?;
    let Found { verdict, asked } = found;
    let text = lazy_certificate_text(alloc, &verdict, asked)?;
    verdict_reply(alloc, plant, conflicts, verdict, text)
}
