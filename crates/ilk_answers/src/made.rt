ghost use Rattle.std.specs.Prelude.{◌≡◌, ◌<◌, ◌≤◌, [], IfOk, IsTrue, string_bytes};
ghost use Rattle.ilk_gen.specs.declared.making.TheConstants.{MAX_STATIONS};
ghost use Rattle.ilk_answers.specs.Made.{AnswersDemoWithRightVerdict, demo_verdict_line, stations_conf_reply, stations_plant};
ghost use Rattle.ilk_answers.specs.Status.{is_fault_free_command_status};

use crate::report::verdict_line;
use crate::verify::verdict_status;
use crate::{PendingOutput, Reply, Status};
use ilk_engine::{Found, Verdict, decide, lazy_certificate_text};
use ilk_gen::{stations, stations_break_no_rule, stations_plant};
use ilk_plant::Plant;
use std::alloc::{AllocError, Global};

/// Returns the reply of `make`: the configuration of `n` generated stations, `n` from 1 to 16.
pub(crate) fn stations_conf_reply(alloc: Global, n: u32) -> Result<Reply, AllocError>
    requires some { 1 ≤ n }
    requires few { n ≤ MAX_STATIONS }
    ensures reply { IfOk result (λ made. made ≡ stations_conf_reply n) }
    ensures planned { IfOk result
        (λ made. IsTrue (is_fault_free_command_status made.status) × (made.certificate ≡ [])) }
{
    let mut text = stations(alloc, n)?;
    text.push(b'\n')?;
    Ok(Reply::from_status_and_report_bytes(alloc, Status::Good, text))
}

fn demo_verdict_line(
    alloc: Global,
    plant: &Plant,
    n: u32,
    conflicts: u64,
    verdict: &Verdict,
) -> Result<String, AllocError>
    requires { plant.now ≡ stations_plant n }
    ensures { IfOk result (λ line. string_bytes line ≡ demo_verdict_line n conflicts verdict.now) }
{
    let sections = plant.sections();
    let routes = plant.routes();
    let line = verdict_line(alloc, plant, conflicts, verdict)?;
    let line = line.as_str();
    format!(in alloc; "stations={n} sections={sections} routes={routes} {line}")
}

fn verdict_reply(
    alloc: Global,
    plant: &Plant,
    n: u32,
    depth: u32,
    conflicts: u64,
) -> Result<Reply, AllocError>
    requires some { 1 ≤ n }
    requires few { n ≤ MAX_STATIONS }
    requires some_depth { 0 < depth }
    requires depth { depth ≤ 16 }
    requires plant { plant.now ≡ stations_plant n }
    ensures { IfOk result (AnswersDemoWithRightVerdict n depth conflicts) }
{
    plant.prove_is_plant();
    stations_break_no_rule(n);
    let found = decide(alloc, plant, depth, conflicts)?;
    let Found { verdict, asked } = found;
    let text = lazy_certificate_text(alloc, &verdict, asked)?;
    let line = demo_verdict_line(alloc, plant, n, conflicts, &verdict)?;
    Ok(Reply {
        status: verdict_status(&verdict),
        report: PendingOutput::from_bytes(line.into_bytes()),
        certificate: PendingOutput::from_certificate(text),
    })
}

/// Returns the reply of `demo`: the verdict on the plant of `n` generated stations, `n` from 1 to
/// 16. It examines runs of at most `depth` events, from 1 to 16; its searches learn at most
/// `conflicts` clauses in total.
pub(crate) fn demo_verdict_reply(
    alloc: Global,
    n: u32,
    depth: u32,
    conflicts: u64,
) -> Result<Reply, AllocError>
    requires some { 1 ≤ n }
    requires few { n ≤ MAX_STATIONS }
    requires some_depth { 0 < depth }
    requires depth { depth ≤ 16 }
    ensures { IfOk result (AnswersDemoWithRightVerdict n depth conflicts) }
{
    let plant = stations_plant(alloc, n)?;
    verdict_reply(alloc, &plant, n, depth, conflicts)
}
