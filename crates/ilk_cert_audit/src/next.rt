ghost use Rattle.std.specs.Prelude.{◌≡◌, false, Some, IfOk, IfSome, IsTrue};
ghost use Rattle.ilk_certificate.specs.CertificateText.{query_header_line};
ghost use Rattle.ilk_ir.specs.System.{PlainSystem, plain_system, system_valid};
ghost use Rattle.ilk_unroll.specs.Goal.{PlainGoalForms, plain_goal, goal_valid};
ghost use Rattle.ilk_cert_audit.specs.Stages.{IsOutcomeOfStepLine, IsNextStage, is_valid_k, is_valid_stage, is_valid_query_within_k};
ghost use Rattle.ilk_cert_audit.specs.declared.stage.Stage.TheVariants.{Between, Told, Within};

use crate::queries::{is_query_line, query_after, read_safe_line};
use crate::stage::Stage;
use ilk_audit::{Auditor, Taken};
use ilk_ir::System;
use ilk_log::{StepBuffer, read_step_into};
use ilk_unroll::{Goal, Wanted, query};
use std::alloc::{AllocError, Global};

fn after_query(
    alloc: Global,
    system: &System,
    goal: &Goal,
    k: u32,
    wanted: Wanted,
) -> Result<Stage, AllocError>
    requires system { IsTrue (system_valid (plain_system system.now)) }
    requires goal { IsTrue (goal_valid system.now.ranges (plain_goal goal.now)) }
    requires number { IsTrue (is_valid_k k) }
    requires asked { IsTrue (is_valid_query_within_k k wanted) }
    ensures stage { IfOk result (λ stage. IsTrue (is_valid_stage stage)) }
    ensures next { IfOk result
        (λ stage. IsNextStage (plain_system system.now) (plain_goal goal.now)
        (Between k (Some wanted))
        (query_header_line wanted) (Some stage)) }
{
    let cnf = query(alloc, system, goal, wanted)?;
    Ok(Stage::Within {
        k,
        query: wanted,
        auditor: Auditor::new(alloc, &cnf)?,
    })
}

// The kinds of line among the steps of a query.
#[derive(Clone, Copy)]
enum Line {
    // A step with a literal, which follows.
    Follows,
    // The empty step, which follows.
    Closes,
    Bad,
}

fn take_step(step: &mut StepBuffer, auditor: &mut Auditor, line: &[u8]) -> Result<Line, AllocError>
    requires unfinished { auditor.old.closed ≡ false }
    ensures { IfOk result (IsOutcomeOfStepLine line.now auditor.old auditor.new) }
{
    let _ = auditor.closed();
    if !read_step_into(step, line)? {
        return Ok(Line::Bad);
    }
    match auditor.add_step_if_derived(step.clause.as_slice(), step.hints.as_slice())? {
        Taken::Good => Ok(Line::Follows),
        Taken::Closed => Ok(Line::Closes),
        Taken::Bad(_) => Ok(Line::Bad),
    }
}

fn after_step(
    step: &mut StepBuffer,
    k: u32,
    query: Wanted,
    mut auditor: Auditor,
    line: &[u8],
) -> Result<Option<Stage>, AllocError>
    requires number { IsTrue (is_valid_k k) }
    requires asked { IsTrue (is_valid_query_within_k k query) }
    requires unfinished { auditor.closed ≡ false }
    ensures stage { IfOk result (λ next. IfSome next (λ stage. IsTrue (is_valid_stage stage))) }
    ensures next { IfOk result
        (λ next. (s : PlainSystem) (g : PlainGoalForms) →
        IsNextStage s g (Within k query auditor) line.now next) }
{
    match take_step(step, &mut auditor, line)? {
        Line::Follows => Ok(Some(Stage::Within { k, query, auditor })),
        Line::Closes => Ok(Some(Stage::Between {
            k,
            next: query_after(k, query),
        })),
        Line::Bad => Ok(None),
    }
}

fn after_told(line: &[u8]) -> Option<Stage>
    ensures stage { IfSome result (λ stage. IsTrue (is_valid_stage stage)) }
    ensures next { (s : PlainSystem) (g : PlainGoalForms) → IsNextStage s g Told line.now result }
{
    let k = read_safe_line(line)?;
    Some(Stage::Between {
        k,
        next: Some(Wanted::Hazard(0)),
    })
}

/// Returns the stage of the check after `line`, or `None` if that line is bad at `stage`. `step` is
/// used as memory for reading.
pub(crate) fn next_stage(
    alloc: Global,
    system: &System,
    goal: &Goal,
    step: &mut StepBuffer,
    stage: Stage,
    line: &[u8],
) -> Result<Option<Stage>, AllocError>
    requires system { IsTrue (system_valid (plain_system system.now)) }
    requires goal { IsTrue (goal_valid system.now.ranges (plain_goal goal.now)) }
    requires stage { IsTrue (is_valid_stage stage) }
    ensures stage { IfOk result (λ next. IfSome next (λ stage. IsTrue (is_valid_stage stage))) }
    ensures next { IfOk result
        (IsNextStage (plain_system system.now) (plain_goal goal.now) stage line.now) }
{
    match stage {
        Stage::Head if line == b"irv certificate 3".as_slice() => Ok(Some(Stage::Told)),
        Stage::Told => Ok(after_told(line)),
        Stage::Between {
            k,
            next: Some(query),
        } if is_query_line(line, query) => { Ok(Some(after_query(alloc, system, goal, k, query)?)) }
        Stage::Between { k, next: None } if line == b"end".as_slice() => {
            Ok(Some(Stage::Ended { k }))
        }
        Stage::Within { k, query, auditor } => after_step(step, k, query, auditor, line),
        _ => Ok(None),
    }
}
