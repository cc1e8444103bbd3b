ghost use Rattle.std.specs.Prelude.{◌≡◌, IsTrue, ◌||◌};
ghost use Rattle.ilk_ir.specs.System.{plain_system, system_valid};
ghost use Rattle.ilk_unroll.specs.Goal.{plain_goal, goal_valid};
ghost use Rattle.ilk_cert_audit.specs.Stages.{begins_no_step, is_refused, is_valid_stage};

use crate::answers::{Ended, Fed};
use crate::next::next_stage;
use crate::stage::{MAX_NON_STEP_LINE, Stage};
use ilk_ir::System;
use ilk_log::StepBuffer;
use ilk_unroll::Goal;
use std::alloc::{AllocError, Global};
use std::mem;

fn begins_no_step(begun: &[u8]) -> bool
    ensures { result ≡ begins_no_step begun.now }
{
    if begun.len() < 5 {
        return false;
    }
    &begun[..5] != b"step ".as_slice()
}

/// A check whether lines, taken one by one, are those of a certificate.
#[derive(Drop)]
pub(crate) struct LineAudit {
    system: System,
    goal: Goal,
    stage: Stage,
    line: u64,
    step: StepBuffer,
    ghost system_valid: { IsTrue (system_valid (plain_system system)) },
    ghost goal_valid: { IsTrue (goal_valid system.ranges (plain_goal goal)) },
    ghost staged: { IsTrue (is_refused stage || is_valid_stage stage) },
}

impl LineAudit {
    ghost use Rattle.std.specs.Prelude.{ℕ, List, ◌↔◌, ◌++◌, ◌∷◌, [], true, false, None, OnOk};
    ghost use Rattle.ilk_ir.specs.System.{PlainSystem};
    ghost use Rattle.ilk_lines.specs.Lines.{Bytes, unterminated_tail, lines_of};
    ghost use Rattle.ilk_unroll.specs.Goal.{PlainGoalForms};
    ghost use Rattle.ilk_cert_audit.specs.Answers.{IsFinalAnswer, ReportsFirstBad};
    ghost use Rattle.ilk_cert_audit.specs.Fed.{AuditHasTakenLines};
    ghost use Rattle.ilk_cert_audit.specs.Stages.{IsNextStage, begins_bad_line};

    /// Creates a check that has taken no line. The system has to be valid, and the goal's forms
    /// valid over its ranges.
    pub fn new(alloc: Global, system: System, goal: Goal) -> LineAudit
        requires system { IsTrue (system_valid (plain_system system)) }
        requires goal { IsTrue (goal_valid system.ranges (plain_goal goal)) }
        ensures { AuditHasTakenLines (plain_system system) (plain_goal goal) result [] }
    {
        LineAudit {
            system,
            goal,
            stage: Stage::Head,
            line: 1,
            step: StepBuffer::empty(alloc),
        }
    }

    /// Returns whether one of the lines taken was bad.
    pub fn is_refused(&self) -> bool
        ensures { result ≡ is_refused self.now.stage }
    {
        matches!(self.stage, Stage::Refused { .. })
    }

    /// Returns whether the bytes `begun` already show that the next line, which starts with them,
    /// is bad.
    pub fn begins_bad_line(&self, begun: &[u8]) -> bool
        ensures { result ≡ begins_bad_line self.now.stage begun.now }
    {
        match self.stage {
            Stage::Within { .. } => begins_no_step(begun),
            _ => begun.len() > MAX_NON_STEP_LINE,
        }
    }

    /// Takes the next line, known to be bad, without its bytes.
    pub fn refuse(&mut self)
        ensures bad { (s : PlainSystem) (g : PlainGoalForms) (lines : List Bytes) (line : Bytes)
            → AuditHasTakenLines s g self.old lines → is_refused self.old.stage ≡ false
            → IsNextStage s g self.old.stage line None
            → AuditHasTakenLines s g self.new (lines ++ line ∷ []) }
        ensures refused { is_refused self.new.stage ≡ true }
    {
        let line = self.line;
        self.stage = Stage::Refused { line };
    }

    /// Takes the next line. After a bad one, nothing changes. After an error, the check is
    /// unusable.
    pub fn take(&mut self, line: &[u8]) -> Result<(), AllocError>
        ensures { OnOk result
            ((s : PlainSystem) (g : PlainGoalForms) (lines : List Bytes) →
            AuditHasTakenLines s g self.old lines
            →
            AuditHasTakenLines s g self.new (lines ++ line.now ∷ [])) }
    {
        if let Stage::Refused { .. } = self.stage {
            return Ok(());
        }
        let alloc = *self.step.clause.allocator();
        let stage = mem::replace(&mut self.stage, Stage::Refused { line: self.line });
        let next = next_stage(alloc, &self.system, &self.goal, &mut self.step, stage, line)?;
        if let Some(next) = next {
            self.stage = next;
            self.line = self.line.saturating_add(1);
        }
        Ok(())
    }

    /// Returns the number of the first bad line among those taken, or `More` if none was bad.
    pub fn first_bad_line_so_far(&self) -> Fed
        ensures { (s : PlainSystem) (g : PlainGoalForms) (lines : List Bytes) →
            AuditHasTakenLines s g self.now lines → ReportsFirstBad s g lines result }
    {
        match self.stage {
            Stage::Refused { line } => Fed::Bad { line },
            _ => Fed::More,
        }
    }

    /// Returns the answer at the end of the text. `is_whole`: nothing follows the last line feed;
    /// otherwise the text is not a certificate.
    pub fn end(&self, is_whole: bool) -> Ended
        ensures { (s : PlainSystem) (g : PlainGoalForms) (bytes : List ℕ) →
            AuditHasTakenLines s g self.now (lines_of bytes) →
            (is_refused self.now.stage ≡ false →
            (is_whole ≡ true) ↔ (unterminated_tail bytes ≡ [])) →
            IsFinalAnswer s g bytes result }
    {
        match self.stage {
            Stage::Refused { line } => Ended::Rejected { line },
            Stage::Ended { k } if is_whole => Ended::Accepted { k },
            _ => Ended::Rejected { line: self.line },
        }
    }
}
