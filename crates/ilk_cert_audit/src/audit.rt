ghost use Rattle.std.specs.Prelude.{◌≡◌, ◌==◌, ◌<◌, ◌++◌, ◌∷◌, [], IfNone, IfSome, length, position};
ghost use Rattle.ilk_lines.specs.Written.{LacksByte};

use crate::answers::{Ended, Fed};
use crate::lines::LineAudit;
use ilk_ir::System;
use ilk_unroll::Goal;
use std::alloc::{AllocError, Global};

/// A check whether bytes are a certificate of a system and a goal; the bytes come in pieces.
#[derive(Drop)]
pub struct SystemCertAudit {
    lines: LineAudit,
    // The bytes after the last line feed; only the first ones if the line is bad whatever follows.
    unfinished: Vec<u8>,
}

fn line_feed(text: &[u8]) -> Option<usize>
    ensures { result ≡ position (λ b. b == 10) text.now }
{
    text.iter().position(|b| *b == b'\n')
}

fn cut_line(text: &[u8]) -> Option<(&[u8], &[u8])>
    ensures cut { IfSome result (λ cut. text.now ≡ (cut.0.now ++ 10 ∷ []) ++ cut.1.now) }
    ensures lacks { IfSome result (λ cut. LacksByte 10 cut.0.now) }
    ensures shorter { IfSome result (λ cut. length cut.1.now < length text.now) }
    ensures none { IfNone result (LacksByte 10 text.now) }
{
    match line_feed(text) {
        Some(end) => Some((&text[..end], &text[end + 1..])),
        None => None,
    }
}

impl SystemCertAudit {
    ghost use Rattle.std.specs.Prelude.{ℕ, List, ◌++◌, ◌∷◌, [], IfOk, OnOk, IsTrue};
    ghost use Rattle.ilk_ir.specs.System.{PlainSystem, plain_system, system_valid};
    ghost use Rattle.ilk_lines.specs.Written.{LacksByte};
    ghost use Rattle.ilk_unroll.specs.Goal.{PlainGoalForms, plain_goal, goal_valid};
    ghost use Rattle.ilk_cert_audit.specs.Answers.{IsFinalAnswer, IsAnswerAfterBytes};
    ghost use Rattle.ilk_cert_audit.specs.Fed.{AuditHasTakenBytes};

    /// Creates a check that has taken no byte. The system has to be valid, and the goal's forms
    /// valid over its ranges.
    pub fn new(alloc: Global, system: System, goal: Goal) -> SystemCertAudit
        requires system { IsTrue (system_valid (plain_system system)) }
        requires goal { IsTrue (goal_valid system.ranges (plain_goal goal)) }
        ensures { AuditHasTakenBytes (plain_system system) (plain_goal goal) result [] }
    {
        SystemCertAudit {
            lines: LineAudit::new(alloc, system, goal),
            unfinished: Vec::new(alloc),
        }
    }

    fn end_line(&mut self, rest: &[u8]) -> Result<(), AllocError>
        requires { LacksByte 10 rest.now }
        ensures { OnOk result
            ((s : PlainSystem) (g : PlainGoalForms) (bytes : List ℕ) →
            AuditHasTakenBytes s g self.old bytes →
            AuditHasTakenBytes s g self.new (bytes ++ (rest.now ++ 10 ∷ []))) }
    {
        if self.lines.is_refused() {
            return Ok(());
        }
        if self.lines.begins_bad_line(self.unfinished.as_slice()) {
            self.lines.refuse();
            return Ok(());
        }
        if self.unfinished.is_empty() {
            self.lines.take(rest)?;
            return Ok(());
        }
        self.unfinished.extend_from_slice(rest)?;
        self.lines.take(self.unfinished.as_slice())?;
        self.unfinished.clear();
        Ok(())
    }

    fn keep(&mut self, rest: &[u8]) -> Result<(), AllocError>
        requires { LacksByte 10 rest.now }
        ensures { OnOk result
            ((s : PlainSystem) (g : PlainGoalForms) (bytes : List ℕ) →
            AuditHasTakenBytes s g self.old bytes →
            AuditHasTakenBytes s g self.new (bytes ++ rest.now)) }
    {
        if self.lines.is_refused() {
            return Ok(());
        }
        if self.lines.begins_bad_line(self.unfinished.as_slice()) {
            return Ok(());
        }
        self.unfinished.extend_from_slice(rest)?;
        Ok(())
    }

    fn split(&mut self, piece: &[u8]) -> Result<(), AllocError>
        ensures { OnOk result
            ((s : PlainSystem) (g : PlainGoalForms) (bytes : List ℕ) →
            AuditHasTakenBytes s g self.old bytes →
            AuditHasTakenBytes s g self.new (bytes ++ piece.now)) }
    {
        let mut left = piece;
        while let Some((line, rest)) = cut_line(left) {
            self.end_line(line)?;
            left = rest;
        }
        self.keep(left)
    }

    /// Takes the next bytes, of any length, and returns the first bad line so far, if any. The
    /// answer doesn't depend on how the bytes are divided. After an error, the check is unusable.
    pub fn feed(&mut self, piece: &[u8]) -> Result<Fed, AllocError>
        ensures fed { OnOk result
            ((s : PlainSystem) (g : PlainGoalForms) (bytes : List ℕ) →
            AuditHasTakenBytes s g self.old bytes →
            AuditHasTakenBytes s g self.new (bytes ++ piece.now)) }
        ensures answer { IfOk result
            (λ fed. (s : PlainSystem) (g : PlainGoalForms) (bytes : List ℕ) →
            AuditHasTakenBytes s g self.old bytes →
            IsAnswerAfterBytes s g (bytes ++ piece.now) fed) }
    {
        self.split(piece)?;
        Ok(self.lines.first_bad_line_so_far())
    }

    /// Returns the `k` of the certificate that all bytes taken form, or the first bad line.
    pub fn end(self) -> Ended
        ensures { (s : PlainSystem) (g : PlainGoalForms) (bytes : List ℕ) →
            AuditHasTakenBytes s g self bytes →
            IsFinalAnswer s g bytes result }
    {
        self.lines.end(self.unfinished.is_empty())
    }
}
