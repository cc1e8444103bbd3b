//! The lines of a log, made token by token without memory: the word `step`, each literal and hint
//! with a space before it, and 0 after the last of each.

ghost use Rattle.std.specs.Prelude.{◌≡◌, ◌<◌, ◌∷◌, ◌++◌, [], length, map};
ghost use Rattle.ilk_lines.specs.Written.{text_of};
ghost use Rattle.ilk_log.specs.StepText.{lit_word, step_text};
ghost use Rattle.ilk_log.specs.TextLeft.{RemainingStepFitsPlace, hints_and_line_end, remaining_line_text, lits_hints_and_line_end};

use crate::packed::PackedStep;
use crate::reader::StepReader;
use crate::steps::Log;
use ilk_base::Row;
use ilk_cnf::Lit;
use ilk_lines::ShortByteStack;
use std::alloc::Global;
use std::marker::Model;

/// The position in the line being made: none begun, at its literals, or at its hints.
#[derive(Clone, Copy)]
pub(crate) enum Place {
    Between,
    Literals,
    Hints,
}

/// The rest of a log's lines; contracts see its bytes.
#[derive(Drop)]
pub(crate) struct StepsLeft {
    steps: Row<PackedStep>,
    // The number of the next step, from 0.
    next: u64,
    // The rest of the step before it.
    step: StepReader,
    place: Place,
}

impl Model for StepsLeft {
    ghost use Rattle.std.specs.Prelude.{ℕ, ◌++◌, List, drop, map};
    ghost use Rattle.ilk_lines.specs.Written.{text_of};
    ghost use Rattle.ilk_log.specs.StepText.{step_text};
    ghost use Rattle.ilk_log.specs.TextLeft.{RemainingStepFitsPlace, remaining_line_text};

    ghost Value = { List ℕ };

    ghost view = { λ left. remaining_line_text left.place left.step
        ++ text_of (map step_text (drop left.next left.steps)) };

    ghost invariant = { λ left. RemainingStepFitsPlace left.place left.step };
}

#[inline]
fn lead_literal(token: &mut ShortByteStack, l: Lit)
    requires { token.old ≡ [] }
    ensures { token.new ≡ 32 ∷ lit_word l }
{
    token.prepend_decimal(l.var());
    if l.positive() {
        token.prepend(b" ");
    } else {
        token.prepend(b" -");
    }
}

#[inline]
fn make_literal(step: &mut StepReader, token: &mut ShortByteStack) -> Place
    requires { token.old ≡ [] }
    ensures bytes { lits_hints_and_line_end step.old ≡ token.new
        ++ remaining_line_text result step.new }
    ensures some { 0 < length token.new }
    ensures fits { RemainingStepFitsPlace result step.new }
{
    match step.next_literal() {
        Some(l) => {
            lead_literal(token, l);
            Place::Literals
        }
        None => {
            token.prepend(b" 0");
            Place::Hints
        }
    }
}

#[inline]
fn make_hint(step: &mut StepReader, token: &mut ShortByteStack) -> Place
    requires empty { token.old ≡ [] }
    requires alone { step.old.clause ≡ [] }
    ensures bytes { hints_and_line_end step.old.hints
        ≡ token.new ++ remaining_line_text result step.new }
    ensures some { 0 < length token.new }
    ensures fits { RemainingStepFitsPlace result step.new }
{
    match step.next_hint() {
        Some(n) => {
            token.prepend_decimal(n);
            token.prepend(b" ");
            Place::Hints
        }
        None => {
            token.prepend(b" 0\n");
            Place::Between
        }
    }
}

impl StepsLeft {
    /// Starts the lines of all steps, each with its line feed.
    pub(crate) fn from_log(alloc: Global, log: Log) -> StepsLeft
        ensures { result ≡ text_of (map step_text log) }
    {
        StepsLeft {
            steps: log.into_packed(),
            next: 0,
            step: StepReader::new(alloc),
            place: Place::Between,
        }
    }

    /// Makes the next token. It is empty only if nothing is left.
    #[inline]
    pub(crate) fn next_piece(&mut self, token: &mut ShortByteStack)
        requires { token.old ≡ [] }
        ensures bytes { self.old ≡ token.new ++ self.new }
        ensures some { token.new ≡ [] → self.old ≡ [] }
    {
        match self.place {
            Place::Literals => {
                self.place = make_literal(&mut self.step, token);
            }
            Place::Hints => {
                self.place = make_hint(&mut self.step, token);
            }
            Place::Between => {
                if self.next < self.steps.len() {
                    self.step.begin_step(self.steps.at_mut(self.next));
                    self.next += 1;
                    self.place = Place::Literals;
                    token.prepend(b"step");
                }
            }
        }
    }
}
