ghost use Rattle.std.specs.Prelude.{◌≡◌, ◌↔◌, IfOk, Some, [], option_map, IsTrue};
ghost use Rattle.std.specs.Option.{option_map_or};
ghost use Rattle.ilk_base.specs.Option.{then_some};
ghost use Rattle.ilk_lines.specs.Words.{words_of};
ghost use Rattle.ilk_log.specs.StepReading.{hints_from_words, lits_from_words, step_from_words};
ghost use Rattle.ilk_log.specs.StepText.{has_writable_numbers, step_text};
ghost use Rattle.ilk_log.specs.declared.step.Step.{Step as StepValue};
ghost use Rattle.ilk_log.specs.StepWords.{positive_decimal_up_to, lit_from_word};

use crate::step::Step;
use crate::step_line::StepBuffer;
use ilk_cnf::Lit;
use ilk_lines::{decimal_up_to, split_off_first_word};
use std::alloc::{AllocError, Global};

fn positive_decimal_up_to(word: &[u8], limit: u64) -> Option<u64>
    ensures { result ≡ positive_decimal_up_to limit word.now }
{
    let n = decimal_up_to(word, limit)?;
    if n > 0 { Some(n) } else { None }
}

const MAX_VAR: u64 = 1 << 62;

fn lit_from_word(word: &[u8]) -> Option<Lit>
    ensures { result ≡ lit_from_word word.now }
{
    match word {
        [b'-', var @ ..] => Some(Lit::new(positive_decimal_up_to(var, MAX_VAR)?, false)),
        _ => Some(Lit::new(positive_decimal_up_to(word, MAX_VAR)?, true)),
    }
}

fn read_lits<'a>(
    lits: &mut Vec<Lit>,
    line: &'a [u8],
) -> Result<Option<Option<&'a [u8]>>, AllocError>
    ensures { IfOk result
        (λ told.
        option_map
        (λ after. (lits.new.items, option_map_or (λ rest. words_of rest.now) after []))
        told
        ≡ lits_from_words (words_of line.now)) }
{
    lits.clear();
    let mut left = line;
    'words: loop {
        let (word, rest) = split_off_first_word(left);
        if word == b"0".as_slice() {
            return Ok(Some(rest));
        }
        let Some(l) = lit_from_word(word) else {
            return Ok(None);
        };
        let Some(rest) = rest else {
            return Ok(None);
        };
        lits.push(l)?;
        left = rest;
    }
}

#[tactic(auto, using(crate::proofs::Words::hints_more))]
fn unpack_hints(hints: &mut Vec<u64>, line: &[u8]) -> Result<bool, AllocError>
    ensures { IfOk result (λ told. then_some told hints.new.items
        ≡ hints_from_words (words_of line.now)) }
{
    hints.clear();
    let mut left = line;
    'words: loop {
        let (word, rest) = split_off_first_word(left);
        if word == b"0".as_slice() {
            return match rest {
                Some(_) => Ok(false),
                None => Ok(true),
            };
        }
        let Some(h) = positive_decimal_up_to(word, u64::MAX) else {
            return Ok(false);
        };
        let Some(rest) = rest else {
            return Ok(false);
        };
        hints.push(h)?;
        left = rest;
    }
}

fn read_words(step: &mut StepBuffer, line: &[u8]) -> Result<bool, AllocError>
    ensures { IfOk result
        (λ told.
        then_some told
        (record { clause = step.new.clause.items; hints = step.new.hints.items })
        ≡ step_from_words (words_of line.now)) }
{
    let (word, rest) = split_off_first_word(line);
    if word != b"step".as_slice() {
        return Ok(false);
    }
    let Some(rest) = rest else {
        return Ok(false);
    };
    let Some(rest) = read_lits(&mut step.clause, rest)? else {
        return Ok(false);
    };
    let Some(rest) = rest else {
        return Ok(false);
    };
    unpack_hints(&mut step.hints, rest)
}

/// Reads `line` into `step`. Returns `false` if it isn't the line of a step with variables from 1
/// to 2^62 and hints from 1 to 2^64 - 1.
pub fn read_step_into(step: &mut StepBuffer, line: &[u8]) -> Result<bool, AllocError>
    ensures { IfOk result
        (λ told. (s : StepValue) →
        (then_some told
        (record { clause = step.new.clause.items; hints = step.new.hints.items })
        ≡ Some s) ↔
        ((line.now ≡ step_text s) × IsTrue (has_writable_numbers s))) }
{
    read_words(step, line)
}

/// Returns the step that `line` states. Returns `None` if it isn't the line of a step with
/// variables from 1 to 2^62 and hints from 1 to 2^64 - 1.
pub fn read_step(alloc: Global, line: &[u8]) -> Result<Option<Step>, AllocError>
    ensures { IfOk result
        (λ told. (s : StepValue) →
        (told ≡ Some s) ↔ ((line.now ≡ step_text s) × IsTrue (has_writable_numbers s))) }
{
    let mut step = StepBuffer::empty(alloc);
    let told = read_step_into(&mut step, line)?;
    step.copy_if(alloc, told)
}
