ghost use Rattle.std.specs.Prelude.{◌≡◌, ◌^◌, ◌++◌, [], ℕ, List, map, not, IfOk, IsTrue, OnOk};
ghost use Rattle.ilk_cnf.specs.Formula.{is_clause_over, is_lit_over};
ghost use Rattle.ilk_log.specs.Derived.{is_empty_clause};
ghost use Rattle.ilk_log.specs.Packed.{code_from_lit, decoded_numbers, step_from_numbers, DecodesToNumbersAndState};

use crate::hints::Hints;
use crate::numbers::decode_number_from_delta;
use crate::numbers_written::push_packed_delta;
use crate::step::Step;
use crate::unpack::{unpack_hints, unpack_literals};
use ilk_cnf::Lit;
use std::alloc::{AllocError, Global};
use std::marker::Model;
use std::mem::swap;

/// A step in little more than a byte for each literal and hint.
#[derive(Drop)]
pub(crate) struct PackedStep {
    // The number of literals among the numbers.
    literals: u64,
    bytes: Vec<u8>,
}

impl Model for PackedStep {
    ghost use Rattle.ilk_log.specs.declared.step.Step.{Step};
    ghost use Rattle.ilk_log.specs.Packed.{step_from_numbers, decoded_numbers};

    ghost Value = { Step };

    ghost view = { λ s. step_from_numbers s.literals (decoded_numbers 0 0 s.bytes.items) };
}

impl PackedStep {
    /// Creates the packed form of `step`.
    pub(crate) fn pack(alloc: Global, step: &Step) -> Result<PackedStep, AllocError>
        ensures { IfOk result (λ packed. packed ≡ step.now) }
    {
        let mut bytes = Vec::new(alloc);
        let last = push_literals(&mut bytes, step.clause.as_slice())?;
        push_hints(&mut bytes, last, &step.hints)?;
        Ok(PackedStep {
            literals: step.clause.len(),
            bytes: Vec::from_slice(alloc, bytes.as_slice())?,
        })
    }

    /// Returns the unpacked step.
    pub(crate) fn unpack_step(&self, alloc: Global) -> Result<Step, AllocError>
        ensures { IfOk result (λ step. step ≡ self.now) }
    {
        let bytes = self.bytes.as_slice();
        let (clause, at, last) = unpack_literals(alloc, bytes, self.literals)?;
        let hints = unpack_hints(alloc, bytes, at, last)?;
        Ok(Step { clause, hints })
    }

    /// Returns whether the step's clause has a literal.
    pub(crate) fn has_literal(&self) -> bool
        ensures { result ≡ not (is_empty_clause self.now.clause) }
    {
        self.literals > 0 && decode_number_from_delta(self.bytes.as_slice(), 0, 0).is_some()
    }

    // Swaps its bytes with `bytes` and returns the number of its literals. The contract leaves open
    // which step it then is.
    pub(crate) fn exchange_bytes(&mut self, bytes: &mut Vec<u8>) -> u64
        ensures { self.old ≡ step_from_numbers result (decoded_numbers 0 0 bytes.new.items) }
    {
        swap(&mut self.bytes, bytes);
        self.literals
    }
}

fn code_from_lit(l: Lit) -> u64
    requires { IsTrue (is_lit_over (2 ^ 62) l) }
    ensures { result ≡ code_from_lit l }
{
    2 * (l.var() - 1) + l.positive() as u64
}

// Appends the numbers of literals and returns the last. Their variables are from 1 to 2^62.
fn push_literals(bytes: &mut Vec<u8>, lits: &[Lit]) -> Result<u64, AllocError>
    requires { DecodesToNumbersAndState bytes.old.items [] 0 0 }
    ensures numbers { IfOk result
        (λ last. DecodesToNumbersAndState bytes.new.items (map code_from_lit lits.now) last 0) }
    ensures numbered { OnOk result (IsTrue (is_clause_over (2 ^ 62) lits.now)) }
{
    let mut last = 0;
    for lit in lits {
        lit.var_is_always_in_range();
        let number = code_from_lit(*lit);
        push_packed_delta(bytes, last, number)?;
        last = number;
    }
    Ok(last)
}

fn push_hints(bytes: &mut Vec<u8>, last: u64, hints: &Hints) -> Result<(), AllocError>
    ensures { OnOk result
        ((numbers : List ℕ) → DecodesToNumbersAndState bytes.old.items numbers last 0 →
        decoded_numbers 0 0 bytes.new.items ≡ numbers ++ hints.now) }
{
    let mut last = last;
    for i in 0..hints.len() {
        let number = *hints.at(i);
        push_packed_delta(bytes, last, number)?;
        last = number;
    }
    Ok(())
}
