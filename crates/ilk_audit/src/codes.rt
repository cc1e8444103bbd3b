ghost use Rattle.std.specs.Prelude.{ℕ, ◌≡◌, ◌≤◌, ◌<◌, ◌+◌, ◌*◌, ◌/◌, ◌^◌, ◌++◌, [], map, length, vec_len, vec_capacity, OnOk, IsTrue};
ghost use Rattle.ilk_cnf.specs.Code.{code_of, literal_of};
ghost use Rattle.ilk_cnf.specs.Formula.{is_clause_over};
ghost use Rattle.ilk_audit.specs.Codes.{codes_in, lit_codes_fit_width, HasCapacityForMore};

use ilk_cnf::Lit;
use std::alloc::{AllocError, Global};

/// A list of literals, encoded as numbers of 32 or 64 bits.
#[derive(Drop)]
pub(crate) enum LitCodes {
    /// Numbers below 2^32.
    Narrow(Vec<u32>),
    Wide(Vec<u64>),
}

/// Returns the number that encodes a literal: twice its variable, plus one if it is positive.
#[inline]
pub(crate) fn code_of(l: Lit) -> u64
    requires { l.var ≤ 2 ^ 62 }
    ensures { result ≡ code_of l }
{
    2 * l.var() + l.positive() as u64
}

/// Returns the literal that a number encodes.
#[inline]
pub(crate) fn literal_of(code: u64) -> Lit
    requires from_1 { 1 < code }
    requires numbered { code / 2 ≤ 2 ^ 62 }
    ensures { result ≡ literal_of code }
{
    Lit::new(code / 2, code % 2 == 1)
}

fn append_narrow(codes: &mut Vec<u32>, vars: u64, clause: &[Lit])
    requires fit { 2 * vars + 1 < 2 ^ 32 }
    requires within { IsTrue (is_clause_over vars clause.now) }
    requires room { vec_len codes.old + length clause.now ≤ vec_capacity codes.old }
    ensures { codes.new.items ≡ codes.old.items ++ map code_of clause.now }
{
    for l in clause {
        codes.push(code_of(*l) as u32).unwrap();
    }
}

fn append_wide(codes: &mut Vec<u64>, vars: u64, clause: &[Lit])
    requires fit { vars ≤ 2 ^ 62 }
    requires within { IsTrue (is_clause_over vars clause.now) }
    requires room { vec_len codes.old + length clause.now ≤ vec_capacity codes.old }
    ensures { codes.new.items ≡ codes.old.items ++ map code_of clause.now }
{
    for l in clause {
        codes.push(code_of(*l)).unwrap();
    }
}

impl LitCodes {
    /// Creates an empty list. Each literal takes 32 bits if `vars` variables fit, otherwise 64.
    pub fn new(alloc: Global, vars: u64) -> LitCodes
        ensures empty { codes_in result ≡ [] }
        ensures fit { IsTrue (lit_codes_fit_width vars result) }
    {
        if vars < 1 << 31 {
            LitCodes::Narrow(Vec::new(alloc))
        } else {
            LitCodes::Wide(Vec::new(alloc))
        }
    }

    /// Returns the number of literals.
    pub fn len(&self) -> usize
        ensures { result ≡ length (codes_in self.now) }
    {
        match self {
            LitCodes::Narrow(codes) => codes.len(),
            LitCodes::Wide(codes) => codes.len(),
        }
    }

    /// Reserves memory for `count` more literals.
    pub fn reserve(&mut self, count: usize) -> Result<(), AllocError>
        ensures same { codes_in self.new ≡ codes_in self.old }
        ensures fit { (n : ℕ) → lit_codes_fit_width n self.new ≡ lit_codes_fit_width n self.old }
        ensures room { OnOk result (HasCapacityForMore count self.new) }
    {
        match self {
            LitCodes::Narrow(codes) => codes.reserve(count),
            LitCodes::Wide(codes) => codes.reserve(count),
        }
    }

    /// Appends the literals of `clause`, which are over the variables 1 to `vars`. Memory for them
    /// has to be reserved.
    pub fn append_lits_assume_capacity(&mut self, vars: u64, clause: &[Lit])
        requires numbered { vars ≤ 2 ^ 62 }
        requires fit { IsTrue (lit_codes_fit_width vars self.old) }
        requires within { IsTrue (is_clause_over vars clause.now) }
        requires room { HasCapacityForMore (length clause.now) self.old }
        ensures codes { codes_in self.new ≡ codes_in self.old ++ map code_of clause.now }
        ensures fit { IsTrue (lit_codes_fit_width vars self.new) }
    {
        match self {
            LitCodes::Narrow(codes) => append_narrow(codes, vars, clause),
            LitCodes::Wide(codes) => append_wide(codes, vars, clause),
        }
    }
}
