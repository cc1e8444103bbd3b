ghost use Rattle.std.specs.Prelude.{◌≡◌, ◌<◌, ◌≤◌, ◌^◌, ◌∷◌, [], false, length, true, IfOk, IsTrue, OnOk, OnErr};
ghost use Rattle.ilk_cnf.specs.Formula.{is_lit_over};
ghost use Rattle.ilk_cnf.specs.Literal.{has_var};
ghost use Rattle.ilk_log.specs.Propagation.{is_false};
ghost use Rattle.ilk_audit.specs.Stored.{AssignsVarsAtMostOnce};

use crate::codes::code_of;
use ilk_cnf::Lit;
use std::alloc::{AllocError, Global};
use std::marker::Model;

/// A partial assignment: literals that are set, over different variables. A table says for each
/// literal whether it is false, so that each look-up is one read.
#[derive(Drop)]
pub(crate) struct PartialAssignment {
    vars: u64,
    // By the number of a literal: whether it is false.
    falses: Vec<bool>,
    trail: Vec<Lit>,
}

impl Model for PartialAssignment {
    ghost use Rattle.std.specs.Prelude.{reverse};
    ghost use Rattle.ilk_audit.specs.Stored.{VarCountAndTrueLits, IsFalseLitTable};

    ghost Value = { VarCountAndTrueLits };

    ghost view = { λ p. record { vars = p.vars; set = reverse p.trail.items } };

    ghost invariant = { λ p. IsFalseLitTable p.falses.items
        (record { vars = p.vars; set = reverse p.trail.items }) };
}

impl PartialAssignment {
    /// Creates an assignment over the variables 1 to `vars` that sets none.
    pub fn new(alloc: Global, vars: u64) -> Result<PartialAssignment, AllocError>
        requires { vars ≤ 2 ^ 62 }
        ensures { IfOk result (λ p. p ≡ record { vars = vars; set = [] }) }
    {
        Ok(PartialAssignment {
            vars,
            falses: vec![in alloc; false; 2 * vars as usize + 2]?,
            trail: Vec::new(alloc),
        })
    }

    /// Returns the number of variables.
    pub fn vars(&self) -> u64
        ensures count { result ≡ self.now.vars }
        ensures set { AssignsVarsAtMostOnce self.now }
    {
        self.vars
    }

    /// Returns whether literal `l` is set to false.
    #[inline]
    pub fn is_false(&self, l: Lit) -> bool
        requires { IsTrue (is_lit_over self.now.vars l) }
        ensures { result ≡ is_false self.now.set l }
    {
        self.falses[code_of(l) as usize]
    }

    /// Sets literal `l` to true. Its variable has to be unset.
    pub fn set(&mut self, l: Lit) -> Result<(), AllocError>
        requires within { IsTrue (is_lit_over self.old.vars l) }
        requires unset { has_var l.var self.old.set ≡ false }
        ensures ok { OnOk result (self.new ≡ record self.old { set = l ∷ self.old.set }) }
        ensures err { OnErr result (self.new ≡ self.old) }
    {
        self.trail.push(l)?;
        self.falses[code_of(l.negated()) as usize] = true;
        Ok(())
    }

    fn take_last(&mut self) -> bool
        ensures vars { self.new.vars ≡ self.old.vars }
        ensures some { result ≡ true → length self.new.set < length self.old.set }
        ensures none { result ≡ false → self.new.set ≡ [] }
    {
        let Some(l) = self.trail.pop() else {
            return false;
        };
        self.falses[code_of(l.negated()) as usize] = false;
        true
    }

    /// Unsets all variables.
    pub fn clear(&mut self)
        ensures { self.new ≡ record self.old { set = [] } }
    {
        'literals: while self.take_last() {}
    }
}
