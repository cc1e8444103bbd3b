ghost use Rattle.std.specs.Prelude.{◌≡◌, ◌≤◌, ◌<◌, ◌^◌};
ghost use Rattle.ilk_cnf.specs.Literal.{negative_lit, negated_lit, same_lit};

use std::marker::Model;

/// A literal: a variable, from 1, with a sign. A positive one is true if the variable is, a
/// negative one if it isn't.
#[derive(Clone, Copy)]
pub struct Lit {
    // Twice the variable, plus one if the literal is positive. A formula has millions of literals,
    // so each takes only one word.
    code: u64,
}

impl Model for Lit {
    ghost use Rattle.std.specs.Prelude.{◌≤◌, ◌<◌, ◌+◌, ◌^◌};
    ghost use Rattle.ilk_cnf.specs.Literal.{Literal};
    ghost use Rattle.ilk_cnf.specs.Code.{literal_of, code_of, code_of-literal_of};

    ghost Value = { Literal };

    ghost view = { λ l. literal_of l.code };

    ghost invariant = { λ l. (2 ≤ l.code) × (l.code < 2 ^ 63 + 2) };

    ghost inverse = { λ l. record { code = code_of l } };

    ghost inverse_ok = { λ l h i. record { code = code_of-literal_of l.code i } };
}

/// The negative literal of variable 1. It fills the unused slots of a list with inline storage.
impl Default for Lit {
    ghost is_default = { λ l. l ≡ negative_lit 1 };

    fn default() -> Lit {
        Lit::new(1, false)
    }
}

impl Lit {
    /// Creates the literal of variable `var`, positive or negative.
    pub fn new(var: u64, positive: bool) -> Lit
        requires from_1 { 0 < var }
        requires numbered { var ≤ 2 ^ 62 }
        ensures { result ≡ record { var = var; positive = positive } }
    {
        Lit {
            code: 2 * var + positive as u64,
        }
    }

    /// Returns the literal's variable.
    pub fn var(self) -> u64
        ensures { result ≡ self.var }
    {
        self.code / 2
    }

    /// The variable of every literal is from 1 to 2^62. Proof only; no run-time effect.
    pub fn var_is_always_in_range(self)
        ensures from_1 { 0 < self.var }
        ensures numbered { self.var ≤ 2 ^ 62 }
    {
        let _ = &self.code;
    }

    /// Returns whether the literal is positive.
    pub fn positive(self) -> bool
        ensures { result ≡ self.positive }
    {
        self.code % 2 == 1
    }

    /// Returns the opposite literal of the same variable.
    pub fn negated(self) -> Lit
        ensures { result ≡ negated_lit self }
    {
        Lit {
            code: self.code ^ 1,
        }
    }

    /// Returns whether the literal equals `other`.
    pub fn is_same(self, other: Lit) -> bool
        ensures { result ≡ same_lit self other }
    {
        self.code == other.code
    }
}
