ghost use Rattle.std.specs.Prelude.{◌≡◌, ◌<◌, ◌++◌, ◌∷◌, [], true, false, drop, length, min, take};
ghost use Rattle.ilk_log.specs.StepText.{lit_word};
ghost use Rattle.ilk_dimacs.specs.Left.{clauses_text_from_position, clause_lines_text};

use ilk_cnf::{Cnf, Lit};
use ilk_lines::ShortByteStack;

fn lead_lit(token: &mut ShortByteStack, l: Lit)
    requires { token.old ≡ [] }
    ensures { token.new ≡ lit_word l ++ 32 ∷ [] }
{
    token.prepend(b" ");
    token.prepend_decimal(l.var());
    if !l.positive() {
        token.prepend(b"-");
    }
}

/// A position in the lines of a formula's clauses, which are made word by word.
#[derive(Drop)]
pub(crate) struct Position {
    // The rest of the last word that was made.
    token: ShortByteStack,
    // The number of clauses made, and of literals of the next.
    made: u64,
    literals: u64,
}

impl Position {
    ghost use Rattle.ilk_cnf.specs.Formula.{Formula};

    #[tactic(auto, using(crate::proofs::Left::left_whole))]
    /// Creates the position before the first clause.
    pub(crate) fn start() -> Position
        ensures { (f : Formula) → clauses_text_from_position f result ≡
            clause_lines_text f.clauses }
    {
        Position {
            token: ShortByteStack::empty(),
            made: 0,
            literals: 0,
        }
    }

    // Makes the next word, with the space or line feed after it. Returns `false` if there is none.
    fn make_word(&mut self, cnf: &Cnf) -> bool
        requires { self.old.token ≡ [] }
        ensures left { clauses_text_from_position cnf.now self.new ≡
            clauses_text_from_position cnf.now self.old }
        ensures some { result ≡ true → 0 < length self.new.token }
        ensures none { result ≡ false → clauses_text_from_position cnf.now self.old ≡ [] }
    {
        if self.made >= cnf.clauses() {
            return false;
        }
        let clause = cnf.clause(self.made + 1);
        if self.literals < clause.len() as u64 {
            lead_lit(&mut self.token, clause[self.literals as usize]);
            self.literals += 1;
        } else {
            self.token.prepend(b"0\n");
            self.made += 1;
            self.literals = 0;
        }
        true
    }

    /// Copies the next bytes to the front of `into`, as many as fit, and returns their number.
    pub(crate) fn take(&mut self, cnf: &Cnf, into: &mut [u8]) -> usize
        ensures count { result ≡ min (length into.old) (length (clauses_text_from_position cnf.now
            self.old)) }
        ensures bytes { take result into.new ≡
            take result (clauses_text_from_position cnf.now self.old) }
        ensures rest { clauses_text_from_position cnf.now self.new ≡
            drop result (clauses_text_from_position cnf.now self.old) }
    {
        let mut count = self.token.take(into);
        'tokens: while count < into.len() {
            if !self.make_word(cnf) {
                return count;
            }
            count += self.token.take(&mut into[count..]);
        }
        count
    }
}
