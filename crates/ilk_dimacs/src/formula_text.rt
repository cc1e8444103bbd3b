ghost use Rattle.std.specs.Prelude.{◌≡◌, drop, length, min, take, IfOk};
ghost use Rattle.ilk_dimacs.specs.DimacsText.{dimacs_text};

use crate::clauses_text::Position;
use crate::write::push_header;
use ilk_cnf::Cnf;
use ilk_lines::RemainingBytes;
use std::alloc::{AllocError, Global};
use std::marker::Model;

/// The DIMACS text of a formula, produced in pieces. It owns the formula, and taking needs no
/// memory. Contracts see the bytes that are still to be taken.
#[derive(Drop)]
pub struct FormulaText {
    header: RemainingBytes,
    cnf: Cnf,
    at: Position,
}

impl Model for FormulaText {
    ghost use Rattle.std.specs.Prelude.{ℕ, ◌++◌, List};
    ghost use Rattle.ilk_dimacs.specs.Left.{clauses_text_from_position};

    ghost Value = { List ℕ };

    ghost view = { λ text. text.header ++ clauses_text_from_position text.cnf text.at };
}

impl FormulaText {
    #[tactic(auto, using(crate::proofs::Left::text_is))]
    /// Creates the text of `cnf`, with nothing taken. Fails if there is no memory for its first
    /// line.
    pub fn from_cnf(alloc: Global, cnf: Cnf) -> Result<FormulaText, AllocError>
        ensures { IfOk result (λ text. text ≡ dimacs_text cnf) }
    {
        let mut header = String::new(alloc);
        push_header(&mut header, &cnf)?;
        Ok(FormulaText {
            header: RemainingBytes::from_bytes(header.into_bytes()),
            cnf,
            at: Position::start(),
        })
    }

    /// Copies the next bytes to the front of `into`, as many as fit, and returns their number.
    pub fn take(&mut self, into: &mut [u8]) -> usize
        ensures count { result ≡ min (length into.old) (length self.old) }
        ensures bytes { take result into.new ≡ take result self.old }
        ensures rest { self.new ≡ drop result self.old }
    {
        let count = self.header.take(into);
        if count == into.len() {
            return count;
        }
        count + self.at.take(&self.cnf, &mut into[count..])
    }
}
