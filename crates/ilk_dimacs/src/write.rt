ghost use Rattle.std.specs.Prelude.{◌≡◌, ◌++◌, ◌∷◌, [], IfOk, OnOk, string_bytes};
ghost use Rattle.ilk_lines.specs.Written.{join_words_with_spaces};
ghost use Rattle.ilk_dimacs.specs.DimacsText.{dimacs_text, header_words};
ghost use Rattle.ilk_dimacs.specs.Left.{clauses_text_from_position};

use crate::clauses_text::Position;
use ilk_cnf::Cnf;
use std::alloc::{AllocError, Global};

const PIECE: usize = 64;

/// Appends the first line of a formula's text.
pub(crate) fn push_header(text: &mut String, cnf: &Cnf) -> Result<(), AllocError>
    ensures { OnOk result
        (string_bytes text.new
        ≡ string_bytes text.old ++ (join_words_with_spaces (header_words cnf.now) ++ 10 ∷ [])) }
{
    write!(text, "p cnf {} {}\n", cnf.vars(), cnf.clauses())
}

fn push_rest(text: &mut Vec<u8>, cnf: &Cnf, at: &mut Position) -> Result<(), AllocError>
    ensures { OnOk result (text.new.items ≡ text.old.items ++
        clauses_text_from_position cnf.now at.old) }
{
    let mut piece = [0; PIECE];
    'pieces: loop {
        let count = at.take(cnf, &mut piece);
        if count == 0 {
            return Ok(());
        }
        text.extend_from_slice(&piece[..count])?;
    }
}

#[tactic(auto, using(crate::proofs::Left::text_is))]
/// Returns the text of a formula in the DIMACS CNF format. The line `p cnf V C` has the numbers of
/// variables and clauses. A line for each clause follows, with its literals and `0`. Fails only if
/// memory runs out.
pub fn write_dimacs(alloc: Global, cnf: &Cnf) -> Result<Vec<u8>, AllocError>
    ensures { IfOk result (λ text. text.items ≡ dimacs_text cnf.now) }
{
    let mut header = String::new(alloc);
    push_header(&mut header, cnf)?;
    let mut text = header.into_bytes();
    push_rest(&mut text, cnf, &mut Position::start())?;
    Ok(text)
}
