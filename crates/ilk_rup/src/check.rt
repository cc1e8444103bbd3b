ghost use Rattle.std.specs.Prelude.{IfOk};
ghost use Rattle.ilk_rup.specs.Accepted.{IsRupVerdictFor};

use crate::checker::Checker;
use crate::next::Next;
use crate::rup::Rup;
use crate::words::Words;
use ilk_cnf::Cnf;
use std::alloc::{AllocError, Global};

/// Checks whether `text`, written by another solver, refutes `cnf`. Returns `Refuted` with a log if
/// the text is accepted, otherwise `Bad` with the first bad item. Fails only if memory runs out.
pub fn check_rup(alloc: Global, cnf: &Cnf, text: &[u8]) -> Result<Rup, AllocError>
    ensures { IfOk result (λ rup. IsRupVerdictFor cnf.now text.now rup) }
{
    let mut checker = Checker::new(alloc, cnf)?;
    let mut words = Words::from_text(text);
    let mut item = 1;
    'items: loop {
        match checker.step(alloc, &mut words)? {
            Next::Refuted(log) => return Ok(Rup::Refuted(log)),
            Next::Bad => return Ok(Rup::Bad { item }),
            Next::Right(taken) => checker = taken,
        }
        item += 1;
    }
}
