ghost use Rattle.std.specs.Prelude.{◌≡◌, IfOk, IsTrue};
ghost use Rattle.ilk_unroll.specs.Goal.{step_count_is_allowed};
ghost use Rattle.ilk_answers.specs.Verdicts.{ReplyHasQueryFormulaText, query_from_kind_and_length};

use crate::{PendingOutput, Reply, Status};
use ilk_dimacs::FormulaText;
use ilk_plant::Plant;
use ilk_queries::formula;
use ilk_unroll::Wanted;
use ilk_words::QueryKind;
use std::alloc::{AllocError, Global};

/// Returns the query of kind `kind` for runs of `number` events.
pub(crate) fn query_from_kind_and_length(kind: QueryKind, number: u32) -> Wanted
    ensures { result ≡ query_from_kind_and_length kind number }
{
    match kind {
        QueryKind::Hazard => Wanted::Hazard(number),
        QueryKind::Breach => Wanted::Breach(number),
        QueryKind::Step => Wanted::Step(number),
    }
}

/// Returns the reply of `export`: the formula of a query on `plant` in the DIMACS CNF format. The
/// query asks for a run of `number` events: at most 16, and at least 1 for a step query.
pub(crate) fn export_reply(
    alloc: Global,
    plant: &Plant,
    kind: QueryKind,
    number: u32,
) -> Result<Reply, AllocError>
    requires { IsTrue (step_count_is_allowed (query_from_kind_and_length kind number)) }
    ensures { IfOk result (ReplyHasQueryFormulaText plant.now (query_from_kind_and_length kind
        number)) }
{
    let cnf = formula(alloc, plant, query_from_kind_and_length(kind, number))?;
    Ok(Reply {
        status: Status::Good,
        report: PendingOutput::from_formula(FormulaText::from_cnf(alloc, cnf)?),
        certificate: PendingOutput::empty(alloc),
    })
}
