ghost use Rattle.std.specs.Prelude.{◌≡◌, [], Option, Some, None, IfOk, IsTrue};
ghost use Rattle.ilk_unroll.specs.Goal.{step_count_is_allowed};
ghost use Rattle.ilk_answers.specs.Judged.{FirstBadItemOrRefutes};
ghost use Rattle.ilk_answers.specs.Refutations.{AnswersRefutationText};
ghost use Rattle.ilk_answers.specs.Status.{is_fault_free_command_status};
ghost use Rattle.ilk_answers.specs.Verdicts.{query_from_kind_and_length};

use crate::export::query_from_kind_and_length;
use crate::report::{first_bad_item_message, query_has_no_run_line};
use crate::{Reply, Status};
use ilk_log::refutations_refute;
use ilk_plant::Plant;
use ilk_queries::formula;
use ilk_rup::{Rup, check_rup};
use ilk_words::QueryKind;
use std::alloc::{AllocError, Global};

fn first_bad_item(
    alloc: Global,
    plant: &Plant,
    kind: QueryKind,
    number: u32,
    text: &[u8],
) -> Result<Option<u64>, AllocError>
    requires { IsTrue (step_count_is_allowed (query_from_kind_and_length kind number)) }
    ensures { IfOk result (FirstBadItemOrRefutes plant.now kind number text.now) }
{
    refutations_refute();
    let cnf = formula(alloc, plant, query_from_kind_and_length(kind, number))?;
    match check_rup(alloc, &cnf, text)? {
        Rup::Refuted(_) => Ok(None),
        Rup::Bad { item } => Ok(Some(item)),
    }
}

/// Returns the reply of `rup` to `text`, another solver's refutation of a query's formula: refuted,
/// or the first bad item. The query asks for a run of `number` events: at most 16, and at least 1
/// for a step query.
pub(crate) fn query_rup_reply(
    alloc: Global,
    plant: &Plant,
    kind: QueryKind,
    number: u32,
    text: &[u8],
) -> Result<Reply, AllocError>
    requires { IsTrue (step_count_is_allowed (query_from_kind_and_length kind number)) }
    ensures reply { IfOk result (AnswersRefutationText plant.now kind number text.now) }
    ensures planned { IfOk result
        (λ made. IsTrue (is_fault_free_command_status made.status) × (made.certificate ≡ [])) }
{
    match first_bad_item(alloc, plant, kind, number, text)? {
        None => {
            let line = query_has_no_run_line(alloc, kind, number)?;
            Ok(Reply::with_report(alloc, Status::Good, line))
        }
        Some(item) => {
            let line = first_bad_item_message(alloc, item)?;
            Ok(Reply::with_report(alloc, Status::Rejected, line))
        }
    }
}
