ghost use Rattle.std.specs.Prelude.{◌≡◌, IfOk, string_bytes};
ghost use Rattle.ilk_answers.specs.Drives.{drive_end_and_length_line, drive_end_text};
ghost use Rattle.ilk_answers.specs.Report.{certificate_accepted_line, hazard_line, hazard_text, first_non_run_event_message, query_has_no_run_line};
ghost use Rattle.ilk_answers.specs.Report.{first_bad_item_message, first_bad_line_message, section_name, unsafe_line};
ghost use Rattle.ilk_answers.specs.Verdicts.{verdict_line};

use ilk_drive::Rest;
use ilk_engine::Verdict;
use ilk_model::HazardAt;
use ilk_plant::{HasWord, Plant};
use ilk_words::QueryKind;
use std::alloc::{AllocError, Global};

fn section_name(plant: &Plant, x: u32) -> &str
    ensures { result.now ≡ section_name plant.now x }
{
    plant.prove_is_plant();
    if x < plant.sections() {
        plant.section_name(x)
    } else {
        ""
    }
}

fn hazard_text(alloc: Global, plant: &Plant, hazard: HazardAt) -> Result<String, AllocError>
    ensures { IfOk result (λ text. string_bytes text ≡ hazard_text plant.now hazard) }
{
    match hazard {
        HazardAt::Two(x) => {
            let name = section_name(plant, x);
            format!(in alloc; "two {name}")
        }
        HazardAt::Wrong(x) => {
            let name = section_name(plant, x);
            format!(in alloc; "wrong {name}")
        }
    }
}

/// Returns the report line that names `hazard` and its section.
pub(crate) fn hazard_line(
    alloc: Global,
    plant: &Plant,
    hazard: HazardAt,
) -> Result<String, AllocError>
    ensures { IfOk result (λ line. string_bytes line ≡ hazard_line plant.now hazard) }
{
    let text = hazard_text(alloc, plant, hazard)?;
    format!(in alloc; "hazard {text}\n")
}

fn unsafe_line(
    alloc: Global,
    plant: &Plant,
    steps: u64,
    hazard: HazardAt,
) -> Result<String, AllocError>
    ensures { IfOk result (λ line. string_bytes line ≡ unsafe_line plant.now steps hazard) }
{
    let text = hazard_text(alloc, plant, hazard)?;
    format!(in alloc; "unsafe steps={steps} hazard={text}\n")
}

/// Returns the report line of `verdict`. `conflicts` is the budget of the searches, printed if it
/// is spent.
pub(crate) fn verdict_line(
    alloc: Global,
    plant: &Plant,
    conflicts: u64,
    verdict: &Verdict,
) -> Result<String, AllocError>
    ensures { IfOk result
        (λ line. string_bytes line ≡ verdict_line plant.now conflicts verdict.now) }
{
    match verdict {
        Verdict::Safe { k } => format!(in alloc; "safe k={k}\n"),
        Verdict::Unsafe { events, hazard } => unsafe_line(alloc, plant, events.len(), *hazard),
        Verdict::Breach { events, family } => {
            let steps = events.len();
            format!(in alloc; "breach steps={steps} family=V{family}\n")
        }
        Verdict::NotInductive { events, .. } => {
            let steps = events.len();
            format!(in alloc; "not inductive steps={steps}\n")
        }
        Verdict::Spent => format!(in alloc; "spent conflicts={conflicts}\n"),
    }
}

/// Returns the report line `rejected line N` of an input whose first bad line is `line`, from 1.
pub(crate) fn first_bad_line_message(alloc: Global, line: u64) -> Result<String, AllocError>
    ensures { IfOk result (λ text. string_bytes text ≡ first_bad_line_message line) }
{
    format!(in alloc; "rejected line {line}\n")
}

/// Returns the report line `not a run at N` of a run text. Event `at`, from 1, is the first that
/// isn't enabled or follows a hazard.
pub(crate) fn first_non_run_event_message(alloc: Global, at: u64) -> Result<String, AllocError>
    ensures { IfOk result (λ text. string_bytes text ≡ first_non_run_event_message at) }
{
    format!(in alloc; "not a run at {at}\n")
}

/// Returns the report line `accepted k=K` of a certificate that was accepted for `k`.
pub(crate) fn certificate_accepted_line(alloc: Global, k: u32) -> Result<String, AllocError>
    ensures { IfOk result (λ text. string_bytes text ≡ certificate_accepted_line k) }
{
    format!(in alloc; "accepted k={k}\n")
}

/// Returns the report line of an accepted refutation: the query of this kind and number has no run.
pub(crate) fn query_has_no_run_line(
    alloc: Global,
    kind: QueryKind,
    number: u32,
) -> Result<String, AllocError>
    ensures { IfOk result (λ text. string_bytes text ≡ query_has_no_run_line kind number) }
{
    let query = kind.word();
    format!(in alloc; "refuted {query} {number}\n")
}

/// Returns the report line `rejected item N` of a refutation whose first bad item is `item`, from
/// 1.
pub(crate) fn first_bad_item_message(alloc: Global, item: u64) -> Result<String, AllocError>
    ensures { IfOk result (λ text. string_bytes text ≡ first_bad_item_message item) }
{
    format!(in alloc; "rejected item {item}\n")
}

fn drive_end_text(alloc: Global, plant: &Plant, rest: Rest) -> Result<String, AllocError>
    ensures { IfOk result (λ text. string_bytes text ≡ drive_end_text plant.now rest) }
{
    match rest {
        Rest::Driven => String::from_str(alloc, "driven"),
        Rest::Stuck { at } => format!(in alloc; "stuck at {at}"),
        Rest::Hazard(at) => {
            let text = hazard_text(alloc, plant, at)?;
            format!(in alloc; "hazard {text}")
        }
    }
}

/// Returns the report line of a simulation: how it ended, and its number of events.
pub(crate) fn drive_end_and_length_line(
    alloc: Global,
    plant: &Plant,
    rest: Rest,
    steps: u64,
) -> Result<String, AllocError>
    ensures { IfOk result (λ line. string_bytes line ≡
        drive_end_and_length_line plant.now rest steps) }
{
    let text = drive_end_text(alloc, plant, rest)?;
    format!(in alloc; "{text} steps={steps}\n")
}
