ghost use Rattle.std.specs.Prelude.{◌≡◌, ◌++◌, ◌∷◌, [], map, OnOk, IsTrue, string_bytes};
ghost use Rattle.std.specs.Fmt.{decimal};
ghost use Rattle.std.specs.List.{list_all};
ghost use Rattle.ilk_lines.specs.Written.{join_word_and_rest, text_of};
ghost use Rattle.ilk_log.specs.StepText.{step_text};
ghost use Rattle.ilk_certificate.specs.CertificateText.{has_no_hint_zero, query_header_line};
ghost use Rattle.ilk_certificate.specs.Kept.{is_step_query};
ghost use Rattle.ilk_certificate.specs.Writing.{query_and_log_text, text_unless_step_query, step_line_with_feed};

use crate::asked::Asked;
use ilk_log::{Log, Step, push_step_text};
use ilk_unroll::Wanted;
use std::alloc::AllocError;

pub(crate) fn push_numbered(text: &mut String, word: &str, number: u128) -> Result<(), AllocError>
    ensures { OnOk result
        (string_bytes text.new
        ≡ string_bytes text.old ++ (join_word_and_rest word.now (decimal number) ++ 10 ∷ [])) }
{
    write!(text, "{word} {number}\n")
}

pub(crate) fn push_query(text: &mut String, query: Wanted) -> Result<(), AllocError>
    ensures { OnOk result
        (string_bytes text.new ≡ string_bytes text.old ++ (query_header_line query ++ 10 ∷ [])) }
{
    match query {
        Wanted::Hazard(n) => push_numbered(text, "query hazard", n as u128),
        Wanted::Breach(n) => push_numbered(text, "query breach", n as u128),
        Wanted::Step(n) => push_numbered(text, "query step", n as u128),
    }
}

fn push_step_line(text: &mut String, step: &Step) -> Result<(), AllocError>
    requires { IsTrue (has_no_hint_zero step.now) }
    ensures { OnOk result (string_bytes text.new
        ≡ string_bytes text.old ++ step_line_with_feed step.now) }
{
    push_step_text(text, step)?;
    text.push_str("\n")
}

fn push_steps(text: &mut String, log: &Log) -> Result<(), AllocError>
    requires { IsTrue (list_all has_no_hint_zero log.now) }
    ensures { OnOk result
        (string_bytes text.new ≡ string_bytes text.old ++ text_of (map step_text log.now)) }
{
    for i in 0..log.len() {
        let step = log.at(i)?;
        push_step_line(text, &step)?;
    }
    Ok(())
}

/// Appends the lines of a query and of its log.
pub(crate) fn push_asked(text: &mut String, asked: &Asked) -> Result<(), AllocError>
    requires { IsTrue (list_all has_no_hint_zero asked.now.log) }
    ensures { OnOk result
        (string_bytes text.new ≡ string_bytes text.old ++ query_and_log_text asked.now) }
{
    push_query(text, asked.query)?;
    push_steps(text, &asked.log)
}

pub(crate) fn is_step(query: Wanted) -> bool
    ensures { result ≡ is_step_query query }
{
    matches!(query, Wanted::Step(_))
}

/// Appends the lines of a query and of its log, unless it is a step query.
pub(crate) fn push_unless_step(text: &mut String, asked: &Asked) -> Result<(), AllocError>
    requires { IsTrue (list_all has_no_hint_zero asked.now.log) }
    ensures { OnOk result (string_bytes text.new
        ≡ string_bytes text.old ++ text_unless_step_query asked.now) }
{
    match asked.query {
        Wanted::Step(_) => Ok(()),
        _ => push_asked(text, asked),
    }
}
