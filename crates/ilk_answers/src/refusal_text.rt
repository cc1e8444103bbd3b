//! The line that a refusal prints, and its parts.

ghost use Rattle.std.specs.Prelude.{◌≡◌, ◌++◌, IfOk, codes, string_bytes};
ghost use Rattle.ilk_answers.specs.Refusal.{form_rule_name, place_text, broken_place_or_pair_text, indexed_entry_text, refusal_line, refusal_line_for_rule};

use crate::Refusal;
use ilk_net_read::{Form, Place};
use ilk_plant::{Broken, HasWord};
use std::alloc::{AllocError, Global};

fn form_rule_name(form: Form) -> &'static str
    ensures { result.now ≡ form_rule_name form }
{
    match form {
        Form::F1 => "F1",
        Form::F2 => "F2",
        Form::F3 => "F3",
        Form::F4 => "F4",
        Form::F5 => "F5",
        Form::F6 => "F6",
    }
}

fn place_text(alloc: Global, place: Place) -> Result<String, AllocError>
    ensures { IfOk result (λ text. string_bytes text ≡ place_text place) }
{
    match place {
        Place::Document => String::from_str(alloc, "document"),
        Place::Extra => String::from_str(alloc, "extra"),
        Place::Section(i) => indexed_entry_text(alloc, "sections", i),
        Place::Route(i) => indexed_entry_text(alloc, "routes", i),
    }
}

/// Returns the text of entry `i` of the list `places`, such as `routes[3]`.
pub(crate) fn indexed_entry_text(alloc: Global, places: &str, i: u32) -> Result<String, AllocError>
    ensures { IfOk result (λ text. string_bytes text ≡ indexed_entry_text places.now i) }
{
    format!(in alloc; "{places}[{i}]")
}

fn broken_text(alloc: Global, broken: Broken) -> Result<String, AllocError>
    ensures { IfOk result (λ text. string_bytes text ≡ broken_place_or_pair_text broken) }
{
    let places = broken.rule.places().word();
    let first = indexed_entry_text(alloc, places, broken.first)?;
    match broken.second {
        None => Ok(first),
        Some(second) => {
            let second = indexed_entry_text(alloc, places, second)?;
            joined(alloc, first.as_str(), second.as_str())
        }
    }
}

fn joined(alloc: Global, first: &str, second: &str) -> Result<String, AllocError>
    ensures { IfOk result (λ text. string_bytes text ≡ first.now ++ (codes " " ++ second.now)) }
{
    format!(in alloc; "{first} {second}")
}

/// Returns the report line of a configuration refused by `rule` at `place`: `refused RULE PLACE`.
pub(crate) fn refusal_line_for_rule(
    alloc: Global,
    rule: &str,
    place: &str,
) -> Result<String, AllocError>
    ensures { IfOk result (λ line. string_bytes line ≡ refusal_line_for_rule rule.now place.now) }
{
    format!(in alloc; "refused {rule} {place}\n")
}

/// Returns the report line of `refusal`, with its rule and place.
pub(crate) fn refusal_line(alloc: Global, refusal: Refusal) -> Result<String, AllocError>
    ensures { IfOk result (λ line. string_bytes line ≡ refusal_line refusal) }
{
    let (rule, place) = match refusal {
        Refusal::Form(fault) => (form_rule_name(fault.rule), place_text(alloc, fault.place)?),
        Refusal::Rule(broken) => (broken.rule.word(), broken_text(alloc, broken)?),
    };
    refusal_line_for_rule(alloc, rule, place.as_str())
}
