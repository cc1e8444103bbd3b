ghost use Rattle.std.specs.Prelude.{◌≡◌};
ghost use Rattle.ilk_answers.specs.Answer.{refusals_from_form_fault, refusals_if_any_broken_rules};
ghost use Rattle.ilk_net_read.specs.Fault.{rule_fault_at_place};

use ilk_net_read::{Form, FormFault, Place};
use ilk_plant::{Broken, Row};
use std::alloc::Global;

/// One reason why a configuration is refused.
#[derive(Clone, Copy, PartialEq, Eq, Debug)]
pub enum Refusal {
    /// A rule of the form (F) is broken.
    Form(FormFault),
    /// A rule of the network (N), the table (R) or its columns (C) is broken.
    Rule(Broken),
}

/// All reasons why a configuration is refused: the first fault of its form, or all broken rules of
/// the first stage that has any.
#[derive(Drop)]
pub struct Refusals {
    pub first: Refusal,
    /// The broken rules after the first.
    pub rest: Row<Broken>,
}

impl Refusals {
    /// Creates refusals with only one reason, a fault of the form.
    pub fn from_form_fault(alloc: Global, fault: FormFault) -> Refusals
        ensures { result ≡ refusals_from_form_fault fault }
    {
        Refusals {
            first: Refusal::Form(fault),
            rest: Row::new(alloc),
        }
    }

    /// Creates the refusals of a configuration that has too many bytes.
    pub fn too_long(alloc: Global) -> Refusals
        ensures { result ≡ refusals_from_form_fault (rule_fault_at_place Form.F1 Place.Document) }
    {
        Refusals::from_form_fault(
            alloc,
            FormFault {
                rule: Form::F1,
                place: Place::Document,
            },
        )
    }

    /// Creates refusals from the broken rules `found`. Returns `None` if there are none.
    pub fn from_broken_rules_if_any(found: Row<Broken>) -> Option<Refusals>
        ensures { result ≡ refusals_if_any_broken_rules found }
    {
        let mut rest = found;
        if rest.as_slice().is_empty() {
            return None;
        }
        let first = Refusal::Rule(rest.remove(0));
        Some(Refusals { first, rest })
    }
}
