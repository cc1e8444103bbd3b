ghost use Rattle.std.specs.Prelude.{◌≡◌, ◌<◌, ◌++◌, ◌∷◌, IfOk, OnOk, flat_map, string_bytes, IsTrue, nat_lt};
ghost use Rattle.std.specs.Fmt.{decimal};
ghost use Rattle.std.specs.List.{list_all};
ghost use Rattle.ilk_log.specs.StepText.{lit_word, step_text};

use crate::hints::Hints;
use crate::step::Step;
use ilk_cnf::Lit;
use ilk_lines::push_decimal;
use std::alloc::{AllocError, Global};

fn push_lit(text: &mut String, l: Lit) -> Result<(), AllocError>
    ensures { OnOk result (string_bytes text.new ≡ string_bytes text.old ++ 32 ∷ lit_word l) }
{
    text.push_str(if l.positive() { " " } else { " -" })?;
    push_decimal(text, l.var())
}

fn push_lits(text: &mut String, lits: &[Lit]) -> Result<(), AllocError>
    ensures { OnOk result
        (string_bytes text.new
        ≡ string_bytes text.old ++ flat_map (λ l. 32 ∷ lit_word l) lits.now) }
{
    for lit in lits {
        push_lit(text, *lit)?;
    }
    Ok(())
}

fn push_hints(text: &mut String, hints: &Hints) -> Result<(), AllocError>
    ensures { OnOk result
        (string_bytes text.new
        ≡ string_bytes text.old ++ flat_map (λ n. 32 ∷ decimal n) hints.now) }
{
    for i in 0..hints.len() {
        text.push_str(" ")?;
        push_decimal(text, *hints.at(i))?;
    }
    Ok(())
}

#[tactic(auto, using(crate::proofs::Texts::text_is))]
/// Appends the line of `step`, without its line feed, to `text`. If memory runs out, the content of
/// `text` is unspecified.
pub fn push_step_text(text: &mut String, step: &Step) -> Result<(), AllocError>
    requires { IsTrue (list_all (λ h. nat_lt 0 h) step.now.hints) }
    ensures { OnOk result (string_bytes text.new ≡ string_bytes text.old ++ step_text step.now) }
{
    text.push_str("step")?;
    push_lits(text, step.clause.as_slice())?;
    text.push_str(" 0")?;
    push_hints(text, &step.hints)?;
    text.push_str(" 0")
}

/// Returns the line of a step, without its line feed.
pub fn write_step(alloc: Global, step: &Step) -> Result<Vec<u8>, AllocError>
    requires { IsTrue (list_all (λ h. nat_lt 0 h) step.now.hints) }
    ensures { IfOk result (λ line. line.items ≡ step_text step.now) }
{
    let mut text = String::new(alloc);
    push_step_text(&mut text, step)?;
    Ok(text.into_bytes())
}
